//! What holds of meanings and of what a limit leaves of them: each function here is a law, and does nothing.
ghost use Rattle.std.specs.Prelude.{◌≡◌, ◌≢◌, ℕ, suc, ◌+◌, List, [], All, Some, None, Ok, Err};
ghost use Rattle.cl_c32.specs.declared.principal.Principal.{Principal};
ghost use Rattle.cl_shapes.specs.declared.limit.Over.{Over};
ghost use Rattle.cl_shapes.specs.Costs.{plus, IsAtMost};
ghost use Rattle.cl_shapes.specs.declared.name.CostName.{CostName};
ghost use Rattle.cl_shapes.specs.Limits.{Purse, spend};
ghost use Rattle.cl_sexpr.specs.declared.sexpr.Span.{Span};
ghost use Rattle.cl_sexpr.specs.Tree.{Tree, LeafAt, ListAt, Named, Forest, Then, span_of};
ghost use Rattle.cl_values.specs.Tree.{Tree as Val};
ghost use Rattle.cl_values.specs.Valid.{IsPrincipal};
ghost use Rattle.cl_forms.specs.Heads.{Row};
ghost use Rattle.cl_forms.specs.Shapes.{trees_of};
ghost use Rattle.cl_events.specs.State.{State, genesis};
ghost use Rattle.cl_meaning.specs.Answers.{Answer, Deeper, stop, charged, and_then, ending, returning};
ghost use Rattle.cl_meaning.specs.Deployed.{native_of};
ghost use Rattle.cl_meaning.specs.Scope.{Scope, home, Callee, Take, Enter};
ghost use Rattle.cl_meaning.specs.Calls.{call_form};
ghost use Rattle.cl_meaning.specs.Meaning.{head_form, node, means, applied};
ghost use Rattle.cl_meaning.specs.Limits.{Costs, cost_of, cost, Within, Passed, limit_on, limited, after, returned};
ghost use Rattle.cl_meaning.specs.Trace.{trace_of};
ghost use Rattle.cl_meaning.specs.Kept.{Kept, Whole};
ghost use Rattle.cl_meaning.specs.Prefixes.{spent_after, IsWithin, IsFirstOver, claims_in};

/// A meaning to a depth that is enough is the meaning to each greater depth.
pub fn more_depth_changes_nothing()
    ensures expression { (depth more : ℕ) (S : Scope) (e : Tree) (s : State) →
        (means depth S e s).outcome ≢ Deeper → means (depth + more) S e s ≡ means depth S e s }
    ensures application { (depth more : ℕ) (S : Scope) (f : Callee) (vs : List Val) (s : State) →
        (applied depth S f vs s).outcome ≢ Deeper → applied (depth + more) S f vs s ≡ applied depth S f vs s }
{}

/// An expression means, to a depth, what its node is over what its parts and its applications mean one level down; and
/// at depth 0 it is Deeper. A list that begins with the name of a native, by the version of the contract's text, is that
/// native, and else a call.
pub fn nodes_by_their_names()
    ensures bottom { (S : Scope) (e : Tree) (s : State) → means 0 S e s ≡ stop Deeper s }
    ensures step { (depth : ℕ) (S : Scope) (e : Tree) (s : State) →
        means (suc depth) S e s ≡ ending (span_of e) (node (means depth) (applied depth) S e s) }
    ensures native { (take : Take) (enter : Enter) (S : Scope) (x : List ℕ) (row : Row) (es : Forest) (at named_at : Span) (s : State) →
        native_of x (home S) ≡ Some row →
        node take enter S (ListAt (Then (LeafAt (Named x) named_at) es) at) s ≡ head_form row.head row.cost take enter S (trees_of es) s }
    ensures call { (take : Take) (enter : Enter) (S : Scope) (x : List ℕ) (es : Forest) (at named_at : Span) (s : State) →
        native_of x (home S) ≡ None →
        node take enter S (ListAt (Then (LeafAt (Named x) named_at) es) at) s ≡ call_form x take enter S (trees_of es) s }
{}

/// How a limit goes along with an answer that is put together: behind another, behind a charge that it allows, and behind one
/// that it doesn't; that a node ended costs nothing, and an early return is a return.
pub fn limits_go_along<A, B>()
    ensures behind { (costs : Costs) (p : Purse) (a : Answer A) (go_on : A → State → Answer B) →
        limited costs p (and_then a go_on) ≡ after (limited costs p a) (λ v s q. limited costs q (go_on v s)) }
    ensures allowed { (costs : Costs) (p q : Purse) (name : CostName) (n : ℕ) (a : Answer A) →
        spend p (cost_of costs name n) ≡ Ok q → limited costs p (charged name n a) ≡ limited costs q a }
    ensures refused { (costs : Costs) (p : Purse) (over : Over) (name : CostName) (n : ℕ) (a : Answer A) →
        spend p (cost_of costs name n) ≡ Err over → limited costs p (charged name n a) ≡ Passed over p }
    ensures ended { (costs : Costs) (p : Purse) (span : Span) (a : Answer Val) →
        limited costs p (ending span a) ≡ limited costs p a }
    ensures early { (costs : Costs) (p : Purse) (a : Answer Val) →
        limited costs p (returning a) ≡ returned (limited costs p a) }
{}

/// A limit stops an evaluation at the first charge with which more is spent than the limit, and there alone. Where there
/// is no such charge, the outcome is the evaluation's own and exactly its cost is spent; so it is under each limit that
/// isn't below what was spent before and the cost.
pub fn limits_stop_first<A>()
    ensures stopped { (costs : Costs) (p q : Purse) (a : Answer A) (over : Over) → IsAtMost p.spent p.limit →
        limited costs p a ≡ Passed over q → IsFirstOver costs p a.log over }
    ensures stops { (costs : Costs) (p : Purse) (a : Answer A) (over : Over) (first : IsFirstOver costs p a.log over) →
        limited costs p a ≡ Passed over (record { limit = p.limit; spent = spent_after costs p first.front }) }
    ensures goes_on { (costs : Costs) (p : Purse) (a : Answer A) → IsWithin costs p a.log →
        limited costs p a ≡ limit_on (Within (record { limit = p.limit; spent = plus p.spent (cost costs a) })) a.outcome a.state }
    ensures enough { (costs : Costs) (p : Purse) (a : Answer A) →
        IsAtMost (plus p.spent (cost costs a)) p.limit → IsWithin costs p a.log }
{}

/// The trace of an evaluation has all nodes that ended with a value, or those that ended before the charge at which the
/// limit stops it.
pub fn traces_stop_there<A>()
    ensures whole { (costs : Costs) (p : Purse) (a : Answer A) → IsWithin costs p a.log →
        trace_of costs p a ≡ claims_in a.log }
    ensures cut { (costs : Costs) (p : Purse) (a : Answer A) (over : Over) (first : IsFirstOver costs p a.log over) →
        trace_of costs p a ≡ claims_in first.front }
{}

/// The first state of a node, before any contract is deployed, is kept.
pub fn genesis_is_kept()
    ensures { (holders : List (Principal × ℕ)) → All (λ h. IsPrincipal h.0) holders → Kept [] Whole (genesis holders) }
{}
