//! Laws of walks. Each function here does nothing.
ghost use Rattle.std.specs.Prelude.{◌≡◌, ℕ, Ok, Err};
ghost use Rattle.cl_shapes.specs.declared.limit.Over.{Over};
ghost use Rattle.cl_shapes.specs.declared.name.CostName.{CostName};
ghost use Rattle.cl_shapes.specs.Limits.{Purse, spend};
ghost use Rattle.cl_sexpr.specs.declared.sexpr.Span.{Span};
ghost use Rattle.cl_values.specs.Tree.{Tree as Val};
ghost use Rattle.cl_events.specs.State.{State};
ghost use Rattle.cl_meaning.specs.Answers.{Outcome, Answer, stop, charged, and_then, ending, returning};
ghost use Rattle.cl_meaning.specs.Limits.{cost_of};
ghost use Rattle.cl_walks.specs.Walked.{Rules, Book, Going, ended_on, walked, Gave, Passed, after, returned, looked};

/// The walk along an answer, by how the answer is made: of an outcome alone, of one answer behind
/// another, of a charge that the limit allows or refuses before it, of a node that ends, and of an
/// early return.
pub fn walks_go_along<K, A, B>()
    ensures ends { (R : Rules K) (b : Book K) (o : Outcome A) (s : State) →
        walked R b (stop o s) ≡ ended_on (Going b) o s }
    ensures behind { (R : Rules K) (b : Book K) (a : Answer A) (go_on : A → State → Answer B) →
        walked R b (and_then a go_on) ≡ after (walked R b a) (λ v s c. walked R c (go_on v s)) }
    ensures allowed { (R : Rules K) (b : Book K) (p : Purse) (name : CostName) (n : ℕ)
        (a : Answer A) → spend b.purse (cost_of R.costs name n) ≡ Ok p →
        walked R b (charged name n a) ≡ walked R (record b { purse = p }) a }
    ensures refused { (R : Rules K) (b : Book K) (over : Over) (name : CostName) (n : ℕ)
        (a : Answer A) → spend b.purse (cost_of R.costs name n) ≡ Err over →
        walked R b (charged name n a) ≡ Passed over b }
    ensures looks { (R : Rules K) (b : Book K) (at : Span) (a : Answer Val) →
        walked R b (ending at a) ≡ after (walked R b a) (λ v s c. Gave v s (looked R at v c)) }
    ensures early { (R : Rules K) (b : Book K) (a : Answer Val) →
        walked R b (returning a) ≡ returned (walked R b a) }
{}
