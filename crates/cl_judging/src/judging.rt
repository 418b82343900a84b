//! The judgement of an expression.
ghost use Rattle.std.specs.Prelude.{◌≡◌, ◌<◌, ◌≤◌, ◌^◌, ℕ, IfOk};
ghost use Rattle.cl_types.specs.Fault.{IfRefused};
ghost use Rattle.cl_sexpr.specs.Fits.{Fits};
ghost use Rattle.cl_sexpr.specs.Tree.{tree_depth, tree_size};
ghost use Rattle.cl_sexpr.specs.Placed.{IsPlaced};
ghost use Rattle.cl_rules.specs.Context.{Context as Around};
ghost use Rattle.cl_rules.specs.Verdicts.{Found};
ghost use Rattle.cl_rules.specs.Typing.{Typed, FirstBreak};
ghost use Rattle.cl_rules.specs.Judging.{judged};
ghost use Rattle.cl_code.specs.Typed.{expression_of};
ghost use Rattle.cl_typing.specs.Verdicts.{facts, facts_of};
ghost use Rattle.cl_judging.specs.Seen.{Shows};
ghost use Rattle.cl_judging.specs.Judgement.{Judges};

use crate::context::Context;
use crate::walk::check_expr;
use cl_keyed::HashKey;
use cl_rules::{a_walk_stops_at_the_first_break, the_plain_program_is_right};
use cl_sexpr::{Break, Sexpr};
use cl_types::{Fault, Name, SizedTy};
use cl_typing::Checked;
use indexmap::IndexMap;
use std::alloc::Global;

/// The typed tree of an expression after the definitions of a context, with these names bound to values of these types, or the
/// first rule that it breaks with its place. The names stay bound.
pub fn judge(
    alloc: Global,
    ctx: &Context,
    names: &mut IndexMap<Name, SizedTy, HashKey>,
    e: &Sexpr,
) -> Result<Checked, Fault<Break>>
    requires small { tree_size e.now ≤ 2 ^ 21 }
    requires fits { Fits e.now }
    ensures plain { (G : Around) (d : ℕ) → Shows ctx.now G → tree_depth e.now < d → Judges G names.old.entries (judged d G names.old.entries e.now) result }
    ensures typed { IfOk result (λ c. (G : Around) → Shows ctx.now G → (f : Found) × Typed G names.old.entries e.now f × (facts f ≡ facts_of c)) }
    ensures first { IfRefused result (λ b. (G : Around) → Shows ctx.now G → IsPlaced e.now → FirstBreak G names.old.entries e.now b.rule b.span) }
    ensures text { IfOk result (λ c. expression_of c.code ≡ e.now) }
    ensures kept { IfOk result (λ _. names.new.entries ≡ names.old.entries) }
{
    the_plain_program_is_right();
    a_walk_stops_at_the_first_break();
    match check_expr(alloc, ctx, names, e) {
        Ok(checked) => Ok(checked),
        Err(fault) => Err(fault),
    }
}
