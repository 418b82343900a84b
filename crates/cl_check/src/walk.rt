//! The walk over forms in their order.
ghost use Rattle.std.specs.Prelude.{◌≡◌, false, List, ℕ, map, IfOk};
ghost use Rattle.cl_types.specs.Fault.{IfRefused};
ghost use Rattle.cl_forms.specs.Order.{IsGoodOrder};
ghost use Rattle.cl_code.specs.Definitions.{form_defined};
ghost use Rattle.cl_rules.specs.Acceptance.{forms_at};
ghost use Rattle.cl_rules.specs.FormRules.{Defined};
ghost use Rattle.cl_rules.specs.Judging.{Fails, forms_judged};
ghost use Rattle.cl_judging.specs.Seen.{Shows, top_level_in};
ghost use Rattle.cl_check.specs.JudgingForms.{AreKnown, StandingAs};

use crate::forms::check_form;
use cl_code::Definition;
use cl_forms::Form;
use cl_judging::Context;
use cl_sexpr::Break;
use cl_types::Fault;
use std::alloc::Global;

/// The definitions of forms in their order, or the first break among them.
pub(crate) fn walk(
    alloc: Global,
    ctx: &mut Context,
    forms: &[Form],
    order: &[usize],
) -> Result<Vec<Definition>, Fault<Break>>
    requires known { AreKnown forms.now }
    requires good { IsGoodOrder forms.now order.now }
    requires empty { (x : List ℕ) → top_level_in ctx.old x ≡ false }
    ensures forms { IfOk result (λ ds. map form_defined ds.items ≡ forms_at forms.now order.now) }
    ensures standing { IfOk result (λ ds. (D : Defined) → Shows ctx.old D.context → StandingAs D (forms_at forms.now order.now) ds.items) }
    ensures broken { IfRefused result (λ b. (D : Defined) → Shows ctx.old D.context → forms_judged D (forms_at forms.now order.now) ≡ Fails b.rule b.span) }
{
    let mut definitions = Vec::with_capacity(alloc, order.len())?;
    for place in order {
        match check_form(alloc, ctx, &forms[*place]) {
            Ok(definition) => definitions.push(definition)?,
            Err(fault) => return Err(fault),
        }
    }
    Ok(definitions)
}
