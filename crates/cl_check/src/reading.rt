//! The forms of a source in their order.
ghost use Rattle.std.specs.Prelude.{◌≡◌, ◌<◌, ◌≤◌, ◌^◌, Ok, length, IfOk};
ghost use Rattle.cl_types.specs.Fault.{IfRefused};
ghost use Rattle.cl_forms.specs.Cycle.{IsOfTheCycle};
ghost use Rattle.cl_forms.specs.Order.{IsGoodOrder, ordered};
ghost use Rattle.cl_forms.specs.Texts.{text_of};
ghost use Rattle.cl_rules.specs.Acceptance.{Ordered, FirstUnordered};
ghost use Rattle.cl_readonly.specs.Functions.{HaveOwnNames};
ghost use Rattle.cl_check.specs.JudgingForms.{AreKnown};

use cl_forms::{
    Form, Version, expressions_are_within_limits, expressions_nest_as_items, forms_have_few_parts,
    forms_with_hash_key,
};
use cl_keyed::HashKey;
use cl_order::order_with_hash_key;
use cl_sexpr::{Refusal, literals_are_within_limits, one_reading, read};
use cl_types::{Fault, NoMemory};
use std::alloc::Global;

/// The forms of a source, and their places in the order of evaluation; the tables of their names hash by the key.
#[derive(Drop)]
pub(crate) struct Program {
    pub(crate) hash_key: HashKey,
    pub(crate) forms: Vec<Form>,
    pub(crate) order: Vec<usize>,
}

fn widened(alloc: Global, places: &[u32]) -> Result<Vec<usize>, NoMemory>
    ensures { IfOk result (λ wide. wide.items ≡ places.now) }
{
    let mut wide = Vec::new(alloc);
    for place in places {
        wide.push(*place as usize)?;
    }
    Ok(wide)
}

/// The places of forms in the order of evaluation, or a cycle of forms.
fn ordered(alloc: Global, hash_key: HashKey, forms: &[Form]) -> Result<Vec<usize>, Fault<Refusal>>
    requires { length forms.now < 2 ^ 32 }
    ensures computed { IfOk result (λ places. ordered forms.now ≡ Ok places.items) }
    ensures good { IfOk result (λ places. IsGoodOrder forms.now places.items) }
    ensures cycle { IfRefused result (λ r. IsOfTheCycle forms.now r.rule r.span r.names.items) }
{
    let places = match order_with_hash_key(alloc, hash_key, forms) {
        Ok(places) => places,
        Err(fault) => return Err(fault),
    };
    let wide = widened(alloc, &places)?;
    Ok(wide)
}

/// The forms of a source of this version in their order, or the first rule of texts, of forms or of their order that it
/// breaks.
pub(crate) fn ordered_forms(
    alloc: Global,
    hash_key: HashKey,
    source: &[u8],
    version: Version,
) -> Result<Program, Fault<Refusal>>
    ensures found { IfOk result
        (λ p. Ordered (text_of source.now version) p.forms.items p.order.items) }
    ensures known { IfOk result (λ p. AreKnown p.forms.items) }
    ensures own { IfOk result (λ p. HaveOwnNames version p.forms.items) }
    ensures good { IfOk result (λ p. IsGoodOrder p.forms.items p.order.items) }
    ensures size { IfOk result (λ _. length source.now ≤ 1048576) }
    ensures broken { IfRefused result
        (λ r. FirstUnordered (text_of source.now version) r.rule r.span r.names.items) }
{
    one_reading();
    literals_are_within_limits();
    forms_have_few_parts();
    expressions_are_within_limits();
    expressions_nest_as_items();
    let items = read(alloc, source)?;
    let forms = forms_with_hash_key(alloc, hash_key, items, version)?;
    let order = ordered(alloc, hash_key, &forms)?;
    Ok(Program {
        hash_key,
        forms,
        order,
    })
}
