//! The order of definitions, or the cycle that is refused.
ghost use Rattle.std.specs.Prelude.{◌≡◌, ◌<◌, ◌^◌, length, Ok, Err, IfOk, filter_map};
ghost use Rattle.cl_types.specs.Fault.{IfRefused};
ghost use Rattle.cl_forms.specs.Names.{name_at};
ghost use Rattle.cl_forms.specs.Order.{IsGoodOrder, IsCycle, ordered};
ghost use Rattle.cl_forms.specs.Cycle.{first_span, IsOfTheCycle};

use crate::index::index;
use crate::search::in_order;
use cl_forms::Form;
use cl_keyed::HashKey;
use cl_sexpr::{Refusal, Rule, Span};
use cl_types::{Fault, Name};
use std::alloc::{AllocError, Global};

fn name_at(forms: &[Form], place: u32) -> Option<Name>
    ensures { result ≡ name_at forms.now place }
{
    match forms.get(place as usize) {
        Some(form) => match &form.name {
            Some(name) => Some(*name),
            None => None,
        },
        None => None,
    }
}

fn names_at(alloc: Global, forms: &[Form], places: &[u32]) -> Result<Vec<Name>, AllocError>
    ensures { IfOk result (λ names. names.items ≡ filter_map (name_at forms.now) places.now) }
{
    places
        .iter()
        .filter_map(|place| name_at(forms, *place))
        .collect(alloc)
}

fn first_span(forms: &[Form], places: &[u32]) -> Option<Span>
    ensures { result ≡ first_span forms.now places.now }
{
    match places {
        [] => None,
        [first, ..] => match forms.get(*first as usize) {
            Some(form) => Some(form.span),
            None => None,
        },
    }
}

fn refusal(alloc: Global, forms: &[Form], cycle: &[u32]) -> Result<Refusal, AllocError>
    requires { ordered forms.now ≡ Err cycle.now }
    ensures { IfOk result (λ r. IsOfTheCycle forms.now r.rule r.span r.names.items) }
{
    let Some(span) = first_span(forms, cycle) else {
        unreachable!();
    };
    let names = names_at(alloc, forms, cycle)?;
    Ok(Refusal {
        rule: Rule::Cycle,
        span,
        names,
    })
}

/// The places of the forms in the order in which they are evaluated: depth first in the order of the text, each form after
/// all that it names (SIP-002 lets a definition use those that stand behind it).
///
/// Forms that name each other in a ring are refused by O1 `Cycle`: its span is that of the first form of the cycle that is
/// met, and its names are those of the whole cycle, of which each form names the next, and the last names the first.
///
/// Nothing recurs from form to form. The time is near linear in the forms and their atoms where no stranger chose their names:
/// the table of these hashes by the key that everybody knows.
pub fn order(alloc: Global, forms: &[Form]) -> Result<Vec<u32>, Fault<Refusal>>
    requires { length forms.now < 2 ^ 32 }
    ensures computed { IfOk result (λ order. ordered forms.now ≡ Ok order.items) }
    ensures good { IfOk result (λ order. IsGoodOrder forms.now order.items) }
    ensures cycle { IfRefused result (λ r. IsOfTheCycle forms.now r.rule r.span r.names.items) }
    ensures ring { IfRefused result (λ r. IsCycle forms.now r.names.items) }
{
    order_with_hash_key(alloc, HashKey::FIXED, forms)
}

/// The same, with a table of names that hashes by this key.
pub fn order_with_hash_key(
    alloc: Global,
    hash_key: HashKey,
    forms: &[Form],
) -> Result<Vec<u32>, Fault<Refusal>>
    requires { length forms.now < 2 ^ 32 }
    ensures computed { IfOk result (λ order. ordered forms.now ≡ Ok order.items) }
    ensures good { IfOk result (λ order. IsGoodOrder forms.now order.items) }
    ensures cycle { IfRefused result (λ r. IsOfTheCycle forms.now r.rule r.span r.names.items) }
    ensures ring { IfRefused result (λ r. IsCycle forms.now r.names.items) }
{
    let index = index(alloc, hash_key, forms)?;
    match in_order(alloc, forms, &index) {
        Ok(order) => Ok(order),
        Err(Fault::Refused(cycle)) => Err(Fault::Refused(refusal(alloc, forms, &cycle)?)),
        Err(Fault::NoMemory) => Err(Fault::NoMemory),
    }
}
