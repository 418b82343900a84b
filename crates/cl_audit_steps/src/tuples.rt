//! Tuples, their parts, and sequences within a length.
ghost use Rattle.cl_forms.specs.Shapes.{bindings_of};
ghost use Rattle.cl_meaning.specs.Answers.{with_known};
ghost use Rattle.cl_meaning.specs.Scope.{Scope as Around};
ghost use Rattle.cl_meaning.specs.Values.{tuple_form, get_form, as_max_len_form};
ghost use Rattle.cl_audit_steps.specs.Steps.{IsStart, StartsSo};

use crate::control::wrong;
use crate::items::{bindings, fields, name_and_item, two, uint};
use crate::step::{OnOne, Part, Start};
use cl_sexpr::Sexpr;
use cl_types::{Name, NoMemory};
use std::alloc::Global;

/// `{..}`
pub(crate) fn tuple_start<'a>(
    alloc: Global,
    pairs: &'a [(Name, Sexpr)],
) -> Result<Start<'a>, NoMemory>
    ensures { (S : Around) → IsStart S (λ take enter s. tuple_form take S pairs.now s) result }
{
    Ok(Start {
        charge: None,
        part: Part::Tuple(fields(alloc, pairs)?),
    })
}

/// `tuple`
pub(crate) fn tuple_of_start<'a>(alloc: Global, items: &'a [Sexpr]) -> Result<Start<'a>, NoMemory>
    ensures { (S : Around) → IsStart S
        (λ take enter s. with_known (bindings_of items.now) (tuple_form take S) s) result }
{
    match bindings(alloc, items)? {
        Some(fields) => Ok(Start {
            charge: None,
            part: Part::Tuple(fields),
        }),
        None => Ok(wrong()),
    }
}

/// `get`
pub(crate) fn get_start(items: &[Sexpr]) -> Start
    ensures { (S : Around) → StartsSo S (λ take enter s. get_form take S items.now s) result }
{
    match name_and_item(items) {
        Some((key, part)) => Start {
            charge: None,
            part: Part::One(part, OnOne::Get(key)),
        },
        None => wrong(),
    }
}

/// `as-max-len?`
pub(crate) fn as_max_len_start(items: &[Sexpr]) -> Start
    ensures { (S : Around) →
        StartsSo S (λ take enter s. as_max_len_form take S items.now s) result }
{
    let Some((part, second)) = two(items) else {
        return wrong();
    };
    match uint(second) {
        Some(most) => Start {
            charge: None,
            part: Part::One(part, OnOne::AsMaxLen(most)),
        },
        None => wrong(),
    }
}
