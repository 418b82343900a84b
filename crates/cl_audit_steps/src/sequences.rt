//! `map`, `filter` and `fold`.
ghost use Rattle.cl_meaning.specs.Scope.{Scope as Around, BoundValues};
ghost use Rattle.cl_meaning.specs.Sequences.{map_form, filter_form, fold_form};
ghost use Rattle.cl_audit_steps.specs.Seen.{seen};
ghost use Rattle.cl_audit_steps.specs.Steps.{EndsSo, IsEnd, StartsSo, map_on, filter_on, fold_on};

use crate::charge::Charge;
use crate::control::wrong;
use crate::items::{one, two as two_items, word_and_rest};
use crate::scope::Scope;
use crate::step::{End, Last, OnAll, OnOne, Part, Start};
use crate::values::charged_end;
use cl_operands::two;
use cl_sexpr::{Sexpr, Span};
use cl_shapes::CostName;
use cl_types::{Name, NoMemory};
use cl_values::Val;

/// `map`
pub(crate) fn map_start(items: &[Sexpr]) -> Start
    ensures { (S : Around) → StartsSo S (λ take enter s. map_form take enter S items.now s) result }
{
    match word_and_rest(items) {
        Some((name, span, rest)) => Start {
            charge: None,
            part: Part::All(rest, OnAll::Map(name, span)),
        },
        None => wrong(),
    }
}

/// `filter`
pub(crate) fn filter_start(items: &[Sexpr]) -> Start
    ensures { (S : Around) →
        StartsSo S (λ take enter s. filter_form take enter S items.now s) result }
{
    let Some((name, span, rest)) = word_and_rest(items) else {
        return wrong();
    };
    match one(rest) {
        Some(part) => Start {
            charge: None,
            part: Part::One(part, OnOne::Filter(name, span)),
        },
        None => wrong(),
    }
}

/// `fold`
pub(crate) fn fold_start(items: &[Sexpr]) -> Start
    ensures { (S : Around) →
        StartsSo S (λ take enter s. fold_form take enter S items.now s) result }
{
    let Some((name, span, rest)) = word_and_rest(items) else {
        return wrong();
    };
    match two_items(rest) {
        Some(_) => Start {
            charge: None,
            part: Part::All(rest, OnAll::Fold(name, span)),
        },
        None => wrong(),
    }
}

/// `map` on the values of sequences.
pub(crate) fn on_map<'a>(
    scope: &Scope<'a>,
    name: &'a Name,
    span: Span,
    values: Vec<Val>,
) -> Result<End<'a>, NoMemory>
    ensures { (outer : BoundValues) → IsEnd (seen scope.now outer)
        (λ take enter s. map_on enter (seen scope.now outer) name.now span values.items s) result }
{
    let charge = Charge::of_all(CostName::Iterate, &values)?;
    match scope.callee(name, span) {
        Some(callee) => Ok(charged_end(charge, Last::Map(callee, values))),
        None => Ok(charged_end(charge, Last::Wrong)),
    }
}

/// `filter` on the value of a sequence.
pub(crate) fn on_filter<'a>(scope: &Scope<'a>, name: &'a Name, span: Span, value: Val) -> End<'a>
    ensures { (outer : BoundValues) → EndsSo (seen scope.now outer)
        (λ take enter s. filter_on enter (seen scope.now outer) name.now span value s) result }
{
    let charge = Charge::of(CostName::Iterate, &value);
    match scope.callee(name, span) {
        Some(callee) => charged_end(charge, Last::Filter(callee, value)),
        None => charged_end(charge, Last::Wrong),
    }
}

/// `fold` on the values of a sequence and a first result.
pub(crate) fn on_fold<'a>(
    scope: &Scope<'a>,
    name: &'a Name,
    span: Span,
    values: Vec<Val>,
) -> Result<End<'a>, NoMemory>
    ensures { (outer : BoundValues) → IsEnd (seen scope.now outer)
        (λ take enter s. fold_on enter (seen scope.now outer) name.now span values.items s) result }
{
    let charge = Charge::of_all(CostName::Iterate, &values)?;
    let Some(callee) = scope.callee(name, span) else {
        return Ok(charged_end(charge, Last::Wrong));
    };
    match two(values) {
        Some((sequence, first)) => Ok(charged_end(charge, Last::Fold(callee, sequence, first))),
        None => Ok(charged_end(charge, Last::Wrong)),
    }
}
