//! What follows the values of parts.
ghost use Rattle.std.specs.Prelude.{◌≡◌, true, IfOk, None, Some, length, ◌∷◌, [], option_and_then};
ghost use Rattle.cl_values.specs.Applied.{Applied};
ghost use Rattle.cl_values.specs.Computed.{Computed, Gives};
ghost use Rattle.cl_values.specs.Sequences.{within_length};
ghost use Rattle.cl_values.specs.Tree.{BoolV, SomeV, NoneV};
ghost use Rattle.cl_values.specs.Tuples.{part_at};
ghost use Rattle.cl_meaning.specs.Answers.{give, with_known};
ghost use Rattle.cl_meaning.specs.Calls.{all_true, some_true, native_form};
ghost use Rattle.cl_meaning.specs.Control.{choice, throwing, wanted_part, err_part, tried, match_optional, match_response, last_of};
ghost use Rattle.cl_meaning.specs.Deployed.{function_of};
ghost use Rattle.cl_meaning.specs.Scope.{Scope as Around, BoundValues, OwnFunction, home, taken_with};
ghost use Rattle.cl_meaning.specs.Values.{number_of, on_values};
ghost use Rattle.cl_audit_steps.specs.Seen.{seen};
ghost use Rattle.cl_audit_steps.specs.Steps.{IsLast, EndsSo, IsEnd, on_one, on_all, part_taken, shortened, tuple_made, function_entered};
ghost use Rattle.cl_audit_steps.specs.Ways.{IsComputed, held, kind_of, joined_form};

use crate::across::on_across;
use crate::charge::Charge;
use crate::scope::Scope;
use crate::sequences::{on_filter, on_fold, on_map};
use crate::step::{End, Last, OnAll, OnOne};
use cl_apply::apply_native;
use cl_forms::{Head, NativeRow};
use cl_operands::{
    Way, err_way_of, into_content, join_truths, keyed_tuple, optional_way_of, response_way_of,
    truth_of, way_of,
};
use cl_seq::{bool_value, none, some, try_get, try_len};
use cl_sexpr::Sexpr;
use cl_shapes::CostName;
use cl_types::{Fault, Name, NoMemory};
use cl_values::{Native, NoValue, Val};
use cl_walks::Why;
use std::alloc::Global;

/// An end with no charge before it.
pub(crate) fn uncharged_end(last: Last) -> End
    ensures { result ≡ record { charge = None; last = last.entry } }
{
    End { charge: None, last }
}

/// An end with a charge before it.
pub(crate) fn charged_end<'a>(charge: Charge, last: Last<'a>) -> End<'a>
    ensures { result ≡ record { charge = Some charge; last = last.entry } }
{
    End {
        charge: Some(charge),
        last,
    }
}

/// What is computed, or why nothing is.
pub(crate) fn computed_last<'a>(answer: Result<Val, Fault<NoValue>>) -> Result<Last<'a>, NoMemory>
    ensures { (c : Computed) → Applied c answer → IsComputed c result }
{
    match answer {
        Ok(value) => Ok(Last::Give(value)),
        Err(Fault::Refused(NoValue::Arith(refusal))) => Ok(Last::Abort(Why::Arithmetic(refusal))),
        Err(Fault::Refused(NoValue::Panic)) => Ok(Last::Abort(Why::Panic)),
        Err(Fault::Refused(NoValue::Undefined)) => Ok(Last::Wrong),
        Err(Fault::NoMemory) => Err(NoMemory),
    }
}

/// `if`
fn choose<'a>(value: Val, first: &'a Sexpr, second: &'a Sexpr) -> Last<'a>
    ensures { (S : Around) →
        IsLast S (λ take enter s. choice value (take S first.now) (take S second.now) s) result }
{
    match truth_of(&value) {
        Some(true) => Last::As(first),
        Some(false) => Last::As(second),
        None => Last::Wrong,
    }
}

/// `asserts!`
fn assert<'a>(value: Val, thrown: &'a Sexpr) -> Last<'a>
    ensures { (S : Around) →
        IsLast S (λ take enter s. choice value (give (BoolV true))
        (throwing take S thrown.now) s) result }
{
    match truth_of(&value) {
        Some(true) => Last::Give(bool_value(true)),
        Some(false) => Last::Throwing(thrown),
        None => Last::Wrong,
    }
}

/// `unwrap!`
fn unwrap<'a>(value: Val, thrown: &'a Sexpr) -> Last<'a>
    ensures { (S : Around) →
        IsLast S (λ take enter s. wanted_part (throwing take S thrown.now) value s) result }
{
    match way_of(&value) {
        Way::Good => Last::Give(into_content(value)),
        Way::Bad => Last::Throwing(thrown),
        Way::Neither => Last::Wrong,
    }
}

/// `unwrap-err!`
fn unwrap_err<'a>(value: Val, thrown: &'a Sexpr) -> Last<'a>
    ensures { (S : Around) →
        IsLast S (λ take enter s. err_part (throwing take S thrown.now) value s) result }
{
    match err_way_of(&value) {
        Way::Good => Last::Give(into_content(value)),
        Way::Bad => Last::Throwing(thrown),
        Way::Neither => Last::Wrong,
    }
}

/// `try!`
fn unwrap_or_throw<'a>(value: Val) -> Last<'a>
    ensures { (S : Around) → IsLast S (λ take enter s. tried value s) result }
{
    match way_of(&value) {
        Way::Good => Last::Give(into_content(value)),
        Way::Bad => Last::Throw(value),
        Way::Neither => Last::Wrong,
    }
}

/// A branch that sees one more name, whose binding is charged first.
fn with<'a>(name: &'a Name, value: Val, item: &'a Sexpr) -> End<'a>
    ensures { (S : Around) →
        EndsSo S (λ take enter s. taken_with take S name.now value item.now s) result }
{
    End {
        charge: Some(Charge::of(CostName::Bind, &value)),
        last: Last::With(name, value, item),
    }
}

/// `match` on an optional.
fn match_optional<'a>(value: Val, name: &'a Name, some: &'a Sexpr, none: &'a Sexpr) -> End<'a>
    ensures { (S : Around) →
        EndsSo S (λ take enter s. match_optional take S name.now some.now none.now value s) result }
{
    match optional_way_of(&value) {
        Way::Good => with(name, into_content(value), some),
        Way::Bad => uncharged_end(Last::As(none)),
        Way::Neither => uncharged_end(Last::Wrong),
    }
}

/// `match` on a response.
fn match_response<'a>(
    value: Val,
    ok_name: &'a Name,
    ok: &'a Sexpr,
    err_name: &'a Name,
    err: &'a Sexpr,
) -> End<'a>
    ensures { (S : Around) →
        EndsSo S
        (λ take enter s. match_response take S ok_name.now ok.now err_name.now err.now value s)
        result }
{
    match response_way_of(&value) {
        Way::Good => with(ok_name, into_content(value), ok),
        Way::Bad => with(err_name, into_content(value), err),
        Way::Neither => uncharged_end(Last::Wrong),
    }
}

/// `get`
fn part_taken<'a>(alloc: Global, key: &Name, value: Val) -> Result<End<'a>, NoMemory>
    ensures { (S : Around) → IsEnd S (λ take enter s. part_taken key.now value s) result }
{
    let charge = Charge::of(CostName::Take, &value);
    Ok(charged_end(charge, computed_last(try_get(alloc, value, key))?))
}

/// A sequence of so many entries as an optional value, which is none where these are too many.
fn some_within<'a>(
    alloc: Global,
    most: u128,
    length: usize,
    value: Val,
) -> Result<Last<'a>, NoMemory>
    ensures { IsComputed (held most length value) result }
{
    if length as u128 <= most {
        computed_last(some(alloc, value))
    } else {
        Ok(Last::Give(none()))
    }
}

/// `as-max-len?`
fn as_max_len<'a>(alloc: Global, most: u128, value: Val) -> Result<End<'a>, NoMemory>
    ensures { (S : Around) → IsEnd S (λ take enter s. shortened most value s) result }
{
    let charge = Charge::of(CostName::Make, &value);
    match try_len(&value) {
        Some(length) => Ok(charged_end(charge, some_within(alloc, most, length, value)?)),
        None => Ok(charged_end(charge, Last::Wrong)),
    }
}

/// What follows the value of a part.
pub fn on_one<'a>(scope: &Scope<'a>, kind: OnOne<'a>, value: Val) -> Result<End<'a>, NoMemory>
    ensures { (outer : BoundValues) → IsEnd (seen scope.now outer)
        (λ take enter s. on_one take enter (seen scope.now outer) kind.entry value s) result }
{
    match kind {
        OnOne::Choose(first, second) => Ok(uncharged_end(choose(value, first, second))),
        OnOne::Assert(thrown) => Ok(uncharged_end(assert(value, thrown))),
        OnOne::Unwrap(thrown) => Ok(uncharged_end(unwrap(value, thrown))),
        OnOne::UnwrapErr(thrown) => Ok(uncharged_end(unwrap_err(value, thrown))),
        OnOne::Try => Ok(uncharged_end(unwrap_or_throw(value))),
        OnOne::Optional(name, some, none) => Ok(match_optional(value, name, some, none)),
        OnOne::Response(ok_name, ok, err_name, err) => {
            Ok(match_response(value, ok_name, ok, err_name, err))
        }
        OnOne::Get(key) => part_taken(scope.alloc, key, value),
        OnOne::AsMaxLen(most) => as_max_len(scope.alloc, most, value),
        OnOne::Filter(name, span) => Ok(on_filter(scope, name, span, value)),
    }
}

/// The charge of a native on values.
fn native_charge(cost: CostName, values: &[Val]) -> Result<Charge, NoMemory>
    ensures { IfOk result (λ c. c ≡ (cost, number_of cost values.now)) }
{
    match cost {
        CostName::Arith | CostName::Control => Charge::at(cost, values.len() as u64),
        _ => Charge::of_all(cost, values),
    }
}

/// A native on values, which is charged before it is computed.
fn on_native<'a>(native: Native, cost: CostName, values: Vec<Val>) -> Result<End<'a>, NoMemory>
    ensures { (S : Around) → IsEnd S (λ take enter s. on_values native cost values.items s) result }
{
    let charge = native_charge(cost, &values)?;
    let alloc = *values.allocator();
    Ok(charged_end(charge, computed_last(apply_native(alloc, native, values))?))
}

/// The last of one or more values.
pub fn last<'a>(mut values: Vec<Val>) -> Last<'a>
    ensures { (S : Around) → IsLast S (λ take enter s. last_of values.items s) result }
{
    match values.pop() {
        Some(value) => Last::Give(value),
        None => Last::Wrong,
    }
}

/// The last of one or more values, with no charge.
fn on_last<'a>(values: Vec<Val>) -> Result<End<'a>, NoMemory>
    ensures { (S : Around) → IsEnd S (λ take enter s. last_of values.items s) result }
{
    Ok(uncharged_end(last(values)))
}

/// A function of the contract on values.
fn on_call<'a>(scope: &Scope<'a>, name: &'a Name, values: Vec<Val>) -> End<'a>
    ensures { (outer : BoundValues) → EndsSo (seen scope.now outer)
        (λ take enter s. function_entered enter (seen scope.now outer) name.now values.items s)
        result }
{
    match scope.function(name) {
        Some(function) => uncharged_end(Last::Enter(function, values)),
        None => uncharged_end(Last::Wrong),
    }
}

/// The tuple of values under keys.
pub fn on_tuple<'a>(alloc: Global, entries: Vec<(Name, Val)>) -> Result<End<'a>, NoMemory>
    ensures { (S : Around) → IsEnd S (λ take enter s. tuple_made entries.items s) result }
{
    if entries.as_slice().is_empty() {
        return Ok(uncharged_end(Last::Wrong));
    }
    let charge = Charge::of_entries(CostName::Make, &entries)?;
    Ok(charged_end(charge, computed_last(keyed_tuple(alloc, entries))?))
}

/// What follows the values of all parts.
pub fn on_all<'a>(scope: &Scope<'a>, kind: OnAll<'a>, values: Vec<Val>) -> Result<End<'a>, NoMemory>
    ensures { (outer : BoundValues) → IsEnd (seen scope.now outer)
        (λ take enter s. on_all enter (seen scope.now outer) kind.entry values.items s) result }
{
    match kind {
        OnAll::Last => on_last(values),
        OnAll::Native(native, cost) => on_native(native, cost, values),
        OnAll::Call(name) => Ok(on_call(scope, name, values)),
        OnAll::Across(contract, name) => on_across(scope, contract, name, values),
        OnAll::Map(name, span) => on_map(scope, name, span, values),
        OnAll::Fold(name, span) => on_fold(scope, name, span, values),
    }
}

// ---- natives given by name

/// A native that can be given by name.
#[derive(Clone, Copy)]
enum NativeKind {
    /// A native on values.
    OnValues(Native),
    And,
    Or,
    /// Another, which can't be.
    Other,
}

fn kind_of(head: Head) -> NativeKind
    ensures { result ≡ kind_of head }
{
    match head {
        Head::OnValues(native) => NativeKind::OnValues(native),
        Head::And => NativeKind::And,
        Head::Or => NativeKind::Or,
        _ => NativeKind::Other,
    }
}

/// `and`, or `or`, of values.
fn on_truths<'a>(all: bool, values: Vec<Val>) -> Result<End<'a>, NoMemory>
    ensures { (S : Around) → IsEnd S (λ take enter s. joined_form all values.items s) result }
{
    let charge = Charge::at(CostName::Control, values.len() as u64)?;
    match join_truths(all, &values) {
        Some(holds) => Ok(charged_end(charge, Last::Give(bool_value(holds)))),
        None => Ok(charged_end(charge, Last::Wrong)),
    }
}

/// A native that is given by name, on values.
pub fn on_name<'a>(row: &NativeRow, values: Vec<Val>) -> Result<End<'a>, NoMemory>
    ensures { (S : Around) →
        IsEnd S (λ take enter s. native_form row.now.head row.now.cost values.items s) result }
{
    match kind_of(row.head) {
        NativeKind::OnValues(native) => on_native(native, row.cost, values),
        NativeKind::And => on_truths(true, values),
        NativeKind::Or => on_truths(false, values),
        NativeKind::Other => Ok(uncharged_end(Last::Wrong)),
    }
}
