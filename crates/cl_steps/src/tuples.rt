//! Tuples of values, and sequences within a length.
ghost use Rattle.std.specs.Prelude.{◌≡◌, ◌<◌, true, length, zip, nat_le, if◌then◌else◌, IfOk};
ghost use Rattle.cl_events.specs.State.{State};
ghost use Rattle.cl_code.specs.Nodes.{are_once, bound_names};
ghost use Rattle.cl_frames.specs.Tails.{shortened, tuple_made};
ghost use Rattle.cl_values.specs.Tree.{SomeV, NoneV};
ghost use Rattle.cl_values.specs.Computed.{Gives};
ghost use Rattle.cl_meaning.specs.Answers.{outcome_of};
ghost use Rattle.cl_frames.specs.Runs.{Runs, Computes};

use crate::natives::computed;
use cl_code::Binding;
use cl_frames::{Context, Stop, pay_for, pay_for_all};
use cl_seq::{none, some, try_len, tuple_of};
use cl_shapes::{CostName, Meter};
use cl_types::{Name, NoMemory};
use cl_values::Val;
use std::alloc::Global;

/// A sequence of so many entries as an optional value, which is none where it is longer.
fn held(context: &Context, most: u128, length: usize, value: Val) -> Result<Val, Stop>
    ensures { Computes (outcome_of (Gives (if nat_le length most then SomeV value else NoneV))) result }
{
    if length as u128 <= most {
        computed(some(context.alloc, value))
    } else {
        Ok(none())
    }
}

/// A sequence within a length.
pub fn shorten(context: &Context, most: u128, value: Val, meter: &mut Meter) -> Result<Val, Stop>
    ensures { (s : State) → Runs context.now meter.old (shortened most value s) result meter.new s }
{
    pay_for(context.costs, meter, CostName::Make, &value)?;
    match try_len(&value) {
        Some(length) => held(context, most, length, value),
        None => Err(Stop::Stuck),
    }
}

/// The names in brackets.
pub fn names_of(alloc: Global, bindings: &[Binding]) -> Result<Vec<Name>, NoMemory>
    ensures { IfOk result (λ names. names.items ≡ bound_names bindings.now) }
{
    let mut names = Vec::with_capacity(alloc, bindings.len())?;
    for binding in bindings {
        names.push(binding.word.name)?;
    }
    Ok(names)
}

/// Values with their keys, up to the last of the fewer of the two.
fn with_keys(alloc: Global, keys: &[Name], values: Vec<Val>) -> Result<Vec<(Name, Val)>, NoMemory>
    ensures { IfOk result (λ parts. parts.items ≡ zip keys.now values.items) }
{
    let mut parts = Vec::with_capacity(alloc, keys.len())?;
    for value in values {
        let place = parts.len();
        if place >= keys.len() {
            return Ok(parts);
        }
        parts.push((keys[place], value))?;
    }
    Ok(parts)
}

/// The tuple of values under keys.
pub fn make_tuple(
    context: &Context,
    keys: &[Name],
    values: Vec<Val>,
    meter: &mut Meter,
) -> Result<Val, Stop>
    requires few { length values.items < 1048576 }
    requires some { 0 < length values.items }
    requires fit { length values.items ≡ length keys.now }
    requires apart { are_once keys.now ≡ true }
    ensures { (s : State) → Runs context.now meter.old (tuple_made keys.now values.items s) result meter.new s }
{
    pay_for_all(context.costs, meter, CostName::Make, &values)?;
    let parts = with_keys(context.alloc, keys, values)?;
    computed(tuple_of(context.alloc, parts))
}
