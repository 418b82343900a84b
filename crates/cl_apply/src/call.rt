//! Natives with what isn't evaluated.
ghost use Rattle.std.specs.Prelude.{◌≢◌, if◌then◌else◌};
ghost use Rattle.cl_values.specs.Tree.{SomeV, NoneV};
ghost use Rattle.cl_values.specs.Computed.{Gives, Undefined, kept};
ghost use Rattle.cl_values.specs.Applied.{Applied};
ghost use Rattle.cl_values.specs.Sequences.{within_length};
ghost use Rattle.cl_values.specs.Tuples.{part_at};
ghost use Rattle.cl_values.specs.Natives.{One, at_row};
ghost use Rattle.cl_apply.specs.Calls.{call_value, Applies};

use crate::ApplyRefusal;
use crate::arguments::only;
use crate::rows::apply_native;
use cl_seq::{none, some, try_get, try_within};
use cl_types::{Fault, Name};
use cl_values::{Native, NoValue, Val};
use std::alloc::Global;

/// A native, with what stands in its arguments' place and isn't evaluated.
#[derive(Clone, Copy)]
pub enum NativeCall {
    /// A native on values alone.
    OnValues(Native),
    /// `get`, with the key.
    Get(Name),
    /// `as-max-len?`, with the greatest length.
    AsMaxLen(u32),
}

/// `get`
fn apply_get(alloc: Global, key: &Name, arguments: Vec<Val>) -> Result<Val, Fault<NoValue>>
    ensures { Applied (at_row (One (part_at key.now)) arguments.items) result }
{
    match only(arguments) {
        Some(value) => try_get(alloc, value, key),
        None => Err(Fault::Refused(NoValue::Undefined)),
    }
}

/// A sequence as an optional value, which is none where it doesn't fit.
fn held(alloc: Global, sequence: Val, fits: bool) -> Result<Val, Fault<NoValue>>
    ensures { Applied (Gives (if fits then SomeV sequence else NoneV)) result }
{
    if fits {
        some(alloc, sequence)
    } else {
        Ok(none())
    }
}

fn shortened(alloc: Global, most: u32, sequence: Val) -> Result<Val, Fault<NoValue>>
    ensures { Applied (within_length most sequence) result }
{
    match try_within(&sequence, most) {
        Some(fits) => held(alloc, sequence, fits),
        None => Err(Fault::Refused(NoValue::Undefined)),
    }
}

/// `as-max-len?`
fn apply_within(alloc: Global, most: u32, arguments: Vec<Val>) -> Result<Val, Fault<NoValue>>
    ensures { Applied (at_row (One (within_length most)) arguments.items) result }
{
    match only(arguments) {
        Some(value) => shortened(alloc, most, value),
        None => Err(Fault::Refused(NoValue::Undefined)),
    }
}

/// What a native is of these values, which are moved; or why it has none.
#[tactic(auto, unfolding(crate::specs::Calls::call_value, cl_values::specs::Natives::native_value))]
pub fn try_apply(
    alloc: Global,
    call: &NativeCall,
    arguments: Vec<Val>,
) -> Result<Val, Fault<NoValue>>
    ensures { Applied (call_value call.now arguments.items) result }
{
    match call {
        NativeCall::OnValues(native) => apply_native(alloc, *native, arguments),
        NativeCall::Get(key) => apply_get(alloc, key, arguments),
        NativeCall::AsMaxLen(most) => apply_within(alloc, *most, arguments),
    }
}

/// What a native is of these values, at which it is defined. They are moved.
pub fn apply(
    alloc: Global,
    call: &NativeCall,
    arguments: Vec<Val>,
) -> Result<Val, Fault<ApplyRefusal>>
    requires { kept (call_value call.now arguments.items) ≢ Undefined }
    ensures { Applies (call_value call.now arguments.items) result }
{
    match try_apply(alloc, call, arguments) {
        Ok(value) => Ok(value),
        Err(Fault::Refused(NoValue::Arith(refusal))) => {
            Err(Fault::Refused(ApplyRefusal::Arith(refusal)))
        }
        Err(Fault::Refused(NoValue::Panic)) => Err(Fault::Refused(ApplyRefusal::Panic)),
        Err(Fault::Refused(NoValue::Undefined)) => unreachable!(),
        Err(Fault::NoMemory) => Err(Fault::NoMemory),
    }
}
