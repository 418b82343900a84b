//! The entries that `filter` keeps of a sequence.
ghost use Rattle.std.specs.Prelude.{◌≡◌, ◌≤◌, ◌∷◌, ◌++◌, [], true, false, IfOk, option_map, get_or, if◌then◌else◌};
ghost use Rattle.std.specs.List.{list_all};
ghost use Rattle.cl_values.specs.Tree.{BuffV, AsciiV, Utf8V, ListV, items_of, depth_of};
ghost use Rattle.cl_values.specs.Valid.{IsVal, has_rising_keys, has_good_texts, is_text_byte};
ghost use Rattle.cl_values.specs.Applied.{Applied};
ghost use Rattle.cl_values.specs.Computed.{Gives};
ghost use Rattle.cl_operands.specs.Sieved.{flags_of, chosen, sieved, sieved_by};

use crate::truths::truth_of;
use cl_types::{Fault, NoMemory};
use cl_values::{Kind, NoValue, Val, Value};
use std::alloc::Global;

/// The results as truth values; None where one is none.
fn flags(alloc: Global, results: &[Val]) -> Result<Option<Vec<bool>>, NoMemory>
    ensures { IfOk result (λ flags. option_map (λ bs. bs.items) flags ≡ flags_of results.now) }
{
    let mut flags = Vec::with_capacity(alloc, results.len())?;
    for value in results {
        match truth_of(value) {
            Some(holds) => flags.push(holds)?,
            None => return Ok(None),
        }
    }
    Ok(Some(flags))
}

/// Whether there is a flag at a place that is true.
fn flag_at(flags: &[bool], place: usize) -> bool
    ensures { result ≡ get_or flags.now place false }
{
    place < flags.len() && flags[place]
}

/// With one more item at the end, where it is to be kept.
fn with_chosen<T: Drop>(mut kept: Vec<T>, item: T, holds: bool) -> Result<Vec<T>, NoMemory>
    ensures { IfOk result (λ more. more.items ≡
        (if holds then kept.items ++ item ∷ [] else kept.items)) }
{
    if holds {
        kept.push(item)?;
    }
    Ok(kept)
}

/// The items at which the flag is true, moved.
fn flagged_items<T: Drop>(alloc: Global, items: Vec<T>, flags: &[bool]) -> Result<Vec<T>, NoMemory>
    ensures { IfOk result (λ kept. kept.items ≡ chosen items.items flags.now) }
{
    let mut kept = Vec::new(alloc);
    let mut place = 0;
    for item in items {
        kept = with_chosen(kept, item, flag_at(flags, place))?;
        place += 1;
    }
    Ok(kept)
}

/// A value that is to be within the limits.
fn within(value: Value) -> Result<Val, Fault<NoValue>>
    requires keys { has_rising_keys value ≡ true }
    requires texts { has_good_texts value ≡ true }
    requires flat { depth_of value ≤ 32 }
    ensures { Applied (Gives value) result }
{
    match Val::make(value) {
        Ok(value) => Ok(value),
        Err(_refusal) => Err(Fault::Refused(NoValue::Undefined)),
    }
}

fn sieved_buff(alloc: Global, bytes: Vec<u8>, flags: &[bool]) -> Result<Val, Fault<NoValue>>
    ensures { Applied (sieved (BuffV bytes.items) flags.now) result }
{
    let kept = flagged_items(alloc, bytes, flags)?;
    within(Value {
        kind: Kind::Buff(kept),
    })
}

fn sieved_text(alloc: Global, bytes: Vec<u8>, flags: &[bool]) -> Result<Val, Fault<NoValue>>
    requires { list_all is_text_byte bytes.items ≡ true }
    ensures { Applied (sieved (AsciiV bytes.items) flags.now) result }
{
    let kept = flagged_items(alloc, bytes, flags)?;
    within(Value {
        kind: Kind::Ascii(kept),
    })
}

fn sieved_string(alloc: Global, text: Vec<char>, flags: &[bool]) -> Result<Val, Fault<NoValue>>
    ensures { Applied (sieved (Utf8V text.items) flags.now) result }
{
    let kept = flagged_items(alloc, text, flags)?;
    within(Value {
        kind: Kind::Utf8(kept),
    })
}

fn sieved_list(alloc: Global, values: Vec<Value>, flags: &[bool]) -> Result<Val, Fault<NoValue>>
    requires { IsVal (ListV (items_of values.items)) }
    ensures { Applied (sieved (ListV (items_of values.items)) flags.now) result }
{
    let kept = flagged_items(alloc, values, flags)?;
    within(Value {
        kind: Kind::List(kept),
    })
}

/// The entries of a sequence at which the flag is true, as a sequence of the same kind.
fn sieve_by_flags(alloc: Global, sequence: Val, flags: &[bool]) -> Result<Val, Fault<NoValue>>
    ensures { Applied (sieved sequence flags.now) result }
{
    match sequence.into_value().kind {
        Kind::Buff(bytes) => sieved_buff(alloc, bytes, flags),
        Kind::Ascii(bytes) => sieved_text(alloc, bytes, flags),
        Kind::Utf8(characters) => sieved_string(alloc, characters, flags),
        Kind::List(values) => sieved_list(alloc, values, flags),
        _ => Err(Fault::Refused(NoValue::Undefined)),
    }
}

/// The entries of a sequence at which the result is true, as a sequence of the same kind. Undefined
/// where the value is no sequence or a result is no truth value.
pub fn sieve(alloc: Global, sequence: Val, results: &[Val]) -> Result<Val, Fault<NoValue>>
    ensures { Applied (sieved_by sequence results.now) result }
{
    match flags(alloc, results)? {
        Some(flags) => sieve_by_flags(alloc, sequence, &flags),
        None => Err(Fault::Refused(NoValue::Undefined)),
    }
}
