//! Tuples of parts, and their parts.
ghost use Rattle.std.specs.Prelude.{◌≡◌, ◌≢◌, ◌-◌, ◌∷◌, [], length, true, IfOk};
ghost use Rattle.cl_values.specs.Tree.{TupleV, entries_of};
ghost use Rattle.cl_values.specs.Valid.{IsVal, rises};
ghost use Rattle.cl_values.specs.Computed.{Gives};
ghost use Rattle.cl_values.specs.Applied.{Applied};
ghost use Rattle.cl_values.specs.Tuples.{merge, sorted_entries};
ghost use Rattle.cl_seq.specs.Merging.{are_apart, with_entry, with_parts};

use crate::joining::with_last;
use crate::making::made;
use cl_types::{Fault, Name};
use cl_values::{Kind, NoValue, Val, Value};
use std::alloc::{AllocError, Global};
use std::collections::BTreeMap;

/// The tuple of these parts, whose keys rise. Each part is moved.
fn tuple_of_rows(alloc: Global, rows: Vec<(Name, Val)>) -> Result<Val, Fault<NoValue>>
    requires { rises (entries_of rows.items) ≡ true }
    ensures { Applied (Gives (TupleV (entries_of rows.items))) result }
{
    let mut entries = Vec::new(alloc);
    let mut size = 5;
    let mut depth = 0;
    for (key, value) in rows {
        if size > Val::MOST_SIZE {
            return Err(Fault::Refused(NoValue::Undefined));
        }
        size += 1 + key.bytes().len() as u32 + value.size();
        depth = value.depth().max(depth);
        entries = with_last(entries, (key, value.into_value()))?;
    }
    let kind = Kind::Tuple(entries);
    made(Value { kind }, size, depth + 1)
}

/// A map with one more entry, where its key isn't there yet.
fn with_entry(
    mut sorted: BTreeMap<Name, Val>,
    key: Name,
    value: Val,
) -> Result<BTreeMap<Name, Val>, AllocError>
    ensures { IfOk result (λ m. m.entries ≡ with_entry sorted.entries key value) }
{
    if !sorted.contains_key(&key) {
        sorted.insert(key, value)?;
    }
    Ok(sorted)
}

/// A map with the last of the parts, which is taken off them.
fn with_last_part(
    sorted: BTreeMap<Name, Val>,
    parts: &mut Vec<(Name, Val)>,
) -> Result<BTreeMap<Name, Val>, AllocError>
    ensures whole { IfOk result (λ m. with_parts m.entries parts.new.items ≡ with_parts sorted.entries parts.old.items) }
    ensures left { length parts.new.items ≡ length parts.old.items - 1 }
{
    match parts.pop() {
        Some(part) => {
            let sorted = with_entry(sorted, part.0, part.1)?;
            Ok(sorted)
        }
        None => Ok(sorted),
    }
}

/// A map with those parts whose keys aren't there yet, from the last on.
fn with_parts(
    mut sorted: BTreeMap<Name, Val>,
    mut parts: Vec<(Name, Val)>,
) -> Result<BTreeMap<Name, Val>, AllocError>
    ensures { IfOk result (λ m. m.entries ≡ with_parts sorted.entries parts.items) }
{
    for _ in 0..parts.len() {
        sorted = with_last_part(sorted, &mut parts)?;
    }
    Ok(sorted)
}

/// The tuple of a map's entries.
fn tuple_of_map(alloc: Global, sorted: BTreeMap<Name, Val>) -> Result<Val, Fault<NoValue>>
    requires { sorted.entries ≢ [] }
    ensures { Applied (Gives (TupleV (entries_of sorted.entries))) result }
{
    let _count = sorted.len();
    let rows = sorted.into_iter().collect(alloc)?;
    tuple_of_rows(alloc, rows)
}

/// The tuple of these parts, given in any order. Each part is moved.
pub fn tuple_of(alloc: Global, parts: Vec<(Name, Val)>) -> Result<Val, Fault<NoValue>>
    requires some { parts.items ≢ [] }
    requires apart { are_apart parts.items ≡ true }
    ensures { Applied (Gives (TupleV (sorted_entries parts.items))) result }
{
    let sorted = with_parts(BTreeMap::new(alloc), parts)?;
    tuple_of_map(alloc, sorted)
}

/// The parts of a tuple.
fn parts_of(alloc: Global, entries: Vec<(Name, Value)>) -> Result<Vec<(Name, Val)>, AllocError>
    requires { IsVal (TupleV (entries_of entries.items)) }
    ensures { IfOk result (λ parts. parts.items ≡ entries.items) }
{
    let mut parts = Vec::new(alloc);
    for (key, value) in entries {
        parts = with_last(parts, (key, Val::counted(value)))?;
    }
    Ok(parts)
}

fn merge_parts(
    alloc: Global,
    first: Vec<(Name, Val)>,
    second: Vec<(Name, Val)>,
) -> Result<Val, Fault<NoValue>>
    requires first { rises (entries_of first.items) ≡ true }
    requires second { rises (entries_of second.items) ≡ true }
    ensures { Applied (merge (TupleV (entries_of first.items) ∷ TupleV (entries_of second.items) ∷ [])) result }
{
    let sorted = with_parts(BTreeMap::new(alloc), second)?;
    let sorted = with_parts(sorted, first)?;
    tuple_of_map(alloc, sorted)
}

fn merge_entries(
    alloc: Global,
    first: Vec<(Name, Value)>,
    second: Vec<(Name, Value)>,
) -> Result<Val, Fault<NoValue>>
    requires first { IsVal (TupleV (entries_of first.items)) }
    requires second { IsVal (TupleV (entries_of second.items)) }
    ensures { Applied (merge (TupleV (entries_of first.items) ∷ TupleV (entries_of second.items) ∷ [])) result }
{
    let first = parts_of(alloc, first)?;
    let second = parts_of(alloc, second)?;
    merge_parts(alloc, first, second)
}

fn merge_into(
    alloc: Global,
    entries: Vec<(Name, Value)>,
    second: Val,
) -> Result<Val, Fault<NoValue>>
    requires { IsVal (TupleV (entries_of entries.items)) }
    ensures { Applied (merge (TupleV (entries_of entries.items) ∷ second ∷ [])) result }
{
    match second.into_value().kind {
        Kind::Tuple(others) => merge_entries(alloc, entries, others),
        _ => Err(Fault::Refused(NoValue::Undefined)),
    }
}

/// The tuple with the keys of both, of which a key in both has the second's value.
pub fn try_merge(alloc: Global, first: Val, second: Val) -> Result<Val, Fault<NoValue>>
    ensures { Applied (merge (first ∷ second ∷ [])) result }
{
    match first.into_value().kind {
        Kind::Tuple(entries) => merge_into(alloc, entries, second),
        _ => Err(Fault::Refused(NoValue::Undefined)),
    }
}
