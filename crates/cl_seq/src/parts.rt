//! The part of a tuple at a key.
ghost use Rattle.std.specs.Prelude.{◌≡◌, ◌<◌, ℕ, List, length, get_or, MatchOption, None, Some};
ghost use Rattle.cl_values.specs.Tree.{Tree, TupleV, SomeV, entries_of};
ghost use Rattle.cl_values.specs.Valid.{IsVal};
ghost use Rattle.cl_values.specs.Applied.{Applied};
ghost use Rattle.cl_values.specs.Tuples.{value_at, part_at};

use crate::making::{none, some};
use cl_types::{Fault, Name};
use cl_values::{Kind, NoValue, Val, Value};
use std::alloc::Global;

/// The place of a key among entries.
fn place_of_key(entries: &[(Name, Value)], key: &Name) -> Option<usize>
    ensures { MatchOption result (value_at key.now (entries_of entries.now) ≡ None) (λ at. (at < length entries.now) × ((e : List ℕ × Tree) → e ≡ get_or entries.now at e → value_at key.now (entries_of entries.now) ≡ Some e.1)) }
{
    for i in 0..entries.len() {
        if *key == entries[i].0 {
            return Some(i);
        }
    }
    None
}

/// The value at a key, taken out of the entries.
fn taken_at(mut entries: Vec<(Name, Value)>, key: &Name) -> Option<Val>
    requires { IsVal (TupleV (entries_of entries.items)) }
    ensures { result ≡ value_at key.now (entries_of entries.items) }
{
    match place_of_key(&entries, key) {
        Some(at) => {
            let entry = entries.swap_remove(at);
            Some(Val::counted(entry.1))
        }
        None => None,
    }
}

fn part_in(alloc: Global, value: Value, key: &Name) -> Result<Val, Fault<NoValue>>
    requires { IsVal value }
    ensures { Applied (part_at key.now (SomeV value)) result }
{
    match value.kind {
        Kind::Tuple(entries) => match taken_at(entries, key) {
            Some(part) => some(alloc, part),
            None => Err(Fault::Refused(NoValue::Undefined)),
        },
        _ => Err(Fault::Refused(NoValue::Undefined)),
    }
}

/// `get`: the part of a tuple at a key, which is moved out of it; of an optional tuple, that part as an optional.
pub fn try_get(alloc: Global, value: Val, key: &Name) -> Result<Val, Fault<NoValue>>
    ensures { Applied (part_at key.now value) result }
{
    match value.into_value().kind {
        Kind::Tuple(entries) => match taken_at(entries, key) {
            Some(part) => Ok(part),
            None => Err(Fault::Refused(NoValue::Undefined)),
        },
        Kind::Optional(Some(inner)) => part_in(alloc, Box::into_inner(inner), key),
        Kind::Optional(None) => Ok(none()),
        _ => Err(Fault::Refused(NoValue::Undefined)),
    }
}
