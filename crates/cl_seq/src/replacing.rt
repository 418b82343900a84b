//! Sequences with one entry replaced. What is owned is moved.
ghost use Rattle.std.specs.Prelude.{◌≡◌, ◌≤◌, ◌∷◌, [], option_map};
ghost use Rattle.cl_values.specs.Tree.{BuffV, AsciiV, Utf8V, ListV, SomeV, UintV, items_of, depth_of};
ghost use Rattle.cl_values.specs.Valid.{IsVal};
ghost use Rattle.cl_values.specs.Computed.{Gives};
ghost use Rattle.cl_values.specs.Applied.{Answered, Applied};
ghost use Rattle.cl_values.specs.Contents.{replace_at, with_entry, with_single};
ghost use Rattle.cl_seq.specs.Fine.{IsFine};

use crate::making::{none, some};
use cl_types::Fault;
use cl_values::{Kind, NoValue, Val, Value};
use std::alloc::Global;

/// The entries with another one at a place, if there is one there.
fn with_entry<T: Drop>(mut entries: Vec<T>, at: u128, entry: T) -> Option<Vec<T>>
    ensures { option_map (λ v. v.items) result ≡ with_entry at entry entries.items }
{
    if at >= entries.len() as u128 {
        return None;
    }
    entries[at as usize] = entry;
    Some(entries)
}

/// The bytes with another one at a place; none where what comes there isn't one byte.
fn with_byte(bytes: Vec<u8>, at: u128, row: &[u8]) -> Option<Vec<u8>>
    ensures { option_map (λ v. v.items) result ≡ with_single at row.now bytes.items }
{
    match row {
        [byte] => with_entry(bytes, at, *byte),
        _ => None,
    }
}

/// The characters with another one at a place; none where what comes there isn't one character.
fn with_character(characters: Vec<char>, at: u128, row: &[char]) -> Option<Vec<char>>
    ensures { option_map (λ v. v.items) result ≡ with_single at row.now characters.items }
{
    match row {
        [character] => with_entry(characters, at, *character),
        _ => None,
    }
}

/// The value of a tree, where it is within the limits.
fn whole(value: Value) -> Result<Val, NoValue>
    requires fine { IsFine value }
    requires shallow { depth_of value ≤ 128 }
    ensures { Answered (Gives value) result }
{
    match Val::make(value) {
        Ok(value) => Ok(value),
        Err(_) => Err(NoValue::Undefined),
    }
}

/// An optional with the value of a tree.
fn some_whole(alloc: Global, value: Value) -> Result<Val, Fault<NoValue>>
    requires fine { IsFine value }
    requires shallow { depth_of value ≤ 128 }
    ensures { Applied (Gives (SomeV value)) result }
{
    match whole(value) {
        Ok(inner) => some(alloc, inner),
        Err(_) => Err(Fault::Refused(NoValue::Undefined)),
    }
}

fn replace_in_list(
    alloc: Global,
    values: Vec<Value>,
    at: u128,
    item: Val,
) -> Result<Val, Fault<NoValue>>
    requires { IsVal (ListV (items_of values.items)) }
    ensures { Applied (replace_at (ListV (items_of values.items) ∷ UintV at ∷ item ∷ [])) result }
{
    match with_entry(values, at, item.into_value()) {
        None => Ok(none()),
        Some(values) => {
            let kind = Kind::List(values);
            some_whole(alloc, Value { kind })
        }
    }
}

fn replace_in_buff(
    alloc: Global,
    bytes: Vec<u8>,
    at: u128,
    item: &Val,
) -> Result<Val, Fault<NoValue>>
    requires { IsVal (BuffV bytes.items) }
    ensures { Applied (replace_at (BuffV bytes.items ∷ UintV at ∷ item.now ∷ [])) result }
{
    let Kind::Buff(row) = &item.value().kind else {
        return Err(Fault::Refused(NoValue::Undefined));
    };
    match with_byte(bytes, at, row) {
        None => Ok(none()),
        Some(bytes) => {
            let kind = Kind::Buff(bytes);
            some_whole(alloc, Value { kind })
        }
    }
}

fn replace_in_text(
    alloc: Global,
    bytes: Vec<u8>,
    at: u128,
    item: &Val,
) -> Result<Val, Fault<NoValue>>
    requires { IsVal (AsciiV bytes.items) }
    ensures { Applied (replace_at (AsciiV bytes.items ∷ UintV at ∷ item.now ∷ [])) result }
{
    let Kind::Ascii(row) = &item.value().kind else {
        return Err(Fault::Refused(NoValue::Undefined));
    };
    match with_byte(bytes, at, row) {
        None => Ok(none()),
        Some(bytes) => {
            let kind = Kind::Ascii(bytes);
            some_whole(alloc, Value { kind })
        }
    }
}

fn replace_in_characters(
    alloc: Global,
    characters: Vec<char>,
    at: u128,
    item: &Val,
) -> Result<Val, Fault<NoValue>>
    requires { IsVal (Utf8V characters.items) }
    ensures { Applied (replace_at (Utf8V characters.items ∷ UintV at ∷ item.now ∷ [])) result }
{
    let Kind::Utf8(row) = &item.value().kind else {
        return Err(Fault::Refused(NoValue::Undefined));
    };
    match with_character(characters, at, row) {
        None => Ok(none()),
        Some(characters) => {
            let kind = Kind::Utf8(characters);
            some_whole(alloc, Value { kind })
        }
    }
}

/// A sequence with the item in place of the entry at a place, as an optional value: `none` where no
/// entry is there, or where the item of a buffer or string isn't one entry long.
pub fn try_replace_at(
    alloc: Global,
    sequence: Val,
    at: u128,
    item: Val,
) -> Result<Val, Fault<NoValue>>
    ensures { Applied (replace_at (sequence ∷ UintV at ∷ item ∷ [])) result }
{
    match sequence.into_value().kind {
        Kind::List(values) => replace_in_list(alloc, values, at, item),
        Kind::Buff(bytes) => replace_in_buff(alloc, bytes, at, &item),
        Kind::Ascii(bytes) => replace_in_text(alloc, bytes, at, &item),
        Kind::Utf8(characters) => replace_in_characters(alloc, characters, at, &item),
        _ => Err(Fault::Refused(NoValue::Undefined)),
    }
}
