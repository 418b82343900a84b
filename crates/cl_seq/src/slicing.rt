//! Parts of sequences between two places. What is owned is moved.
ghost use Rattle.std.specs.Prelude.{◌≡◌, ◌&&◌, nat_le, option_map, IfOk};
ghost use Rattle.cl_values.specs.Tree.{BuffV, AsciiV, Utf8V, ListV, items_of};
ghost use Rattle.cl_values.specs.Valid.{IsVal};
ghost use Rattle.cl_values.specs.Sequences.{entries_of, like, singles, values_of};
ghost use Rattle.cl_values.specs.Contents.{between_places};

use cl_values::{Kind, Val, Value};
use std::alloc::AllocError;

fn are_places(left: u128, right: u128, count: usize) -> bool
    ensures { result ≡ (nat_le left right && nat_le right count) }
{
    left <= right && right <= count as u128
}

/// The entries from the left place up to, without, the right place.
fn between<T: Drop>(
    mut entries: Vec<T>,
    left: u128,
    right: u128,
) -> Result<Option<Vec<T>>, AllocError>
    ensures { IfOk result (λ o. option_map (λ v. v.items) o ≡
        between_places left right entries.items) }
{
    if !are_places(left, right, entries.len()) {
        return Ok(None);
    }
    let mut part = entries.split_off(left as usize)?;
    part.truncate((right - left) as usize);
    Ok(Some(part))
}

fn list_between(values: Vec<Value>, left: u128, right: u128) -> Result<Option<Val>, AllocError>
    requires { IsVal (ListV (items_of values.items)) }
    ensures { IfOk result (λ v. v ≡ option_map (like (ListV (items_of values.items)))
        (between_places left right (values_of (items_of values.items)))) }
{
    let found = between(values, left, right)?;
    match found {
        None => Ok(None),
        Some(part) => {
            let kind = Kind::List(part);
            Ok(Some(Val::counted(Value { kind })))
        }
    }
}

fn buff_between(bytes: Vec<u8>, left: u128, right: u128) -> Result<Option<Val>, AllocError>
    requires { IsVal (BuffV bytes.items) }
    ensures { IfOk result (λ v. v ≡ option_map (like (BuffV bytes.items))
        (between_places left right (singles BuffV bytes.items))) }
{
    let found = between(bytes, left, right)?;
    match found {
        None => Ok(None),
        Some(part) => {
            let kind = Kind::Buff(part);
            Ok(Some(Val::counted(Value { kind })))
        }
    }
}

fn text_between(bytes: Vec<u8>, left: u128, right: u128) -> Result<Option<Val>, AllocError>
    requires { IsVal (AsciiV bytes.items) }
    ensures { IfOk result (λ v. v ≡ option_map (like (AsciiV bytes.items))
        (between_places left right (singles AsciiV bytes.items))) }
{
    let found = between(bytes, left, right)?;
    match found {
        None => Ok(None),
        Some(part) => {
            let kind = Kind::Ascii(part);
            Ok(Some(Val::counted(Value { kind })))
        }
    }
}

fn characters_between(
    characters: Vec<char>,
    left: u128,
    right: u128,
) -> Result<Option<Val>, AllocError>
    requires { IsVal (Utf8V characters.items) }
    ensures { IfOk result (λ v. v ≡ option_map (like (Utf8V characters.items))
        (between_places left right (singles Utf8V characters.items))) }
{
    let found = between(characters, left, right)?;
    match found {
        None => Ok(None),
        Some(part) => {
            let kind = Kind::Utf8(part);
            Ok(Some(Val::counted(Value { kind })))
        }
    }
}

/// The entries from the left place up to, without, the right place, as a sequence of the same
/// kind, moved out of the sequence. `Some(None)` where the right place is above the length or below
/// the left place; `None` where the value is no sequence.
pub fn try_slice(sequence: Val, left: u128, right: u128) -> Result<Option<Option<Val>>, AllocError>
    ensures { IfOk result (λ v. v ≡ option_map (λ xs. option_map (like sequence)
        (between_places left right xs)) (entries_of sequence)) }
{
    match sequence.into_value().kind {
        Kind::List(values) => Ok(Some(list_between(values, left, right)?)),
        Kind::Buff(bytes) => Ok(Some(buff_between(bytes, left, right)?)),
        Kind::Ascii(bytes) => Ok(Some(text_between(bytes, left, right)?)),
        Kind::Utf8(characters) => Ok(Some(characters_between(characters, left, right)?)),
        _ => Ok(None),
    }
}
