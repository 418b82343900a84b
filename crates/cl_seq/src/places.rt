//! The entries of a sequence by their places.
ghost use Rattle.std.specs.Prelude.{◌≡◌, ◌∷◌, [], slice_get, option_map, true, IfOk};
ghost use Rattle.std.specs.List.{list_all};
ghost use Rattle.cl_values.specs.Tree.{BuffV, AsciiV, Utf8V, ListV, items_of};
ghost use Rattle.cl_values.specs.Valid.{IsVal, is_text_byte};
ghost use Rattle.cl_values.specs.Sequences.{entries_of, singles, values_of};

use cl_values::{Kind, Val, Value};
use std::alloc::{AllocError, Global};

/// The value at a place, taken out of the list.
fn taken(mut values: Vec<Value>, at: u128) -> Option<Val>
    requires { IsVal (ListV (items_of values.items)) }
    ensures { result ≡ slice_get values.items at }
{
    if at >= values.len() as u128 {
        return None;
    }
    Some(Val::counted(values.swap_remove(at as usize)))
}

/// What stands at a place.
fn entry<T: Copy>(entries: &[T], at: u128) -> Option<T>
    ensures { result ≡ slice_get entries.now at }
{
    if at < entries.len() as u128 {
        Some(entries[at as usize])
    } else {
        None
    }
}

fn single_buff(alloc: Global, byte: u8) -> Result<Val, AllocError>
    ensures { IfOk result (λ v. v ≡ BuffV (byte ∷ [])) }
{
    let kind = Kind::Buff(Vec::from_slice(alloc, &[byte])?);
    Ok(Val::measured(Value { kind }, 6, 1))
}

fn single_text(alloc: Global, byte: u8) -> Result<Val, AllocError>
    requires { is_text_byte byte ≡ true }
    ensures { IfOk result (λ v. v ≡ AsciiV (byte ∷ [])) }
{
    let kind = Kind::Ascii(Vec::from_slice(alloc, &[byte])?);
    Ok(Val::measured(Value { kind }, 6, 1))
}

fn single_character(alloc: Global, character: char) -> Result<Val, AllocError>
    ensures { IfOk result (λ v. v ≡ Utf8V (character ∷ [])) }
{
    let size = 5 + character.len_utf8() as u32;
    let kind = Kind::Utf8(Vec::from_slice(alloc, &[character])?);
    Ok(Val::measured(Value { kind }, size, 1))
}

fn buff_at(alloc: Global, bytes: &[u8], at: u128) -> Result<Option<Val>, AllocError>
    ensures { IfOk result (λ v. v ≡ slice_get (singles BuffV bytes.now) at) }
{
    match entry(bytes, at) {
        None => Ok(None),
        Some(byte) => Ok(Some(single_buff(alloc, byte)?)),
    }
}

fn text_at(alloc: Global, bytes: &[u8], at: u128) -> Result<Option<Val>, AllocError>
    requires { list_all is_text_byte bytes.now ≡ true }
    ensures { IfOk result (λ v. v ≡ slice_get (singles AsciiV bytes.now) at) }
{
    match entry(bytes, at) {
        None => Ok(None),
        Some(byte) => Ok(Some(single_text(alloc, byte)?)),
    }
}

fn character_at(alloc: Global, characters: &[char], at: u128) -> Result<Option<Val>, AllocError>
    ensures { IfOk result (λ v. v ≡ slice_get (singles Utf8V characters.now) at) }
{
    match entry(characters, at) {
        None => Ok(None),
        Some(character) => Ok(Some(single_character(alloc, character)?)),
    }
}

/// A copy of the value at a place.
fn copy_at(alloc: Global, values: &[Value], at: u128) -> Result<Option<Val>, AllocError>
    requires { IsVal (ListV (items_of values.now)) }
    ensures { IfOk result (λ v. v ≡ slice_get (values_of (items_of values.now)) at) }
{
    if at >= values.len() as u128 {
        return Ok(None);
    }
    let value = values[at as usize].copy(alloc)?;
    Ok(Some(Val::counted(value)))
}

/// The value at a place, taken out of the list.
fn taken_at(values: Vec<Value>, at: u128) -> Option<Val>
    requires { IsVal (ListV (items_of values.items)) }
    ensures { result ≡ slice_get (values_of (items_of values.items)) at }
{
    taken(values, at)
}

/// The entry at a place, if there is one; None where the value is no sequence. The entry is copied.
pub fn try_entry(alloc: Global, sequence: &Val, at: u128) -> Result<Option<Option<Val>>, AllocError>
    ensures { IfOk result (λ v. v ≡ option_map (λ xs. slice_get xs at) (entries_of sequence.now)) }
{
    match &sequence.value().kind {
        Kind::List(values) => Ok(Some(copy_at(alloc, values, at)?)),
        Kind::Buff(bytes) => Ok(Some(buff_at(alloc, bytes, at)?)),
        Kind::Ascii(bytes) => Ok(Some(text_at(alloc, bytes, at)?)),
        Kind::Utf8(characters) => Ok(Some(character_at(alloc, characters, at)?)),
        _ => Ok(None),
    }
}

/// The entry at a place, if there is one; None where the value is no sequence. The entry of a list is moved out of it.
pub fn try_element_at(
    alloc: Global,
    sequence: Val,
    at: u128,
) -> Result<Option<Option<Val>>, AllocError>
    ensures { IfOk result (λ v. v ≡ option_map (λ xs. slice_get xs at) (entries_of sequence)) }
{
    match sequence.into_value().kind {
        Kind::List(values) => Ok(Some(taken_at(values, at))),
        Kind::Buff(bytes) => Ok(Some(buff_at(alloc, &bytes, at)?)),
        Kind::Ascii(bytes) => Ok(Some(text_at(alloc, &bytes, at)?)),
        Kind::Utf8(characters) => Ok(Some(character_at(alloc, &characters, at)?)),
        _ => Ok(None),
    }
}
