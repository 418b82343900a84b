//! Whether `slice?` and `replace-at?` are defined at values: whether the sequence that they would
//! make is within the limits as an optional. It isn't made.
ghost use Rattle.std.specs.Prelude.{◌≡◌, ◌<◌, ◌≤◌, ◌∷◌, ◌++◌, [], length, nat_le, option_map, slice_set};
ghost use Rattle.cl_values.specs.Tree.{BuffV, AsciiV, Utf8V, ListV, SomeV, items_of, items_depth};
ghost use Rattle.cl_values.specs.Wire.{size_of, items_size};
ghost use Rattle.cl_values.specs.Valid.{IsVal};
ghost use Rattle.cl_values.specs.Computed.{is_within, is_defined, kept};
ghost use Rattle.cl_values.specs.Contents.{between_places, slice, replace_at};
ghost use Rattle.cl_apply.specs.Definedness.{is_slice_defined, is_replacement_defined};

use crate::depths::are_within_depth;
use cl_values::{Kind, Val, Value, characters_size, size_up_to};

/// The greatest depth of a list's entries where the list is in an optional.
const MOST_ENTRY_DEPTH: u32 = Val::MOST_DEPTH - 2;

/// The greatest length, in bytes, of a buffer or string that is in an optional.
const MOST_BYTES: usize = Val::MOST_SIZE as usize - 6;

/// The size of values one behind the other.
fn entries_size(values: &[Value]) -> u32
    requires { items_size (items_of values.now) ≤ 1048576 }
    ensures { result ≡ items_size (items_of values.now) }
{
    let mut size = 0;
    for value in values {
        size += size_up_to(value);
    }
    size
}

/// Whether a list of these values is within the limits as an optional.
fn wraps_list(values: &[Value]) -> bool
    requires { IsVal (ListV (items_of values.now)) }
    ensures { result ≡ is_within (SomeV (ListV (items_of values.now))) }
{
    are_within_depth(values, MOST_ENTRY_DEPTH) && entries_size(values) + 6 <= Val::MOST_SIZE
}

/// The entries from the left place up to, without, the right place.
fn between<T>(entries: &[T], left: u128, right: u128) -> Option<&[T]>
    ensures { option_map (λ part. part.now) result ≡ between_places left right entries.now }
{
    if left <= right && right <= entries.len() as u128 {
        Some(&entries[left as usize..right as usize])
    } else {
        None
    }
}

fn has_list_part(values: &[Value], left: u128, right: u128) -> bool
    requires { IsVal (ListV (items_of values.now)) }
    ensures { result ≡ is_slice_defined (ListV (items_of values.now)) left right }
{
    match between(values, left, right) {
        Some(part) => wraps_list(part),
        None => true,
    }
}

fn has_bytes_part(bytes: &[u8], left: u128, right: u128) -> bool
    ensures buff { result ≡ is_slice_defined (BuffV bytes.now) left right }
    ensures ascii { result ≡ is_slice_defined (AsciiV bytes.now) left right }
{
    match between(bytes, left, right) {
        Some(part) => part.len() <= MOST_BYTES,
        None => true,
    }
}

fn has_characters_part(characters: &[char], left: u128, right: u128) -> bool
    ensures { result ≡ is_slice_defined (Utf8V characters.now) left right }
{
    match between(characters, left, right) {
        Some(part) => characters_size(part) < Val::MOST_SIZE,
        None => true,
    }
}

fn has_part(sequence: &Val, left: u128, right: u128) -> bool
    ensures { result ≡ is_slice_defined sequence.now left right }
{
    match &sequence.value().kind {
        Kind::List(values) => has_list_part(values, left, right),
        Kind::Buff(bytes) => has_bytes_part(bytes, left, right),
        Kind::Ascii(bytes) => has_bytes_part(bytes, left, right),
        Kind::Utf8(characters) => has_characters_part(characters, left, right),
        _ => false,
    }
}

/// `slice?`
pub(crate) fn slices(sequence: &Val, left: &Val, right: &Val) -> bool
    ensures { result ≡ is_defined (kept (slice (sequence.now ∷ left.now ∷ right.now ∷ []))) }
{
    match (&left.value().kind, &right.value().kind) {
        (Kind::Uint(left), Kind::Uint(right)) => has_part(sequence, *left, *right),
        _ => false,
    }
}

/// Whether these values, with an item between them, are no deeper than entries of a list in an
/// optional may be.
#[tactic(auto, using(crate::proofs::SequenceLaws::around_depth))]
fn are_shallow(before: &[Value], item: &Val, after: &[Value]) -> bool
    ensures { result ≡ nat_le (items_depth (items_of (before.now ++ item.now ∷ after.now))) 30 }
{
    if item.depth() > MOST_ENTRY_DEPTH {
        return false;
    }
    are_within_depth(before, MOST_ENTRY_DEPTH) && are_within_depth(after, MOST_ENTRY_DEPTH)
}

/// Whether a list of these values, with an item between them, is within the limits as an optional.
fn wraps_around(before: &[Value], item: &Val, after: &[Value]) -> bool
    requires before { items_size (items_of before.now) ≤ 1048576 }
    requires after { items_size (items_of after.now) ≤ 1048576 }
    ensures { result ≡ is_within (SomeV (ListV (items_of (before.now ++ item.now ∷ after.now)))) }
{
    if are_shallow(before, item, after) {
        let front = entries_size(before);
        let back = entries_size(after);
        front + item.size() + back + 6 <= Val::MOST_SIZE
    } else {
        false
    }
}

fn replaces_value(values: &[Value], at: u128, item: &Val) -> bool
    requires { IsVal (ListV (items_of values.now)) }
    ensures { result ≡ is_replacement_defined (ListV (items_of values.now)) at item.now }
{
    if at >= values.len() as u128 {
        return true;
    }
    let at = at as usize;
    let before = &values[..at];
    let after = &values[at + 1..];
    wraps_around(before, item, after)
}

fn replaces_byte(bytes: &[u8], at: u128, row: &[u8]) -> bool
    ensures buff { result ≡ is_replacement_defined (BuffV bytes.now) at (BuffV row.now) }
    ensures ascii { result ≡ is_replacement_defined (AsciiV bytes.now) at (AsciiV row.now) }
{
    at >= bytes.len() as u128 || row.len() != 1 || bytes.len() <= MOST_BYTES
}

/// Whether a string with another character at a place is within the limits as an optional.
fn wraps_character(characters: &[char], at: usize, character: char) -> bool
    requires long { size_of (Utf8V characters.now) ≤ 1048576 }
    requires place { at < length characters.now }
    ensures { result ≡ is_within (SomeV (Utf8V (slice_set characters.now at character))) }
{
    let size = characters_size(characters) + character.len_utf8() as u32;
    size < Val::MOST_SIZE + characters[at].len_utf8() as u32
}

fn replaces_character(characters: &[char], at: u128, row: &[char]) -> bool
    requires { size_of (Utf8V characters.now) ≤ 1048576 }
    ensures { result ≡ is_replacement_defined (Utf8V characters.now) at (Utf8V row.now) }
{
    if at >= characters.len() as u128 {
        return true;
    }
    match row {
        [character] => wraps_character(characters, at as usize, *character),
        _ => true,
    }
}

fn replaces_at(sequence: &Val, at: u128, item: &Val) -> bool
    ensures { result ≡ is_replacement_defined sequence.now at item.now }
{
    match (&sequence.value().kind, &item.value().kind) {
        (Kind::List(values), _) => replaces_value(values, at, item),
        (Kind::Buff(bytes), Kind::Buff(row)) => replaces_byte(bytes, at, row),
        (Kind::Ascii(bytes), Kind::Ascii(row)) => replaces_byte(bytes, at, row),
        (Kind::Utf8(characters), Kind::Utf8(row)) => replaces_character(characters, at, row),
        _ => false,
    }
}

/// `replace-at?`
pub(crate) fn replaces(sequence: &Val, at: &Val, item: &Val) -> bool
    ensures { result ≡ is_defined (kept (replace_at (sequence.now ∷ at.now ∷ item.now ∷ []))) }
{
    match at.value().kind {
        Kind::Uint(at) => replaces_at(sequence, at, item),
        _ => false,
    }
}
