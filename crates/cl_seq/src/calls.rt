//! The calls on sequences, for callers that know that a value is one.
ghost use Rattle.std.specs.Prelude.{◌≡◌, ◌≢◌, ◌∷◌, [], length, nat_le, option_map, slice_get, None, Some, IfOk};
ghost use Rattle.cl_values.specs.Computed.{Gives, Undefined, kept};
ghost use Rattle.cl_values.specs.Sequences.{entries_of, like, place_of, append, concat};
ghost use Rattle.cl_values.specs.Contents.{between_places, replace_at};
ghost use Rattle.cl_values.specs.Tree.{UintV};

use crate::finding::try_index_of;
use crate::joining::{try_append, try_concat};
use crate::places::try_element_at;
use crate::replacing::try_replace_at;
use crate::sequences::{try_len, try_within};
use crate::slicing::try_slice;
use cl_types::{Fault, NoMemory};
use cl_values::Val;
use std::alloc::Global;

/// The number of entries of a sequence.
pub fn len(sequence: &Val) -> usize
    requires { entries_of sequence.now ≢ None }
    ensures { Some result ≡ option_map length (entries_of sequence.now) }
{
    match try_len(sequence) {
        Some(length) => length,
        None => unreachable!(),
    }
}

/// Whether a sequence has at most so many entries.
pub fn within(sequence: &Val, most: u32) -> bool
    requires { entries_of sequence.now ≢ None }
    ensures { Some result ≡ option_map (λ xs. nat_le (length xs) most) (entries_of sequence.now) }
{
    match try_within(sequence, most) {
        Some(fits) => fits,
        None => unreachable!(),
    }
}

/// The first place at which an entry equals the item, if there is one.
pub fn index_of(sequence: &Val, item: &Val) -> Option<usize>
    requires { entries_of sequence.now ≢ None }
    ensures { Some result ≡ option_map (place_of item.now) (entries_of sequence.now) }
{
    match try_index_of(sequence, item) {
        Some(place) => place,
        None => unreachable!(),
    }
}

/// The entry at a place, if there is one. That of a list is moved out of it.
pub fn element_at(alloc: Global, sequence: Val, at: u128) -> Result<Option<Val>, NoMemory>
    requires { entries_of sequence ≢ None }
    ensures { IfOk result (λ v. Some v ≡ option_map (λ xs. slice_get xs at) (entries_of sequence)) }
{
    match try_element_at(alloc, sequence, at)? {
        Some(entry) => Ok(entry),
        None => unreachable!(),
    }
}

/// The entries from the left place up to, without, the right place, as a sequence of the same
/// kind, moved out of the sequence; `None` where the right place is above the length or below the
/// left place.
pub fn slice(sequence: Val, left: u128, right: u128) -> Result<Option<Val>, NoMemory>
    requires { entries_of sequence ≢ None }
    ensures { IfOk result (λ v. Some v ≡
        option_map (λ xs. option_map (like sequence) (between_places left right xs))
        (entries_of sequence)) }
{
    match try_slice(sequence, left, right)? {
        Some(part) => Ok(part),
        None => unreachable!(),
    }
}

/// A list with one more entry at its end.
pub fn append(list: Val, item: Val) -> Result<Val, NoMemory>
    requires { kept (append (list ∷ item ∷ [])) ≢ Undefined }
    ensures { IfOk result (λ v. append (list ∷ item ∷ []) ≡ Gives v) }
{
    match try_append(list, item) {
        Ok(value) => Ok(value),
        Err(Fault::NoMemory) => Err(NoMemory),
        Err(Fault::Refused(_)) => unreachable!(),
    }
}

/// Two sequences of one kind, one behind the other.
pub fn concat(first: Val, second: Val) -> Result<Val, NoMemory>
    requires { kept (concat (first ∷ second ∷ [])) ≢ Undefined }
    ensures { IfOk result (λ v. concat (first ∷ second ∷ []) ≡ Gives v) }
{
    match try_concat(first, second) {
        Ok(value) => Ok(value),
        Err(Fault::NoMemory) => Err(NoMemory),
        Err(Fault::Refused(_)) => unreachable!(),
    }
}

/// A sequence with the item in place of the entry at a place, as an optional value: `none` where no
/// entry is there, or where the item of a buffer or string isn't one entry long.
pub fn replace_at(alloc: Global, sequence: Val, at: u128, item: Val) -> Result<Val, NoMemory>
    requires { kept (replace_at (sequence ∷ UintV at ∷ item ∷ [])) ≢ Undefined }
    ensures { IfOk result (λ v. replace_at (sequence ∷ UintV at ∷ item ∷ []) ≡ Gives v) }
{
    match try_replace_at(alloc, sequence, at, item) {
        Ok(value) => Ok(value),
        Err(Fault::NoMemory) => Err(NoMemory),
        Err(Fault::Refused(_)) => unreachable!(),
    }
}
