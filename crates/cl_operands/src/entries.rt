//! The entries of sequences side by side.
ghost use Rattle.std.specs.Prelude.{◌≡◌, ◌∷◌, [], length, IfOk, IfSome, option_map, slice_get};
ghost use Rattle.cl_values.specs.Sequences.{entries_of};
ghost use Rattle.cl_meaning.specs.Sequences.{all_entries};
ghost use Rattle.cl_operands.specs.Rows.{row_at, width_of, entry_in};

use cl_seq::{try_entry, try_len};
use cl_types::NoMemory;
use cl_values::Val;
use std::alloc::Global;

/// The entry of a sequence at a place, if there is one.
pub fn entry_at(alloc: Global, sequence: &Val, place: usize) -> Result<Option<Val>, NoMemory>
    ensures { IfOk result (λ entry. entry ≡ entry_in (option_map (λ xs. slice_get xs place)
        (entries_of sequence.now))) }
{
    match try_entry(alloc, sequence, place as u128)? {
        Some(entry) => Ok(entry),
        None => Ok(None),
    }
}

/// The entries at a place; None where a value is no sequence, or has no entry there.
pub fn row_at(alloc: Global, sequences: &[Val], place: usize) -> Result<Option<Vec<Val>>, NoMemory>
    ensures row { IfOk result (λ row. option_map (λ r. r.items) row ≡ row_at place sequences.now) }
    ensures count { IfOk result (λ row. IfSome row (λ r. length r.items ≡ length sequences.now)) }
{
    let mut row = Vec::with_capacity(alloc, sequences.len())?;
    for sequence in sequences {
        match entry_at(alloc, sequence, place)? {
            Some(entry) => row.push(entry)?,
            None => return Ok(None),
        }
    }
    Ok(Some(row))
}

/// The length of the first of sequences; None where there is none, or where a value is no sequence.
pub fn width(sequences: &[Val]) -> Option<usize>
    ensures { result ≡ width_of (all_entries sequences.now) }
{
    for sequence in sequences {
        try_len(sequence)?;
    }
    if sequences.is_empty() {
        return None;
    }
    try_len(&sequences[0])
}

/// A value alone.
pub fn alone(alloc: Global, value: Val) -> Result<Vec<Val>, NoMemory>
    ensures { IfOk result (λ values. values.items ≡ value ∷ []) }
{
    let mut values = Vec::with_capacity(alloc, 1)?;
    values.push_reserved(value);
    Ok(values)
}

/// Two values.
pub fn pair(alloc: Global, first: Val, second: Val) -> Result<Vec<Val>, NoMemory>
    ensures { IfOk result (λ values. values.items ≡ first ∷ second ∷ []) }
{
    let mut values = Vec::with_capacity(alloc, 2)?;
    values.push_reserved(first);
    values.push_reserved(second);
    Ok(values)
}
