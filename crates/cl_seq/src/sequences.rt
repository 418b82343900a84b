//! The calls on lists, buffers and strings.
ghost use Rattle.std.specs.Prelude.{◌≡◌, nat_le, length, option_map};
ghost use Rattle.cl_values.specs.Sequences.{entries_of};

use cl_values::{Kind, Val};

/// The number of entries of a sequence; None where the value is none.
#[tactic(auto, using(crate::proofs::Entries::values_counted, cl_values::proofs::Entries::singles_many))]
pub fn try_len(sequence: &Val) -> Option<usize>
    ensures { result ≡ option_map length (entries_of sequence.now) }
{
    match &sequence.value().kind {
        Kind::List(values) => Some(values.len()),
        Kind::Buff(bytes) | Kind::Ascii(bytes) => Some(bytes.len()),
        Kind::Utf8(characters) => Some(characters.len()),
        _ => None,
    }
}

/// Whether a sequence has at most so many entries; None where the value is none.
pub fn try_within(sequence: &Val, most: u32) -> Option<bool>
    ensures { result ≡ option_map (λ xs. nat_le (length xs) most) (entries_of sequence.now) }
{
    match try_len(sequence) {
        Some(length) => Some(length <= most as usize),
        None => None,
    }
}
