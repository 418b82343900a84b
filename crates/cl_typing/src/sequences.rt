//! Rows of sequences: lists, buffers and strings.
ghost use Rattle.std.specs.Prelude.{◌≡◌, ◌≤◌, map, nat_le, true, false, IfOk, IfSome, IfNone};
ghost use Rattle.cl_types.specs.Types.{BuffType, AsciiType, Utf8Type, ListType, depth_of};
ghost use Rattle.cl_types.specs.TypeKinds.{entry_of, resized};
ghost use Rattle.cl_types.specs.Sized.{everywhere, keys_rise, length_of, most_size};
ghost use Rattle.cl_rules.specs.NativeTypes.{made, one, append_row, concat_row, element_row, index_row, max_len_row, slice_row, replace_row, consensus_row};
ghost use Rattle.cl_typing.specs.Verdicts.{Rules};

use crate::joining::joined_list;
use crate::kinds::{is_sequence, is_uint};
use crate::making::{into_box, made, of, optional, optional_uint, where_kind};
use crate::native_types::only;
use crate::rows::{inner, nothing};
use cl_sexpr::Rule;
use cl_types::{Fault, NoMemory, SizedTy, Ty, TyKind, admits, size};
use std::alloc::{AllocError, Global};

/// The greatest length of a sequence, where it is within the limit.
fn limited(most: u128) -> Option<u32>
    ensures some { IfSome result (λ n. n ≡ most) }
    ensures none { IfNone result (nat_le most most_size ≡ false) }
{
    if most <= u128::from(SizedTy::MOST_SIZE) {
        Some(most as u32)
    } else {
        None
    }
}

/// A list of at most so many entries.
pub fn list_of(alloc: Global, most: u128, entry: SizedTy) -> Result<SizedTy, Fault<Rule>>
    ensures { Rules (made (ListType most entry)) result }
{
    let Some(most) = limited(most) else {
        return Err(Fault::Refused(Rule::TooLarge));
    };
    let entry = into_box(alloc, entry)?;
    made(
        alloc,
        Ty {
            kind: TyKind::List(most, entry),
        },
    )
}

/// A buffer of at most so many bytes.
pub fn buffer_of(alloc: Global, most: u128) -> Result<SizedTy, Fault<Rule>>
    ensures { Rules (made (BuffType most)) result }
{
    let Some(most) = limited(most) else {
        return Err(Fault::Refused(Rule::TooLarge));
    };
    made(
        alloc,
        Ty {
            kind: TyKind::Buff(most),
        },
    )
}

/// A string of at most so many ASCII characters.
pub fn ascii_of(alloc: Global, most: u128) -> Result<SizedTy, Fault<Rule>>
    ensures { Rules (made (AsciiType most)) result }
{
    let Some(most) = limited(most) else {
        return Err(Fault::Refused(Rule::TooLarge));
    };
    made(
        alloc,
        Ty {
            kind: TyKind::Ascii(most),
        },
    )
}

/// A string of at most so many Unicode characters.
pub fn utf8_of(alloc: Global, most: u128) -> Result<SizedTy, Fault<Rule>>
    ensures { Rules (made (Utf8Type most)) result }
{
    let Some(most) = limited(most) else {
        return Err(Fault::Refused(Rule::TooLarge));
    };
    made(
        alloc,
        Ty {
            kind: TyKind::Utf8(most),
        },
    )
}

/// The type of a sequence's entries, and of another type's none.
pub fn entry(alloc: Global, s: &SizedTy) -> Result<SizedTy, NoMemory>
    ensures { IfOk result (λ t. t ≡ entry_of s.now) }
{
    match &s.ty().kind {
        TyKind::List(_, entry) => inner(alloc, entry),
        TyKind::Buff(_) => of(alloc, TyKind::Buff(1)),
        TyKind::Ascii(_) => of(alloc, TyKind::Ascii(1)),
        TyKind::Utf8(_) => of(alloc, TyKind::Utf8(1)),
        _ => of(alloc, TyKind::NoType),
    }
}

/// The greatest length that a sequence states, and 0 for another type.
pub fn greatest_length(s: &SizedTy) -> u32
    ensures { result ≡ length_of s.now }
{
    match &s.ty().kind {
        TyKind::List(most, _) | TyKind::Buff(most) | TyKind::Ascii(most) | TyKind::Utf8(most) => {
            *most
        }
        _ => 0,
    }
}

/// A list with one entry more.
pub(crate) fn append(alloc: Global, t: &SizedTy, u: &SizedTy) -> Result<SizedTy, Fault<Rule>>
    ensures { Rules (append_row t.now u.now) result }
{
    match &t.ty().kind {
        TyKind::List(most, _) => {
            let entry = entry(alloc, t)?;
            joined_list(alloc, u128::from(*most) + 1, &entry, u)
        }
        _ => Err(Fault::Refused(Rule::ArgumentKind)),
    }
}

/// Two sequences of one kind, one after the other.
pub(crate) fn concat(alloc: Global, t: &SizedTy, u: &SizedTy) -> Result<SizedTy, Fault<Rule>>
    ensures { Rules (concat_row t.now u.now) result }
{
    let most = u128::from(greatest_length(t)) + u128::from(greatest_length(u));
    match (&t.ty().kind, &u.ty().kind) {
        (TyKind::List(_, _), TyKind::List(_, _)) => {
            let first = entry(alloc, t)?;
            let second = entry(alloc, u)?;
            joined_list(alloc, most, &first, &second)
        }
        (TyKind::Buff(_), TyKind::Buff(_)) => buffer_of(alloc, most),
        (TyKind::Ascii(_), TyKind::Ascii(_)) => ascii_of(alloc, most),
        (TyKind::Utf8(_), TyKind::Utf8(_)) => utf8_of(alloc, most),
        _ => Err(Fault::Refused(Rule::ArgumentKind)),
    }
}

/// An optional entry of a sequence, at a uint.
pub(crate) fn element(alloc: Global, s: &SizedTy, i: &SizedTy) -> Result<SizedTy, Fault<Rule>>
    ensures { Rules (element_row s.now i.now) result }
{
    if !(is_sequence(s) && is_uint(i)) {
        return Err(Fault::Refused(Rule::ArgumentKind));
    }
    let entry = entry(alloc, s)?;
    optional(alloc, entry)
}

/// The optional place of an item that the entry type admits.
pub(crate) fn index(alloc: Global, s: &SizedTy, item: &SizedTy) -> Result<SizedTy, Fault<Rule>>
    ensures { Rules (index_row s.now item.now) result }
{
    let entry = entry(alloc, s)?;
    let answer = optional_uint(alloc)?;
    where_kind(is_sequence(s) && admits(&entry, item), answer)
}

/// An optional part of a sequence, between two uints.
pub(crate) fn part_between(
    alloc: Global,
    s: &SizedTy,
    i: &SizedTy,
    j: &SizedTy,
) -> Result<SizedTy, Fault<Rule>>
    ensures { Rules (slice_row s.now i.now j.now) result }
{
    if !(is_sequence(s) && is_uint(i) && is_uint(j)) {
        return Err(Fault::Refused(Rule::ArgumentKind));
    }
    let part = s.copy(alloc)?;
    optional(alloc, part)
}

/// An optional sequence with an item at a uint, which the entry type admits.
pub(crate) fn replaced(
    alloc: Global,
    s: &SizedTy,
    i: &SizedTy,
    item: &SizedTy,
) -> Result<SizedTy, Fault<Rule>>
    ensures { Rules (replace_row s.now i.now item.now) result }
{
    let entry = entry(alloc, s)?;
    if !(is_sequence(s) && is_uint(i) && admits(&entry, item)) {
        return Err(Fault::Refused(Rule::ArgumentKind));
    }
    let whole = s.copy(alloc)?;
    optional(alloc, whole)
}

/// An optional buffer that is as long as a type's greatest wire form.
pub(crate) fn consensus(alloc: Global, t: &SizedTy) -> Result<SizedTy, Fault<Rule>>
    ensures { Rules (consensus_row t.now) result }
{
    let bytes = Box::new(
        alloc,
        Ty {
            kind: TyKind::Buff(size(t)),
        },
    )?;
    made(
        alloc,
        Ty {
            kind: TyKind::Optional(bytes),
        },
    )
}

/// The sequence's type with another greatest length.
fn resized(alloc: Global, most: u32, s: &SizedTy) -> Result<Box<Ty>, AllocError>
    ensures value { IfOk result (λ b. b.value ≡ resized most s.now) }
    ensures keys { IfOk result (λ b. everywhere keys_rise b.value ≡ true) }
    ensures depth { IfOk result (λ b. depth_of b.value ≤ 32) }
{
    let kind = match &s.ty().kind {
        TyKind::List(_, entry) => {
            let entry = Box::new(alloc, entry.copy(alloc)?)?;
            TyKind::List(most, entry)
        }
        TyKind::Buff(_) => TyKind::Buff(most),
        TyKind::Ascii(_) => TyKind::Ascii(most),
        TyKind::Utf8(_) => TyKind::Utf8(most),
        _ => TyKind::NoType,
    };
    Ok(Box::new(alloc, Ty { kind })?)
}

/// An optional of the sequence's type with this greatest length.
pub fn max_len(alloc: Global, most: u128, s: &SizedTy) -> Result<SizedTy, Fault<Rule>>
    ensures { Rules (max_len_row most s.now) result }
{
    if !is_sequence(s) {
        return Err(Fault::Refused(Rule::ArgumentKind));
    }
    let Some(most) = limited(most) else {
        return Err(Fault::Refused(Rule::TooLarge));
    };
    let part = resized(alloc, most, s)?;
    made(
        alloc,
        Ty {
            kind: TyKind::Optional(part),
        },
    )
}

/// An optional of the one argument's type with this greatest length.
#[tactic(auto, using(crate::proofs::NativeRows::one_at, crate::proofs::NativeRows::one_else))]
pub fn max_len_type(alloc: Global, most: u128, types: &[&SizedTy]) -> Result<SizedTy, Fault<Rule>>
    ensures { Rules (one (max_len_row most) (map (λ t. t.now) types.now)) result }
{
    match only(types) {
        Some(t) => max_len(alloc, most, t),
        None => nothing(alloc),
    }
}
