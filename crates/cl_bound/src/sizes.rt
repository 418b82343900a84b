//! Numbers of charges, by the types of parts.
ghost use Rattle.std.specs.Prelude.{◌≡◌, ◌≤◌, ◌<◌, ◌*◌, ◌^◌, true, length, map};
ghost use Rattle.cl_types.specs.Types.{size_of};
ghost use Rattle.cl_types.specs.Sized.{everywhere, is_within, length_of};
ghost use Rattle.cl_types.specs.TypeKinds.{entry_of};
ghost use Rattle.cl_rules.specs.NativeTypes.{first_of};
ghost use Rattle.cl_rules.specs.Verdicts.{sizes_of, number_at};
ghost use Rattle.cl_rules.specs.CallShapes.{least_length};
ghost use Rattle.cl_code.specs.Typed.{type_of};
ghost use Rattle.cl_bound.specs.Own.{good_part, bad_part, least_with};

use cl_code::Code;
use cl_shapes::CostName;
use cl_types::{SizedTy, Ty, TyKind, measured, size};

/// The sum of the sizes of the parts' types.
pub(crate) fn sizes(parts: &[Code]) -> u64
    requires { length parts.now < 1048576 }
    ensures value { result ≡ sizes_of (map type_of parts.now) }
    ensures within { result ≤ 1048576 * length parts.now }
{
    let mut sum = 0;
    for part in parts {
        sum += u64::from(size(&part.ty));
    }
    sum
}

/// The number of a charge for values of the parts' types.
pub(crate) fn number(name: CostName, parts: &[Code]) -> u64
    requires { length parts.now < 1048576 }
    ensures value { result ≡ number_at name (map type_of parts.now) }
    ensures small { result < 2 ^ 40 }
{
    match name {
        CostName::Arith | CostName::Control => parts.len() as u64,
        _ => sizes(parts),
    }
}

fn part_size(ty: &Ty) -> u32
    requires { everywhere is_within ty.now ≡ true }
    ensures value { result ≡ size_of ty.now }
    ensures within { result ≤ 1048576 }
{
    match measured(ty) {
        Some(size) => size,
        None => 0,
    }
}

/// The size of an optional's part, or of the ok part of a response.
pub(crate) fn good_size(ty: &SizedTy) -> u32
    ensures value { result ≡ size_of (good_part ty.now) }
    ensures within { result ≤ 1048576 }
{
    match &ty.ty().kind {
        TyKind::Optional(part) => part_size(part),
        TyKind::Response(good, _) => part_size(good),
        _ => 0,
    }
}

/// The size of the err part of a response.
pub(crate) fn bad_size(ty: &SizedTy) -> u32
    ensures value { result ≡ size_of (bad_part ty.now) }
    ensures within { result ≤ 1048576 }
{
    match &ty.ty().kind {
        TyKind::Response(_, bad) => part_size(bad),
        _ => 0,
    }
}

/// The size of the type of a sequence's entries.
pub(crate) fn entry_size(ty: &SizedTy) -> u32
    ensures value { result ≡ size_of (entry_of ty.now) }
    ensures within { result ≤ 1048576 }
{
    match &ty.ty().kind {
        TyKind::List(_, entry) => part_size(entry),
        TyKind::Buff(_) | TyKind::Ascii(_) => 6,
        TyKind::Utf8(_) => 9,
        _ => 0,
    }
}

/// The greatest length of a sequence.
pub(crate) fn length_of(ty: &SizedTy) -> u32
    ensures { result ≡ length_of ty.now }
{
    match &ty.ty().kind {
        TyKind::Buff(most) | TyKind::Ascii(most) | TyKind::Utf8(most) | TyKind::List(most, _) =>
            *most,
        _ => 0,
    }
}

/// The sum of the sizes of the types of the parts' entries.
pub(crate) fn entry_sizes(parts: &[Code]) -> u64
    requires { length parts.now < 1048576 }
    ensures value { result ≡ sizes_of (map entry_of (map type_of parts.now)) }
    ensures within { result ≤ 1048576 * length parts.now }
{
    let mut sum = 0;
    for part in parts {
        sum += u64::from(entry_size(&part.ty));
    }
    sum
}

/// The least of the parts' greatest lengths.
pub(crate) fn least_length(parts: &[Code]) -> u32
    ensures { result ≡ least_length (map type_of parts.now) }
{
    if parts.is_empty() {
        return 0;
    }
    let first = &parts[0];
    least_with(length_of(&first.ty), &parts[1..])
}

/// The least of a length and of the parts' greatest lengths.
fn least_with(first: u32, parts: &[Code]) -> u32
    ensures { result ≡ least_with first (map type_of parts.now) }
{
    let mut least = first;
    for part in parts {
        least = least.min(length_of(&part.ty));
    }
    least
}

/// The greatest length of the first part, and the size of the type of its entries.
pub(crate) fn first_sequence(parts: &[Code]) -> (u32, u32)
    ensures length { result.0 ≡ length_of (first_of (map type_of parts.now)) }
    ensures entry { result.1 ≡ size_of (entry_of (first_of (map type_of parts.now))) }
    ensures within { result.1 ≤ 1048576 }
{
    if parts.is_empty() {
        return (0, 0);
    }
    let first = &parts[0];
    (length_of(&first.ty), entry_size(&first.ty))
}
