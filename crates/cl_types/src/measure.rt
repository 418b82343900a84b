//! The size of a type whose every part is within the limits.
ghost use Rattle.std.specs.Prelude.{◌≡◌, ◌≤◌, ◌+◌, ◌&&◌, true, nat_le, length, Some, None, IfSome, if◌then◌else◌};
ghost use Rattle.cl_types.specs.Name.{IsName};
ghost use Rattle.cl_types.specs.Types.{fields, size_of, sizes_of};
ghost use Rattle.cl_types.specs.Sized.{most_size, everywhere, everywhere_in, is_within, are_named, keys_are_names};

use crate::{Name, SizedTy, Ty, TyKind};

/// A size, where it is within the limit.
fn within(size: u64) -> Option<u32>
    ensures { result ≡ (if nat_le size most_size then Some size else None) }
{
    if size <= u64::from(SizedTy::MOST_SIZE) {
        Some(size as u32)
    } else {
        None
    }
}

/// The size of a buffer, string or list, where it and the length are within the limit.
fn stated(most: u32, size: u64) -> Option<u32>
    ensures { result ≡ (if nat_le size most_size && nat_le most most_size then Some size else None) }
{
    if most <= SizedTy::MOST_SIZE {
        within(size)
    } else {
        None
    }
}

fn name_size(name: &Name) -> u32
    ensures counted { result ≡ 1 + length name.now }
    ensures named { IsName name.now }
    ensures within { result ≤ 129 }
{
    1 + name.bytes().len() as u32
}

/// The size of a type, or none where it or a part of it is above the limit in size or length.
#[cycle(measure)]
pub fn measured(ty: &Ty) -> Option<u32>
    ensures counted { result ≡ (if everywhere is_within ty.now then Some (size_of ty.now) else None) }
    ensures within { IfSome result (λ n. n ≤ 1048576) }
    ensures named { IfSome result (λ _. everywhere keys_are_names ty.now ≡ true) }
{
    match &ty.kind {
        TyKind::NoType => Some(0),
        TyKind::Int | TyKind::Uint => Some(17),
        TyKind::Bool => Some(1),
        TyKind::Principal => Some(151),
        TyKind::Buff(most) | TyKind::Ascii(most) => stated(*most, 5 + u64::from(*most)),
        TyKind::Utf8(most) => stated(*most, 5 + 4 * u64::from(*most)),
        TyKind::List(most, entry) => {
            let entry = measured(entry)?;
            stated(*most, 5 + u64::from(*most) * u64::from(entry))
        }
        TyKind::Tuple(row) => row_measured(row),
        TyKind::Optional(part) => {
            let part = measured(part)?;
            within(1 + u64::from(part))
        }
        TyKind::Response(good, bad) => {
            let good = measured(good)?;
            let bad = measured(bad)?;
            within(1 + u64::from(good.max(bad)))
        }
    }
}

/// The size of a tuple of these keys and types, or none where it or a part of it is above the limit.
#[cycle(measure)]
#[tactic(auto, using(crate::specs::TypeFalls::field_falls, crate::specs::TypeRows::fields_at))]
fn row_measured(row: &[(Name, Ty)]) -> Option<u32>
    ensures counted { result ≡ (if nat_le (5 + sizes_of (fields row.now)) most_size && everywhere_in is_within (fields row.now) then Some (5 + sizes_of (fields row.now)) else None) }
    ensures within { IfSome result (λ n. n ≤ 1048576) }
    ensures named { IfSome result (λ _. (are_named (fields row.now) ≡ true) × (everywhere_in keys_are_names (fields row.now) ≡ true)) }
{
    let mut size = 5;
    for field in row {
        let part = measured(&field.1)?;
        size = within(u64::from(size) + u64::from(name_size(&field.0) + part))?;
    }
    Some(size)
}
