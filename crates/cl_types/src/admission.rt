//! Which type admits which.
ghost use Rattle.std.specs.Prelude.{◌≡◌, ◌&&◌, ◌==◌, length, nat_eq};
ghost use Rattle.std.specs.Cmp.Lexicographic.{pointwise};
ghost use Rattle.cl_types.specs.Types.{fields, admits, admits_fields};

use crate::{Name, SizedTy, Ty, TyKind};

/// Whether the first type admits the second, so that each value of the second is one of the first
/// (SIP-002). Lists, buffers and strings need a greatest length that is at least as large, tuples the
/// same keys, and parts admit part by part. Every type admits `NoType`. This takes no memory.
pub fn admits(a: &SizedTy, b: &SizedTy) -> bool
    ensures { result ≡ admits a.now b.now }
{
    tree_admits(a.ty(), b.ty())
}

/// Whether two rows have equally many keys.
pub(crate) fn have_same_count(a: &[(Name, Ty)], b: &[(Name, Ty)]) -> bool
    ensures { result ≡ (length a.now == length b.now) }
{
    a.len() == b.len()
}

/// Whether two keys are the same name.
pub(crate) fn is_same_key(a: &Name, b: &Name) -> bool
    ensures { result ≡ pointwise nat_eq a.now b.now }
{
    a == b
}

#[cycle(admits)]
fn tree_admits(a: &Ty, b: &Ty) -> bool
    ensures { result ≡ admits a.now b.now }
{
    match (&a.kind, &b.kind) {
        (_, TyKind::NoType) => true,
        (TyKind::Int, TyKind::Int) => true,
        (TyKind::Uint, TyKind::Uint) => true,
        (TyKind::Bool, TyKind::Bool) => true,
        (TyKind::Principal, TyKind::Principal) => true,
        (TyKind::Buff(most), TyKind::Buff(length)) => *length <= *most,
        (TyKind::Ascii(most), TyKind::Ascii(length)) => *length <= *most,
        (TyKind::Utf8(most), TyKind::Utf8(length)) => *length <= *most,
        (TyKind::List(most, entry), TyKind::List(length, part)) => {
            *length <= *most && tree_admits(entry, part)
        }
        (TyKind::Tuple(row), TyKind::Tuple(parts)) => row_admits(row, parts),
        (TyKind::Optional(inner), TyKind::Optional(part)) => tree_admits(inner, part),
        (TyKind::Response(good, bad), TyKind::Response(good_part, bad_part)) => {
            tree_admits(good, good_part) && tree_admits(bad, bad_part)
        }
        _ => false,
    }
}

/// Whether each key is the other row's at the same place, with a type that admits the other's.
#[cycle(admits)]
fn row_admits(a: &[(Name, Ty)], b: &[(Name, Ty)]) -> bool
    ensures { result ≡ admits_fields (fields a.now) (fields b.now) }
{
    if !have_same_count(a, b) {
        return false;
    }
    for i in 0..a.len() {
        if !field_admits(&a[i], &b[i]) {
            return false;
        }
    }
    true
}

#[cycle(admits)]
fn field_admits(a: &(Name, Ty), b: &(Name, Ty)) -> bool
    ensures { result ≡ (pointwise nat_eq a.now.0 b.now.0 && admits a.now.1 b.now.1) }
{
    is_same_key(&a.0, &b.0) && tree_admits(&a.1, &b.1)
}
