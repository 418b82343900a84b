//! Kinds of types.
ghost use Rattle.std.specs.Prelude.{◌≡◌, map, ◌||◌};
ghost use Rattle.std.specs.List.{list_all};
ghost use Rattle.cl_rules.specs.NativeTypes.{have_order};
ghost use Rattle.cl_types.specs.TypeKinds.{is_int, is_uint, is_bool, is_principal, is_optional, is_response, is_undetermined, is_sequence, is_hashed, are_numbers};

use cl_types::{SizedTy, TyKind};

/// Whether it is an int.
pub fn is_int(t: &SizedTy) -> bool
    ensures { result ≡ is_int t.now }
{
    matches!(t.ty().kind, TyKind::Int)
}

/// Whether it is a uint.
pub fn is_uint(t: &SizedTy) -> bool
    ensures { result ≡ is_uint t.now }
{
    matches!(t.ty().kind, TyKind::Uint)
}

/// Whether it is a bool.
pub fn is_bool(t: &SizedTy) -> bool
    ensures { result ≡ is_bool t.now }
{
    matches!(t.ty().kind, TyKind::Bool)
}

/// Whether it is a principal.
pub fn is_principal(t: &SizedTy) -> bool
    ensures { result ≡ is_principal t.now }
{
    matches!(t.ty().kind, TyKind::Principal)
}

/// Whether it is an optional.
pub fn is_optional(t: &SizedTy) -> bool
    ensures { result ≡ is_optional t.now }
{
    matches!(t.ty().kind, TyKind::Optional(_))
}

/// Whether it is a response.
pub fn is_response(t: &SizedTy) -> bool
    ensures { result ≡ is_response t.now }
{
    matches!(t.ty().kind, TyKind::Response(_, _))
}

/// Whether it is the type of what isn't determined.
pub fn is_undetermined(t: &SizedTy) -> bool
    ensures { result ≡ is_undetermined t.now }
{
    matches!(t.ty().kind, TyKind::NoType)
}

/// Whether it is a list, a buffer or a string.
pub fn is_sequence(t: &SizedTy) -> bool
    ensures { result ≡ is_sequence t.now }
{
    match t.ty().kind {
        TyKind::List(_, _) | TyKind::Buff(_) | TyKind::Ascii(_) | TyKind::Utf8(_) => true,
        _ => false,
    }
}

/// Whether it is a buffer or a number.
pub fn is_hashed(t: &SizedTy) -> bool
    ensures { result ≡ is_hashed t.now }
{
    match t.ty().kind {
        TyKind::Buff(_) | TyKind::Int | TyKind::Uint => true,
        _ => false,
    }
}

fn are_ints(types: &[&SizedTy]) -> bool
    ensures { result ≡ list_all is_int (map (λ t. t.now) types.now) }
{
    for t in types {
        if !is_int(t) {
            return false;
        }
    }
    true
}

fn are_uints(types: &[&SizedTy]) -> bool
    ensures { result ≡ list_all is_uint (map (λ t. t.now) types.now) }
{
    for t in types {
        if !is_uint(t) {
            return false;
        }
    }
    true
}

/// Whether they are numbers of one kind.
pub fn are_numbers(types: &[&SizedTy]) -> bool
    ensures { result ≡ are_numbers (map (λ t. t.now) types.now) }
{
    are_ints(types) || are_uints(types)
}

/// Whether they are all bools.
pub fn are_bools(types: &[&SizedTy]) -> bool
    ensures { result ≡ list_all is_bool (map (λ t. t.now) types.now) }
{
    for t in types {
        if !is_bool(t) {
            return false;
        }
    }
    true
}

/// Whether both are numbers, buffers or strings of one kind.
pub fn have_order(t: &SizedTy, u: &SizedTy) -> bool
    ensures { result ≡ have_order t.now u.now }
{
    match (&t.ty().kind, &u.ty().kind) {
        (TyKind::Int, TyKind::Int)
        | (TyKind::Uint, TyKind::Uint)
        | (TyKind::Buff(_), TyKind::Buff(_))
        | (TyKind::Ascii(_), TyKind::Ascii(_))
        | (TyKind::Utf8(_), TyKind::Utf8(_)) => true,
        _ => false,
    }
}
