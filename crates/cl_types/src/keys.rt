//! The keys of tuples: whether there are any, and whether they rise.
ghost use Rattle.std.specs.Prelude.{◌≡◌};
ghost use Rattle.cl_types.specs.Types.{TupleType, fields};
ghost use Rattle.cl_types.specs.Sized.{everywhere, everywhere_in, has_key, is_below, rises, keys_rise};

use crate::{Name, Ty, TyKind};

fn has_key(row: &[(Name, Ty)]) -> bool
    ensures { result ≡ has_key (TupleType (fields row.now)) }
{
    row.split_first().is_some()
}

/// Whether each tuple in a type has a key.
#[cycle(has_keys)]
pub(crate) fn has_keys(ty: &Ty) -> bool
    ensures { result ≡ everywhere has_key ty.now }
{
    match &ty.kind {
        TyKind::List(_, part) | TyKind::Optional(part) => has_keys(part),
        TyKind::Tuple(row) => has_key(row) && parts_have_keys(row),
        TyKind::Response(good, bad) => has_keys(good) && has_keys(bad),
        _ => true,
    }
}

#[cycle(has_keys)]
#[tactic(auto, using(crate::specs::TypeFalls::field_falls, crate::specs::TypeRows::fields_at))]
fn parts_have_keys(row: &[(Name, Ty)]) -> bool
    ensures { result ≡ everywhere_in has_key (fields row.now) }
{
    for field in row {
        if !has_keys(&field.1) {
            return false;
        }
    }
    true
}

fn is_below(key: &Name, next: &Name) -> bool
    ensures { result ≡ is_below key.now next.now }
{
    key.cmp(next).is_lt()
}

#[tactic(auto, using(crate::specs::TypeRows::fields_at))]
fn do_rise(row: &[(Name, Ty)]) -> bool
    ensures { result ≡ rises (fields row.now) }
{
    let Some((first, rest)) = row.split_first() else {
        return false;
    };
    let mut last = &first.0;
    for field in rest {
        if !is_below(last, &field.0) {
            return false;
        }
        last = &field.0;
    }
    true
}

/// Whether each tuple in a type has a key, and keys that rise.
#[cycle(rising_keys)]
pub(crate) fn has_rising_keys(ty: &Ty) -> bool
    ensures { result ≡ everywhere keys_rise ty.now }
{
    match &ty.kind {
        TyKind::List(_, part) | TyKind::Optional(part) => has_rising_keys(part),
        TyKind::Tuple(row) => do_rise(row) && parts_have_rising_keys(row),
        TyKind::Response(good, bad) => has_rising_keys(good) && has_rising_keys(bad),
        _ => true,
    }
}

#[cycle(rising_keys)]
#[tactic(auto, using(crate::specs::TypeFalls::field_falls, crate::specs::TypeRows::fields_at))]
fn parts_have_rising_keys(row: &[(Name, Ty)]) -> bool
    ensures { result ≡ everywhere_in keys_rise (fields row.now) }
{
    for field in row {
        if !has_rising_keys(&field.1) {
            return false;
        }
    }
    true
}
