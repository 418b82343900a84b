//! How deep types stand in one another.
ghost use Rattle.std.specs.Prelude.{◌≡◌, ◌≤◌};
ghost use Rattle.cl_types.specs.Types.{fields, depth_of, depths_of};

use crate::{Name, Ty, TyKind};

/// The depth of a type.
#[cycle(depth)]
pub(crate) fn depth_of(ty: &Ty) -> u32
    requires { depth_of ty.now ≤ 128 }
    ensures { result ≡ depth_of ty.now }
{
    match &ty.kind {
        TyKind::NoType => 0,
        TyKind::List(_, part) | TyKind::Optional(part) => depth_of(part) + 1,
        TyKind::Tuple(row) => depths_of(row) + 1,
        TyKind::Response(good, bad) => depth_of(good).max(depth_of(bad)) + 1,
        _ => 1,
    }
}

#[cycle(depth)]
#[tactic(auto, using(crate::specs::TypeFalls::field_falls, crate::specs::TypeRows::fields_at))]
fn depths_of(row: &[(Name, Ty)]) -> u32
    requires { depths_of (fields row.now) ≤ 128 }
    ensures { result ≡ depths_of (fields row.now) }
{
    let mut greatest = 0;
    for field in row {
        greatest = depth_of(&field.1).max(greatest);
    }
    greatest
}
