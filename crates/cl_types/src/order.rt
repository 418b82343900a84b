//! The keys of tuples in rising order.
ghost use Rattle.std.specs.Prelude.{◌≡◌, IfOk};
ghost use Rattle.cl_types.specs.Types.{fields};
ghost use Rattle.cl_types.specs.Sized.{sorted, sorted_parts, in_order};

use crate::{Name, Ty, TyKind};
use std::alloc::{AllocError, Global};

/// Puts the keys of each tuple in a type in rising order.
#[cycle(order)]
pub(crate) fn sort(alloc: Global, ty: &mut Ty) -> Result<(), AllocError>
    ensures { IfOk result (λ _. ty.new ≡ sorted ty.old) }
{
    match &mut ty.kind {
        TyKind::List(_, part) => sort(alloc, part),
        TyKind::Tuple(row) => sort_tuple(alloc, row),
        TyKind::Optional(part) => sort(alloc, part),
        TyKind::Response(good, bad) => {
            sort(alloc, good)?;
            sort(alloc, bad)
        }
        _ => Ok(()),
    }
}

#[cycle(order)]
fn sort_tuple(alloc: Global, row: &mut Vec<(Name, Ty)>) -> Result<(), AllocError>
    ensures { IfOk result (λ _. fields row.new.items ≡ in_order (sorted_parts (fields row.old.items))) }
{
    sort_parts(alloc, row)?;
    sort_row(alloc, row)
}

#[cycle(order)]
fn sort_parts(alloc: Global, row: &mut [(Name, Ty)]) -> Result<(), AllocError>
    ensures { IfOk result (λ _. fields row.new ≡ sorted_parts (fields row.old)) }
{
    for field in row.iter_mut() {
        sort(alloc, &mut field.1)?;
    }
    Ok(())
}

/// Puts fields in the rising order of their keys; equal ones stay in their order.
pub fn sort_row(alloc: Global, row: &mut [(Name, Ty)]) -> Result<(), AllocError>
    ensures { IfOk result (λ _. fields row.new ≡ in_order (fields row.old)) }
{
    row.sort_by(alloc, |a, b| a.0.cmp(&b.0))
}
