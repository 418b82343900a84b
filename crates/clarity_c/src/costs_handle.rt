//! What C holds of a table of costs: a pointer.
ghost use Rattle.std.specs.Prelude.{◌≡◌, List, Option, Some, None, option_map};
ghost use Rattle.std.specs.Coded.{coded_option};
ghost use Rattle.cl_costs.specs.contracts.table.CostTable.{the_row};
ghost use Rattle.cl_shapes.specs.declared.function.CostFn.{CostFn};

use cl_costs::CostTable;
use cl_handle::RawBox;
use std::alloc::Global;
use std::marker::Model;

/// A table of costs, as C keeps it: where it is open, the pointer of a box. Contracts see what it
/// keeps.
#[repr(C)]
#[derive(Drop)]
pub struct ClarityCosts {
    at: *mut u8,
    is_open: bool,
    pub ghost kept: { Option (List CostFn) } by { coded_option (the_row).coded },
}

impl Model for ClarityCosts {
    ghost use Rattle.clarity_c.specs.Owned.{owned_table};
    ghost use Rattle.std.specs.Prelude.{List, Option};
    ghost use Rattle.cl_shapes.specs.declared.function.CostFn.{CostFn};

    ghost also_owns = { λ c. owned_table c.is_open c.at c.kept };
}

/// No table.
pub(crate) fn closed() -> ClarityCosts
    ensures { result.kept ≡ None }
{
    ClarityCosts {
        at: std::ptr::null_mut(),
        is_open: false,
    }
}

/// The table behind a pointer.
fn from_raw(raw: RawBox<CostTable, Global>) -> ClarityCosts
    ensures { result.kept ≡ Some raw.value }
{
    let RawBox { at, alloc: _ } = raw;
    ClarityCosts {
        at: at as *mut u8,
        is_open: true,
    }
}

/// The pointer, where there is one.
fn into_raw(alloc: Global, costs: ClarityCosts) -> Option<RawBox<CostTable, Global>>
    ensures { option_map (λ raw. raw.value) result ≡ costs.kept }
{
    let ClarityCosts { at, is_open } = costs;
    if !is_open {
        return None;
    }
    Some(RawBox {
        at: at as *mut CostTable,
        alloc,
    })
}

/// Hands a table out.
pub(crate) fn from_box(table: Box<CostTable>) -> ClarityCosts
    ensures { result.kept ≡ Some table.value }
{
    from_raw(RawBox::from_box(table))
}

/// Takes a table back, where there is one.
pub(crate) fn into_box(alloc: Global, costs: ClarityCosts) -> Option<Box<CostTable>>
    ensures { option_map (λ b. b.value) result ≡ costs.kept }
{
    match into_raw(alloc, costs) {
        Some(raw) => Some(raw.into_box()),
        None => None,
    }
}
