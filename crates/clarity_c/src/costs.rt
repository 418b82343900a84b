//! Tables of costs that nodes are opened under, behind handles.
ghost use Rattle.std.specs.Prelude.{◌≡◌, None};
ghost use Rattle.clarity_c.specs.Handles.{ReadingEnds};

use crate::costs_handle::{ClarityCosts, closed, from_box, into_box};
use cl_exports::{number_of, read_costs};
use std::alloc::Global;
use std::mem::replace;

/// Reads a table of costs: that of a cost file, or the unit table where there are no bytes. The handle
/// has no table before, and none after a number that isn't 0.
#[unsafe(no_mangle)]
pub extern "C" fn clarity_costs_read(alloc: Global, file: &[u8], costs: &mut ClarityCosts) -> u32
    ensures { ReadingEnds file.now result costs.new.kept }
{
    match read_costs(alloc, file) {
        Ok(table) => {
            *costs = from_box(table);
            0
        }
        Err(outcome) => {
            *costs = closed();
            number_of(outcome)
        }
    }
}

/// Lets the table go, where there is one. Nodes that were opened under it keep their costs.
#[unsafe(no_mangle)]
pub extern "C" fn clarity_costs_close(alloc: Global, costs: &mut ClarityCosts)
    ensures { costs.new.kept ≡ None }
{
    drop(into_box(alloc, replace(costs, closed())));
}
