//! The leaves of a state.
ghost use Rattle.std.specs.Prelude.{◌≡◌, IfOk};
ghost use Rattle.std.specs.List.Sorted.{IsPermutation, IsSorted};
ghost use Rattle.cl_root.specs.Kept.{MakeLeaves, in_order, leaves_in, leaves_of};

use crate::bytes::row_bytes;
use cl_state::World;
use cl_tables::StateRow;
use cl_types::NoMemory;
use std::alloc::Global;

/// The key bytes and the value bytes of a row.
pub(crate) type Leaf = (Vec<u8>, Vec<u8>);

/// The leaves of rows, in the order of the rows.
fn leaves_of(alloc: Global, rows: &[StateRow]) -> Result<Vec<Leaf>, NoMemory>
    ensures { IfOk result (λ leaves. leaves_in leaves.items ≡ leaves_of rows.now) }
{
    let mut leaves = Vec::with_capacity(alloc, rows.len())?;
    for row in rows {
        let leaf = row_bytes(alloc, row)?;
        leaves.push(leaf)?;
    }
    Ok(leaves)
}

fn sorted(mut leaves: Vec<Leaf>) -> Result<Vec<Leaf>, NoMemory>
    ensures same { IfOk result (λ sorted. IsPermutation leaves.items sorted.items) }
    ensures order { IfOk result (λ sorted. IsSorted in_order sorted.items) }
{
    leaves.sort()?;
    Ok(leaves)
}

/// The leaves of the top state of a world, in rising bytewise order of their keys.
pub(crate) fn state_leaves(alloc: Global, world: &World) -> Result<Vec<Leaf>, NoMemory>
    ensures { IfOk result (λ leaves. MakeLeaves (leaves_in leaves.items) world.now.stack.top) }
{
    let rows = world.rows()?;
    let unsorted = leaves_of(alloc, &rows)?;
    sorted(unsorted)
}
