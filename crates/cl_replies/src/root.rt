//! The replies to `root` and `prove`: the root of the state after a transaction file, and the
//! proof of one of its rows. No result of an entry is kept.
ghost use Rattle.std.specs.Prelude.{◌≡◌, ◌<◌, ◌+◌, IfOk, length, slice_get, Some};
ghost use Rattle.std.specs.List.{All};
ghost use Rattle.cl_values.specs.Valid.{IsPrincipal};
ghost use Rattle.cl_tables.specs.StateRows.{IsRow};
ghost use Rattle.cl_entries.specs.Entries.{IsFirst};
ghost use Rattle.cl_replies.specs.Kept.{HasReached, IsNoRowReply, IsProofOf, IsRootOf, IsRowReply};
ghost use Rattle.cl_replies.specs.Reports.{IsRootReply, IsProveReply};

use crate::root_lines::{root_line, row_and_path, write_text};
use crate::rows::row_at;
use cl_costs::{CostTable, Schedule};
use cl_engine::{Node, nodes_are_known_in_one_way};
use cl_entries::{Reply, Status, bytes_reply, first_node, schedule_of};
use cl_root::{
    paths_lead_to_roots, prove, root, root_by_path, row_bytes, rows_have_keys_of_their_own,
};
use cl_state::World;
use cl_tables::StateRow;
use cl_tx::{TxFile, heights_are_those_of_the_file};
use cl_types::NoMemory;
use std::alloc::Global;

/// Steps a node through one more entry of a file.
fn step_at(
    alloc: Global,
    node: &mut Node,
    file: &TxFile,
    costs: &Schedule,
    place: usize,
) -> Result<(), NoMemory>
    requires here { place < length file.now.entries }
    requires before { HasReached costs.now file.now place node.old }
    ensures { IfOk result (λ _. HasReached costs.now file.now (place + 1) node.new) }
{
    nodes_are_known_in_one_way();
    heights_are_those_of_the_file();
    let entries = file.entries();
    let given = node.step(alloc, &entries[place], costs)?;
    drop(given);
    Ok(())
}

/// Steps a first node through the entries of a file.
fn step_all(alloc: Global, node: &mut Node, file: &TxFile, costs: &Schedule) -> Result<(), NoMemory>
    requires first { IsFirst file.now.genesis node.old }
    requires holders { All (λ h. IsPrincipal h.0) file.now.genesis }
    ensures { IfOk result
        (λ _. HasReached costs.now file.now (length file.now.entries) node.new) }
{
    let count = file.entries().len();
    for place in 0..count {
        step_at(alloc, node, file, costs, place)?;
    }
    Ok(())
}

/// The reply to `root` in a world.
fn root_in(alloc: Global, world: &World) -> Result<Reply, NoMemory>
    requires { length world.now.stack.below ≡ 0 }
    ensures { IfOk result (λ reply. IsRootOf world.now.stack.top reply) }
{
    let digest = root(alloc, world)?;
    let text = root_line(alloc, &digest)?;
    Ok(bytes_reply(text, Status::Done))
}

/// The reply to `root`, with a first node.
fn root_after(
    alloc: Global,
    node: &mut Node,
    costs: &CostTable,
    file: &TxFile,
) -> Result<Reply, NoMemory>
    requires first { IsFirst file.now.genesis node.old }
    requires holders { All (λ h. IsPrincipal h.0) file.now.genesis }
    ensures { IfOk result (λ reply. IsRootReply costs.now file.now reply) }
{
    let schedule = schedule_of(alloc, costs, file)?;
    step_all(alloc, node, file, &schedule)?;
    root_in(alloc, node.world())
}

/// The reply to `root`.
pub fn root_reply(alloc: Global, costs: &CostTable, file: &TxFile) -> Result<Reply, NoMemory>
    ensures { IfOk result (λ reply. IsRootReply costs.now file.now reply) }
{
    let mut node = first_node(alloc, file)?;
    let reply = root_after(alloc, &mut node, costs, file);
    drop(node);
    reply
}

/// The reply with the root of a world, and that it has no such row.
fn no_row_reply(alloc: Global, world: &World) -> Result<Reply, NoMemory>
    requires { length world.now.stack.below ≡ 0 }
    ensures { IfOk result (λ reply. IsNoRowReply world.now.stack.top reply) }
{
    let digest = root(alloc, world)?;
    let mut text = root_line(alloc, &digest)?;
    write_text(&mut text, "refused NoRow\n")?;
    Ok(bytes_reply(text, Status::BadWord))
}

/// The reply with the root of a world and the proof of a row, by one way through the tree.
fn row_reply(alloc: Global, world: &World, row: &StateRow) -> Result<Reply, NoMemory>
    requires base { length world.now.stack.below ≡ 0 }
    requires row { IsRow world.now.stack.top row.now }
    ensures { IfOk result (λ reply. IsRowReply world.now.stack.top row.now reply) }
{
    rows_have_keys_of_their_own();
    paths_lead_to_roots();
    let (key, value) = row_bytes(alloc, row)?;
    let Some(path) = prove(alloc, world, &key)? else {
        unreachable!();
    };
    let digest = root_by_path(&key, &value, &path);
    let text = row_and_path(alloc, &digest, &key, &value, &path)?;
    Ok(bytes_reply(text, Status::Done))
}

fn row_in(rows: &[StateRow], place: usize) -> &StateRow
    requires { place < length rows.now }
    ensures { slice_get rows.now place ≡ Some result.now }
{
    &rows[place]
}

/// The reply to `prove` in a world.
fn proof_in(alloc: Global, world: &World, number: u32) -> Result<Reply, NoMemory>
    requires { length world.now.stack.below ≡ 0 }
    ensures { IfOk result (λ reply. IsProofOf world.now.stack.top number reply) }
{
    let rows = world.rows()?;
    let Some(place) = row_at(alloc, &rows, number)? else {
        return no_row_reply(alloc, world);
    };
    row_reply(alloc, world, row_in(&rows, place))
}

/// The reply to `prove`, with a first node.
fn proof_after(
    alloc: Global,
    node: &mut Node,
    costs: &CostTable,
    file: &TxFile,
    number: u32,
) -> Result<Reply, NoMemory>
    requires first { IsFirst file.now.genesis node.old }
    requires holders { All (λ h. IsPrincipal h.0) file.now.genesis }
    ensures { IfOk result (λ reply. IsProveReply costs.now file.now number reply) }
{
    let schedule = schedule_of(alloc, costs, file)?;
    step_all(alloc, node, file, &schedule)?;
    proof_in(alloc, node.world(), number)
}

/// The reply to `prove`.
pub fn prove_reply(
    alloc: Global,
    costs: &CostTable,
    file: &TxFile,
    number: u32,
) -> Result<Reply, NoMemory>
    ensures { IfOk result (λ reply. IsProveReply costs.now file.now number reply) }
{
    let mut node = first_node(alloc, file)?;
    let reply = proof_after(alloc, &mut node, costs, file, number);
    drop(node);
    reply
}
