//! Moves one after another.
ghost use Rattle.std.specs.Prelude.{◌≡◌, ◌<◌, ◌≤◌, ◌^◌, IfOk, OnErr, OnOk, length};
ghost use Rattle.cl_lanes.specs.Progress.{HasCounts, HasPrefix, MakesMove, MakesMoves, RanFirstOf, Rises};

use crate::laws::lanes_run_the_entries;
use crate::moves::Move;
use crate::progress::Progress;
use cl_costs::Schedule;
use cl_engine::nodes_are_known_in_one_way;
use cl_tx::{TxFile, heights_are_those_of_the_file};
use cl_types::NoMemory;
use std::alloc::Global;

/// One move.
fn make(
    progress: &mut Progress,
    file: &TxFile,
    costs: &Schedule,
    step: Move,
) -> Result<(), NoMemory>
    requires counts { HasCounts progress.old }
    requires rises { Rises file.now.entries progress.old }
    ensures moved { OnOk result
        (MakesMove costs.now file.now.entries progress.old step progress.new) }
    ensures refused { OnErr result (progress.new ≡ progress.old) }
{
    match step {
        Move::Run { lane, ahead } => {
            progress.run(file, costs, lane, ahead)?;
            Ok(())
        }
        Move::Commit { lane } => {
            progress.commit(lane)?;
            Ok(())
        }
        Move::Barrier => {
            progress.barrier(file, costs)?;
            Ok(())
        }
    }
}

/// The moves from the node of the genesis on, with 1 to 16 lanes. Whatever they are, the results
/// are the first results that a run of the file under the schedule has, and the node is the one
/// after these entries.
pub fn lanes(
    alloc: Global,
    file: &TxFile,
    costs: &Schedule,
    lanes: u32,
    moves: &[Move],
) -> Result<Progress, NoMemory>
    requires some { 1 ≤ lanes }
    requires at_most { lanes ≤ 16 }
    requires few { length moves.now < 2 ^ 32 }
    ensures moved { IfOk result (λ p. MakesMoves costs.now file.now lanes moves.now p) }
    ensures entries { IfOk result (λ p. RanFirstOf costs.now file.now p) }
    ensures prefix { IfOk result (λ p. HasPrefix costs.now file.now p) }
{
    nodes_are_known_in_one_way();
    heights_are_those_of_the_file();
    lanes_run_the_entries();
    // The heights of its blocks never fall, as its entries say.
    let _entries = file.entries();
    let holders = file.genesis(alloc)?;
    let mut progress = Progress::with_hash_key(alloc, file.hash_key(), holders, lanes)?;
    for step in moves {
        make(&mut progress, file, costs, *step)?;
    }
    Ok(progress)
}
