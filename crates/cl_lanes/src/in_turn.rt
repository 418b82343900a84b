//! Entries that are done in their turn.
ghost use Rattle.std.specs.Prelude.{◌≡◌, ◌<◌, ◌≤◌, ◌^◌, ◌-◌, IfOk, OnErr, OnOk, length};
ghost use Rattle.cl_lanes.specs.InTurn.{EndsAs, IsNext, IsOneLater, IsReached, RanAllOf, RanRest};
ghost use Rattle.cl_lanes.specs.Progress.{HasCounts};

use crate::all_moves::lanes;
use crate::laws::lanes_run_the_entries;
use crate::moves::Move;
use crate::next::call_at;
use crate::progress::Progress;
use cl_costs::Schedule;
use cl_tx::{TxFile, heights_are_those_of_the_file};
use cl_types::NoMemory;
use std::alloc::Global;

/// Does the next entry: a call is tried in the first lane and committed, any other is stepped.
fn do_next(progress: &mut Progress, file: &TxFile, costs: &Schedule) -> Result<(), NoMemory>
    requires counts { HasCounts progress.old }
    requires next { IsNext costs.now file.now progress.old }
    ensures { OnOk result (IsOneLater costs.now file.now progress.old progress.new) }
{
    lanes_run_the_entries();
    let place = progress.results().len();
    match call_at(file, place) {
        Some(_) => {
            progress.run(file, costs, 0, 0)?;
            progress.commit(0)?;
            Ok(())
        }
        None => {
            progress.barrier(file, costs)?;
            Ok(())
        }
    }
}

/// Does the entries that are left, each in its turn.
fn do_rest(progress: &mut Progress, file: &TxFile, costs: &Schedule) -> Result<(), NoMemory>
    requires counts { HasCounts progress.old }
    requires reached { IsReached costs.now file.now progress.old }
    ensures { OnOk result (RanRest costs.now file.now progress.old progress.new) }
{
    lanes_run_the_entries();
    heights_are_those_of_the_file();
    let entries = file.entries();
    for place in progress.results().len()..entries.len() {
        do_next(progress, file, costs)?;
    }
    Ok(())
}

/// Runs the entries of a file in 1 to 16 lanes: makes these moves, and then does the entries that
/// are left, each in its turn. The results are those of the plain run under the schedule, and both
/// numbers are those after the moves.
pub fn run_in_lanes(
    alloc: Global,
    file: &TxFile,
    costs: &Schedule,
    count: u32,
    moves: &[Move],
) -> Result<Progress, NoMemory>
    requires some { 1 ≤ count }
    requires at_most { count ≤ 16 }
    requires few { length moves.now < 2 ^ 32 - 1 }
    ensures moved { IfOk result (λ p. EndsAs costs.now file.now count moves.now p) }
    ensures entries { IfOk result (λ p. RanAllOf costs.now file.now p) }
{
    lanes_run_the_entries();
    let mut progress = lanes(alloc, file, costs, count, moves)?;
    do_rest(&mut progress, file, costs)?;
    Ok(progress)
}
