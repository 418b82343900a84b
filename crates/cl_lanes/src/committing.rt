//! A trial that is committed.
ghost use Rattle.std.specs.Prelude.{◌≡◌, ◌++◌, ◌∷◌, [], None, OnErr, OnOk, Some, slice_set};
ghost use Rattle.cl_lanes.specs.declared.held.Held.{Held as AHeld};
ghost use Rattle.cl_lanes.specs.Committing.{HoldsSome, MayGraft, grafted_seen};
ghost use Rattle.cl_lanes.specs.Ready.{HoldsAt};

use crate::held::Held;
use crate::spare::append;
use cl_engine::Node;
use cl_file::Row;
use cl_spots::Spot;
use cl_tx::TxResult;
use cl_types::NoMemory;
use std::mem::replace;

/// Grafts the spots that the trial in a lane wrote.
fn graft(node: &mut Node, held: &[Option<Held>], lane: usize) -> Result<(), NoMemory>
    requires { MayGraft node.old held.now lane }
    ensures done { OnOk result ((h : AHeld) → HoldsAt held.now lane h →
        node.new ≡ grafted_seen h node.old) }
    ensures refused { OnErr result (node.new ≡ node.old) }
{
    let Some(run) = &held[lane] else {
        unreachable!();
    };
    node.graft(&run.trial.world, run.footprint.written.as_slice())
}

/// Takes the trial out of a lane: its result, and the spots that were written.
fn take(held: &mut Vec<Option<Held>>, lane: usize) -> (TxResult, Row<Spot>)
    requires { HoldsSome held.old.items lane }
    ensures taken { (h : AHeld) → HoldsAt held.old.items lane h →
        (result.0 ≡ h.trial.result) × (result.1 ≡ h.footprint.written) }
    ensures held { held.new.items ≡ slice_set held.old.items lane None }
{
    match replace(&mut held[lane], None) {
        Some(run) => run.done(),
        None => unreachable!(),
    }
}

/// Commits the trial in a lane.
pub(crate) fn commit_trial(
    node: &mut Node,
    results: &mut Vec<TxResult>,
    wrote: &mut Vec<Option<Row<Spot>>>,
    held: &mut Vec<Option<Held>>,
    lane: usize,
) -> Result<(), NoMemory>
    requires { MayGraft node.old held.old.items lane }
    ensures node { OnOk result ((h : AHeld) → HoldsAt held.old.items lane h →
        node.new ≡ grafted_seen h node.old) }
    ensures results { OnOk result ((h : AHeld) → HoldsAt held.old.items lane h →
        results.new.items ≡ results.old.items ++ h.trial.result ∷ []) }
    ensures wrote { OnOk result ((h : AHeld) → HoldsAt held.old.items lane h →
        wrote.new.items ≡ wrote.old.items ++ Some h.footprint.written ∷ []) }
    ensures held { OnOk result (held.new.items ≡ slice_set held.old.items lane None) }
    ensures same_node { OnErr result (node.new ≡ node.old) }
    ensures same_results { OnErr result (results.new.items ≡ results.old.items) }
    ensures same_wrote { OnErr result (wrote.new.items ≡ wrote.old.items) }
    ensures same_held { OnErr result (held.new.items ≡ held.old.items) }
{
    results.reserve(1)?;
    wrote.reserve(1)?;
    graft(node, held.as_slice(), lane)?;
    let (result, written) = take(held, lane);
    append(results, result);
    append(wrote, Some(written));
    Ok(())
}
