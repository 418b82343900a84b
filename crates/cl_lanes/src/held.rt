//! What a lane holds.
ghost use Rattle.std.specs.Prelude.{◌≡◌, IfOk};
ghost use Rattle.cl_touch_sound.specs.Calls.{IsCall};
ghost use Rattle.cl_lanes.specs.Held.{IsTrial};

use crate::spots::footprint;
use cl_costs::Schedule;
use cl_engine::{Node, Trial};
use cl_file::Row;
use cl_footprint::Footprint;
use cl_spots::Spot;
use cl_tx::{Entry, TxResult};
use cl_types::NoMemory;
use std::alloc::Global;

/// A call that was tried.
pub struct Held {
    /// Its place among the entries of the file.
    pub entry: u32,
    /// How many entries were committed when it was tried.
    pub start: u32,
    pub trial: Trial,
    pub footprint: Footprint,
}

impl Drop for Held {
    fn drop(self) {
        let Held {
            entry: _,
            start: _,
            trial,
            footprint,
        } = self;
        drop(trial);
        drop(footprint);
    }
}

/// Tries a call on a node.
pub(crate) fn try_call(
    alloc: Global,
    node: &Node,
    entry: &Entry,
    costs: &Schedule,
    place: u32,
    start: u32,
) -> Result<Held, NoMemory>
    requires { IsCall entry.now }
    ensures places { IfOk result (λ h. (h.entry ≡ place) × (h.start ≡ start)) }
    ensures trial { IfOk result (λ h. IsTrial costs.now node.now entry.now h) }
{
    let footprint = footprint(alloc, node.deployed(), entry)?;
    let trial = node.trial(alloc, entry, costs)?;
    Ok(Held {
        entry: place,
        start,
        trial,
        footprint,
    })
}

impl Held {
    /// The result of the trial, and the spots that were written; the rest is dropped.
    pub(crate) fn done(self) -> (TxResult, Row<Spot>)
        ensures result { result.0 ≡ self.trial.result }
        ensures written { result.1 ≡ self.footprint.written }
    {
        let Held {
            entry: _,
            start: _,
            trial,
            footprint,
        } = self;
        let Trial { result, world } = trial;
        let Footprint { touched, written } = footprint;
        drop(world);
        drop(touched);
        (result, written)
    }
}
