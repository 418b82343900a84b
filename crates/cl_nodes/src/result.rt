//! Results of entries.
ghost use Rattle.std.specs.Prelude.{◌≡◌, [], None};
ghost use Rattle.cl_tx.specs.Nodes.{nothing_told, purse_of, result_of};

use cl_events::Event;
use cl_shapes::{Cost5, Meter};
use cl_tx::{Common, EntryRefusal, Outcome, Rebound, Row, TxResult};
use std::alloc::Global;

/// Nothing is spent of the limit of an entry.
pub fn meter_of(common: &Common) -> Meter
    ensures { result ≡ purse_of common.now }
{
    Meter::new(common.limit)
}

/// A result without bounds.
pub(crate) fn result_with(
    alloc: Global,
    outcome: Outcome,
    cost: Option<Cost5>,
    events: Vec<Event>,
) -> TxResult
    ensures { result ≡ result_of nothing_told outcome cost events.items }
{
    TxResult {
        outcome,
        cost,
        bounds: None,
        types: Row::new(Vec::new(alloc)),
        events: Row::new(events),
        rebounds: Row::new(Vec::new(alloc)),
    }
}

/// The result of an entry that isn't run.
pub fn refused(alloc: Global, refusal: EntryRefusal) -> TxResult
    ensures { result ≡ result_of nothing_told (Outcome.Refused refusal) None [] }
{
    result_with(alloc, Outcome::Refused(refusal), None, Vec::new(alloc))
}

/// The result of a block, with these bounds.
pub fn block_begun(alloc: Global, lines: Vec<Rebound>) -> TxResult
    ensures { result
        ≡ record (result_of nothing_told Outcome.Moved None []) { rebounds = lines.items } }
{
    let mut result = result_with(alloc, Outcome::Moved, None, Vec::new(alloc));
    result.rebounds = Row::new(lines);
    result
}
