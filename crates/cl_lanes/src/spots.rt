//! The spots of an entry that is a call.
ghost use Rattle.std.specs.Prelude.{IfOk};
ghost use Rattle.cl_contracts.specs.Seen.{deployed_seen};
ghost use Rattle.cl_touch_sound.specs.Calls.{IsCall, IsFootprintOf};

use cl_contracts::Deployed;
use cl_footprint::{Footprint, footprint_of};
use cl_tx::Entry;
use cl_types::NoMemory;
use std::alloc::Global;

/// The spots that a call touches, and those that it writes, each once. Whether its arguments fit
/// doesn't matter; a call that is refused with E1, E2 or E3 has none.
pub fn footprint(alloc: Global, deployed: &Deployed, entry: &Entry) -> Result<Footprint, NoMemory>
    requires { IsCall entry.now }
    ensures { IfOk result (λ s. IsFootprintOf (deployed_seen deployed.now) entry.now
        s.touched s.written) }
{
    let Entry::Call {
        contract,
        function,
        ..
    } = entry
    else {
        unreachable!();
    };
    footprint_of(alloc, deployed, contract, function.as_slice())
}
