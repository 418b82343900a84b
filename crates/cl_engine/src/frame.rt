//! The frame in which what a sender asks for is evaluated.
ghost use Rattle.std.specs.Prelude.{◌≡◌};
ghost use Rattle.cl_frames.specs.Homes.{frame_seen};
ghost use Rattle.cl_tx.specs.Nodes.{person};

use cl_c32::Principal;
use cl_frames::Frame;
use cl_nodes::person;
use cl_tx::Common;

/// The frame of what a sender runs in a contract.
pub(crate) fn frame_of(common: &Common, contract: &Principal, height: u64) -> Frame
    ensures { frame_seen result
        ≡ record {
          contract = contract.now;
          sender = person common.now.sender;
          caller = person common.now.sender;
          height = height;
        } }
{
    Frame {
        contract: *contract,
        sender: person(common),
        caller: person(common),
        height: u128::from(height),
    }
}
