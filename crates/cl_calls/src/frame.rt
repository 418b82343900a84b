//! The frames that come after a frame.
ghost use Rattle.std.specs.Prelude.{◌≡◌, ◌<◌, ◌^◌};
ghost use Rattle.cl_values.specs.Valid.{IsPrincipal};
ghost use Rattle.cl_meaning.specs.Scope.{as_contract, called};
ghost use Rattle.cl_frames.specs.Homes.{frame_seen};

use crate::across::is_valid_principal;
use cl_c32::Principal;
use cl_frames::Frame;

/// The frame in which sender and caller are the contract itself.
pub fn as_contract(frame: &Frame) -> Frame
    ensures { frame_seen result ≡ as_contract (frame_seen frame.now) }
{
    Frame {
        contract: frame.contract,
        sender: frame.contract,
        caller: frame.contract,
        height: frame.height,
    }
}

/// The frame of a contract that the frame's contract calls.
pub fn called(frame: &Frame, target: Principal) -> Frame
    ensures { frame_seen result ≡ called target (frame_seen frame.now) }
{
    let caller = frame.contract;
    Frame {
        contract: target,
        sender: frame.sender,
        caller,
        height: frame.height,
    }
}

/// A law of each frame: its principals and its height are within the limits.
pub fn is_valid(frame: &Frame)
    ensures contract { IsPrincipal frame.now.contract }
    ensures sender { IsPrincipal frame.now.sender }
    ensures caller { IsPrincipal frame.now.caller }
    ensures height { frame.now.height < 2 ^ 128 }
{
    is_valid_principal(&frame.contract);
    is_valid_principal(&frame.sender);
    is_valid_principal(&frame.caller);
    let _height = frame.height;
}
