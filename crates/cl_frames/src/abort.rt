//! How a call aborts.
ghost use Rattle.std.specs.Prelude.{◌≡◌, Some};
ghost use Rattle.cl_frames.specs.Aborts.{IsNotStuck, abort_of, fault_of, purse_after};

use crate::stop::Stop;
use cl_arith::ArithRefusal;
use cl_shapes::{Meter, Over};
use cl_types::Fault;

/// How a call aborts.
#[derive(Clone, Copy)]
pub enum Abort {
    /// A1: a result is above the greatest number of its kind.
    Overflow,
    /// A2: a result is below the least number of its kind.
    Underflow,
    /// A3: a divisor is zero.
    DivideByZero,
    /// A4: an exponent or an argument is negative.
    NegativeArgument,
    /// A5: `unwrap-panic` or `unwrap-err-panic` finds nothing.
    Panic,
    /// A6: a supply would be above its cap.
    SupplyOverflow,
    /// A7: an expression at the top of a contract throws a value, which no function returns.
    EarlyTop,
    /// A8: more would have been spent than the limit. The charge that passed isn't spent.
    CostLimit(Over),
}

fn arithmetic_abort(refusal: ArithRefusal) -> Abort
    ensures { result ≡ abort_of refusal }
{
    match refusal {
        ArithRefusal::Overflow => Abort::Overflow,
        ArithRefusal::Underflow => Abort::Underflow,
        ArithRefusal::DivideByZero => Abort::DivideByZero,
        ArithRefusal::NegativeArgument => Abort::NegativeArgument,
    }
}

/// The abort, or want of memory, by which an evaluation stops. After want of memory the meter is as it was before.
pub fn fault(stop: Stop, before: Meter, meter: &mut Meter) -> Fault<Abort>
    requires { IsNotStuck stop }
    ensures fault { fault_of stop ≡ Some result }
    ensures meter { meter.new ≡ purse_after stop before meter.old }
{
    match stop {
        Stop::Arithmetic(refusal) => Fault::Refused(arithmetic_abort(refusal)),
        Stop::Panic => Fault::Refused(Abort::Panic),
        Stop::Supply => Fault::Refused(Abort::SupplyOverflow),
        Stop::Thrown(_) => Fault::Refused(Abort::EarlyTop),
        Stop::CostLimit(over) => Fault::Refused(Abort::CostLimit(over)),
        Stop::Stuck => unreachable!(),
        Stop::NoMemory => {
            *meter = before;
            Fault::NoMemory
        }
    }
}
