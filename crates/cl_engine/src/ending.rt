//! How an evaluation ends.
ghost use Rattle.std.specs.Prelude.{◌≡◌, ◌≢◌, Some, false, IfOk, OnErr, Result, Ok, Err};
ghost use Rattle.cl_engine.specs.Ends.{JudgedSo, MayAnswer, cost_by, stop_by};

use cl_frames::Abort;
use cl_nodes::{Ended, answer_with};
use cl_shapes::Cost5;
use cl_state::World;
use cl_tx::{Common, Outcome, Stop};
use cl_types::{Access, Fault, NoMemory};
use cl_values::Val;
use std::alloc::Global;

/// The abort that the result of an entry has.
pub(crate) fn stop_of(abort: Abort) -> Stop
    ensures { result ≡ stop_by abort }
{
    match abort {
        Abort::Overflow => Stop::Overflow,
        Abort::Underflow => Stop::Underflow,
        Abort::DivideByZero => Stop::DivideByZero,
        Abort::NegativeArgument => Stop::NegativeArgument,
        Abort::Panic => Stop::Panic,
        Abort::SupplyOverflow => Stop::SupplyOverflow,
        Abort::EarlyTop => Stop::EarlyTop,
        Abort::CostLimit(over) => Stop::CostLimit(over),
    }
}

/// What an abort costs where so much is spent.
pub(crate) fn cost_of(abort: Abort, spent: Cost5) -> Cost5
    ensures { result ≡ cost_by abort spent }
{
    match abort {
        Abort::CostLimit(over) => over.attempted,
        _ => spent,
    }
}

/// The end of a call that aborts.
fn abort_with(abort: Abort, spent: Cost5) -> Ended
    ensures { result ≡ record {
      outcome = Outcome.Aborted (stop_by abort);
      cost = Some (cost_by abort spent);
      kept = false;
    } }
{
    Ended::of_failure(Outcome::Aborted(stop_of(abort)), cost_of(abort, spent))
}

/// How a call of a function of this access ends, by its answer on a layer of its own and by what it
/// has spent.
pub(crate) fn judge(
    alloc: Global,
    world: &World,
    common: &Common,
    access: Access,
    answer: Result<Val, Fault<Abort>>,
    spent: Cost5,
) -> Result<Ended, NoMemory>
    requires fine { MayAnswer access answer }
    ensures ended { IfOk result
        (λ e. JudgedSo common.now access answer spent world.now.stack.top e) }
    ensures memory { OnErr result (answer ≡ Err Fault.NoMemory) }
    ensures answered { IfOk result (λ _. answer ≢ Err Fault.NoMemory) }
{
    match answer {
        Ok(value) => Ok(answer_with(alloc, world, common, access, value, spent)),
        Err(Fault::Refused(abort)) => Ok(abort_with(abort, spent)),
        Err(Fault::NoMemory) => Err(NoMemory),
    }
}
