//! How a walk that ended ends its entry.
ghost use Rattle.std.specs.Prelude.{◌≡◌, ◌≢◌, Err, IfOk, OnErr};
ghost use Rattle.cl_walks.specs.Ends.{cause};
ghost use Rattle.cl_tx.specs.Nodes.{stop_of};
ghost use Rattle.cl_audit_entries.specs.Ending.{JudgedSo, MayEnd};

use cl_arith::ArithRefusal;
use cl_nodes::{Ended, answer_with};
use cl_shapes::Cost5;
use cl_state::World;
use cl_tx::{Common, Outcome, Stop as Aborts};
use cl_types::{Access, NoMemory};
use cl_values::Val;
use cl_walks::{Stop, Why};
use std::alloc::Global;

/// The abort that the result of an entry has.
pub(crate) fn stop_of(why: Why) -> Aborts
    ensures { result ≡ stop_of (cause why) }
{
    match why {
        Why::Arithmetic(ArithRefusal::Overflow) => Aborts::Overflow,
        Why::Arithmetic(ArithRefusal::Underflow) => Aborts::Underflow,
        Why::Arithmetic(ArithRefusal::DivideByZero) => Aborts::DivideByZero,
        Why::Arithmetic(ArithRefusal::NegativeArgument) => Aborts::NegativeArgument,
        Why::Panic => Aborts::Panic,
        Why::Supply => Aborts::SupplyOverflow,
    }
}

/// How a call of a function of this access ends, by the end of its walk on a layer of its own and by
/// what it has spent.
pub(crate) fn judge(
    alloc: Global,
    world: &World,
    common: &Common,
    access: Access,
    end: Result<Val, Stop>,
    spent: Cost5,
) -> Result<Ended, NoMemory>
    requires { MayEnd access end }
    ensures ended { IfOk result
        (λ e. JudgedSo common.now access end spent world.now.stack.top e) }
    ensures memory { OnErr result (end ≡ Err Stop.NoMemory) }
    ensures ends { IfOk result (λ _. end ≢ Err Stop.NoMemory) }
{
    match end {
        Ok(value) => Ok(answer_with(alloc, world, common, access, value, spent)),
        Err(Stop::Aborted(why)) => { Ok(Ended::of_failure(Outcome::Aborted(stop_of(why)), spent)) }
        Err(Stop::CostLimit(over)) => Ok(Ended::of_failure(
            Outcome::Aborted(Aborts::CostLimit(over)),
            over.attempted,
        )),
        Err(Stop::NoMemory) => Err(NoMemory),
        Err(Stop::Thrown(_)) => unreachable!(),
        Err(Stop::Stuck) => unreachable!(),
    }
}
