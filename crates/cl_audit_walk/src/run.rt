//! What a walk works on.
ghost use Rattle.cl_values.specs.Applied.{Applied};
ghost use Rattle.cl_values.specs.Computed.{Computed};
ghost use Rattle.cl_meaning.specs.Answers.{outcome_of};
ghost use Rattle.cl_audit_walk.specs.Evaluates.{Computes, Pays};

use crate::cursor::Cursor;
use cl_audit_steps::{Charge, Scope};
use cl_shapes::Meter;
use cl_state::World;
use cl_types::Fault;
use cl_values::{NoValue, Val};
use cl_walks::{Stop, Why};

/// The states of a node, what is spent of the limit, and how far the claims agree.
pub struct Run<'a> {
    pub world: World,
    pub meter: Meter,
    pub cursor: Cursor<'a>,
}

impl<'a> Drop for Run<'a> {
    fn drop(self) {
        let Run {
            world,
            meter,
            cursor: _,
        } = self;
        drop(world);
        drop(meter);
    }
}

/// Pays a charge, if there is one.
pub(crate) fn pay(run: &mut Run, scope: &Scope, charge: Option<Charge>) -> Result<(), Stop>
    ensures { Pays scope.now charge run.old result run.new }
{
    match charge {
        Some(charge) => match run
            .meter
            .charge(scope.costs.of(charge.name()).at(charge.number()))
        {
            Ok(()) => Ok(()),
            Err(over) => Err(Stop::CostLimit(over)),
        },
        None => Ok(()),
    }
}

/// What a native computes, or why it computes nothing.
pub(crate) fn computed_value(answer: Result<Val, Fault<NoValue>>) -> Result<Val, Stop>
    ensures { (c : Computed) → Applied c answer → Computes (outcome_of c) result }
{
    match answer {
        Ok(value) => Ok(value),
        Err(Fault::Refused(NoValue::Arith(refusal))) => {
            Err(Stop::Aborted(Why::Arithmetic(refusal)))
        }
        Err(Fault::Refused(NoValue::Panic)) => Err(Stop::Aborted(Why::Panic)),
        Err(Fault::Refused(NoValue::Undefined)) => Err(Stop::Stuck),
        Err(Fault::NoMemory) => Err(Stop::NoMemory),
    }
}
