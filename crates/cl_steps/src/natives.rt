//! The natives on values.
ghost use Rattle.std.specs.Prelude.{◌≡◌, ◌<◌, ◌^◌, length};
ghost use Rattle.cl_events.specs.State.{State};
ghost use Rattle.cl_forms.specs.declared.head.Head.TheVariants.{OnValues};
ghost use Rattle.cl_forms.specs.Heads.{row_of};
ghost use Rattle.cl_values.specs.Applied.{Applied};
ghost use Rattle.cl_values.specs.Computed.{Computed};
ghost use Rattle.cl_meaning.specs.Answers.{outcome_of};
ghost use Rattle.cl_meaning.specs.Values.{number_of, on_values};
ghost use Rattle.cl_frames.specs.Runs.{Computes, Runs};

use cl_apply::apply_native;
use cl_code::native_cost;
use cl_frames::{Context, Stop, pay, total_size};
use cl_shapes::{CostName, Meter};
use cl_types::Fault;
use cl_values::{Native, NoValue, Val};

/// At which number a native on values is charged.
fn charged_number(cost: CostName, values: &[Val]) -> u64
    requires { length values.now < 1048576 }
    ensures number { result ≡ number_of cost values.now }
    ensures small { result < 2 ^ 40 }
{
    match cost {
        CostName::Arith | CostName::Control => values.len() as u64,
        _ => total_size(values),
    }
}

/// The value of a native, or why it stops an evaluation.
pub fn computed(answer: Result<Val, Fault<NoValue>>) -> Result<Val, Stop>
    ensures { (c : Computed) → Applied c answer → Computes (outcome_of c) result }
{
    match answer {
        Ok(value) => Ok(value),
        Err(Fault::Refused(NoValue::Arith(refusal))) => Err(Stop::Arithmetic(refusal)),
        Err(Fault::Refused(NoValue::Panic)) => Err(Stop::Panic),
        Err(Fault::Refused(NoValue::Undefined)) => Err(Stop::Stuck),
        Err(Fault::NoMemory) => Err(Stop::NoMemory),
    }
}

/// A native on values, which is charged first.
pub fn native_on(
    context: &Context,
    native: Native,
    values: Vec<Val>,
    meter: &mut Meter,
) -> Result<Val, Stop>
    requires { length values.items < 1048576 }
    ensures { (s : State) → Runs context.now meter.old (on_values native (row_of (OnValues native)).cost values.items s) result meter.new s }
{
    let cost = native_cost(native);
    let number = charged_number(cost, &values);
    pay(context.costs, meter, cost, number)?;
    computed(apply_native(context.alloc, native, values))
}
