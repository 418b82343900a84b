//! What comes before and after the body of a function.
ghost use Rattle.std.specs.Prelude.{◌≡◌, ◌<◌, length, true, Some, Ok};
ghost use Rattle.cl_shapes.specs.Limits.{Purse};
ghost use Rattle.cl_events.specs.State.{State};
ghost use Rattle.cl_costs.specs.Tables.{function_of};
ghost use Rattle.cl_meaning.specs.Limits.{Costs, limited};
ghost use Rattle.cl_meaning.specs.Control.{last_of};
ghost use Rattle.cl_frames.specs.Runs.{Ends, Closes, is_public, response_of, returned_result};
ghost use Rattle.cl_frames.specs.Watching.{Binds};

use cl_code::Function;
use cl_costs::CostTable;
use cl_frames::{Stop, pay};
use cl_shapes::{CostName, Meter};
use cl_state::World;
use cl_types::Access;
use cl_values::{Kind, Val};

/// Charges for the parameters that are bound to the values, each by the size of its value.
pub fn bind(
    costs: &CostTable,
    function: &Function,
    values: &[Val],
    meter: &mut Meter,
) -> Result<(), Stop>
    ensures { Binds (function_of costs.now) meter.old function.now.params.items values.now result meter.new }
{
    let count = values.len();
    for place in 0..count {
        if place >= function.params.len() {
            return Err(Stop::Stuck);
        }
        let value = &values[place];
        let size = u64::from(value.size());
        pay(costs, meter, CostName::Bind, size)?;
    }
    if count < function.params.len() {
        return Err(Stop::Stuck);
    }
    Ok(())
}

/// The last of one or more values.
pub fn last(mut values: Vec<Val>) -> Result<Val, Stop>
    ensures { (costs : Costs) (p : Purse) (s : State) → Ends (limited costs p (last_of values.items s)) result p s }
{
    match values.pop() {
        Some(value) => Ok(value),
        None => Err(Stop::Stuck),
    }
}

/// Whether a function is a public one.
pub fn is_public(access: Access) -> bool
    ensures { result ≡ is_public access }
{
    match access {
        Access::Public => true,
        Access::ReadOnly | Access::Private => false,
    }
}

/// Whether a value is an ok or an err response.
fn response(value: &Val) -> Option<bool>
    ensures { result ≡ response_of value.now }
{
    match &value.value().kind {
        Kind::Response { good, inner: _ } => Some(*good),
        _ => None,
    }
}

/// Puts the layer of a public function in place of the one below where it answers ok, and else takes it off.
pub fn close(answer: Result<Val, Stop>, world: &mut World) -> Result<Val, Stop>
    requires { 0 < length world.old.stack.below }
    ensures { Closes answer world.old.stack result world.new.stack }
{
    match answer {
        Ok(value) => close_with(value, world),
        Err(stop) => {
            world.drop_layer();
            Err(stop)
        }
    }
}

fn close_with(value: Val, world: &mut World) -> Result<Val, Stop>
    requires { 0 < length world.old.stack.below }
    ensures { Closes (Ok value) world.old.stack result world.new.stack }
{
    match response(&value) {
        Some(good) => close_response(good, value, world),
        None => {
            world.drop_layer();
            Err(Stop::Stuck)
        }
    }
}

fn close_response(good: bool, value: Val, world: &mut World) -> Result<Val, Stop>
    requires response { response_of value ≡ Some good }
    requires layer { 0 < length world.old.stack.below }
    ensures { Closes (Ok value) world.old.stack result world.new.stack }
{
    if good {
        keep(value, world)
    } else {
        world.drop_layer();
        Ok(value)
    }
}

/// Puts the layer in place of the one below, or takes it off where memory ran out.
fn keep(value: Val, world: &mut World) -> Result<Val, Stop>
    requires ok { response_of value ≡ Some true }
    requires layer { 0 < length world.old.stack.below }
    ensures { Closes (Ok value) world.old.stack result world.new.stack }
{
    match world.keep_layer() {
        Ok(()) => Ok(value),
        Err(_error) => {
            world.drop_layer();
            Err(Stop::NoMemory)
        }
    }
}

/// An early return taken for a return.
#[inline]
pub fn returned(answer: Result<Val, Stop>) -> Result<Val, Stop>
    ensures { result ≡ returned_result answer }
{
    match answer {
        Ok(value) => Ok(value),
        Err(Stop::Thrown(value)) => Ok(value),
        Err(stop) => Err(stop),
    }
}
