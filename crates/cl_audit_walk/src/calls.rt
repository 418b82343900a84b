//! What comes before and after the body of a function.
ghost use Rattle.std.specs.Prelude.{◌≡◌, ◌<◌, length, true, Some, Ok};
ghost use Rattle.cl_audit_walk.specs.Calls.{IsBound, Closes, is_public, response_of, returned_result};

use crate::run::{Run, pay};
use cl_audit_steps::{Charge, NamedValues, Scope};
use cl_shapes::CostName;
use cl_state::World;
use cl_types::{Access, Name, SizedTy};
use cl_values::{Kind, Val};
use cl_walks::Stop;

/// The parameters bound to copies of the values, each charged by its size.
pub(crate) fn bind(
    run: &mut Run,
    scope: &Scope,
    params: &[(Name, SizedTy)],
    values: &[Val],
) -> Result<NamedValues, Stop>
    ensures bound { IsBound scope.now params.now values.now run.old result run.new }
    ensures world { run.new.world.stack ≡ run.old.world.stack }
{
    let mut own = NamedValues::new(scope.alloc, scope.contracts.hash_key());
    for place in 0..values.len() {
        let value = &values[place];
        if place >= params.len() {
            return Err(Stop::Stuck);
        }
        let param = &params[place];
        pay(run, scope, Some(Charge::of(CostName::Bind, value)))?;
        own.push(param.0, value.copy(scope.alloc)?)?;
    }
    if values.len() < params.len() {
        return Err(Stop::Stuck);
    }
    Ok(own)
}

/// Whether a function is a public one.
pub(crate) fn is_public(access: Access) -> bool
    ensures { result ≡ is_public access }
{
    match access {
        Access::Public => true,
        Access::ReadOnly | Access::Private => false,
    }
}

/// Whether a value is an ok or an err response.
fn response(value: &Val) -> Option<bool>
    ensures { result ≡ response_of value.now }
{
    match &value.value().kind {
        Kind::Response { good, inner: _ } => Some(*good),
        _ => None,
    }
}

/// Puts the layer of a public function in place of the one below where it answers ok, and else
/// takes it off.
pub(crate) fn close(answer: Result<Val, Stop>, world: &mut World) -> Result<Val, Stop>
    requires { 0 < length world.old.stack.below }
    ensures { Closes answer world.old.stack result world.new.stack }
{
    match answer {
        Ok(value) => close_with(value, world),
        Err(stop) => {
            world.drop_layer();
            Err(stop)
        }
    }
}

fn close_with(value: Val, world: &mut World) -> Result<Val, Stop>
    requires { 0 < length world.old.stack.below }
    ensures { Closes (Ok value) world.old.stack result world.new.stack }
{
    match response(&value) {
        Some(good) => close_response(good, value, world),
        None => {
            world.drop_layer();
            Err(Stop::Stuck)
        }
    }
}

fn close_response(good: bool, value: Val, world: &mut World) -> Result<Val, Stop>
    requires response { response_of value ≡ Some good }
    requires layer { 0 < length world.old.stack.below }
    ensures { Closes (Ok value) world.old.stack result world.new.stack }
{
    if good {
        keep(value, world)
    } else {
        world.drop_layer();
        Ok(value)
    }
}

/// Puts the layer in place of the one below, or takes it off where memory ran out.
fn keep(value: Val, world: &mut World) -> Result<Val, Stop>
    requires ok { response_of value ≡ Some true }
    requires layer { 0 < length world.old.stack.below }
    ensures { Closes (Ok value) world.old.stack result world.new.stack }
{
    match world.keep_layer() {
        Ok(()) => Ok(value),
        Err(_error) => {
            world.drop_layer();
            Err(Stop::NoMemory)
        }
    }
}

/// An early return taken for a return.
pub(crate) fn take_early_return(answer: Result<Val, Stop>) -> Result<Val, Stop>
    ensures { result ≡ returned_result answer }
{
    match answer {
        Ok(value) => Ok(value),
        Err(Stop::Thrown(value)) => Ok(value),
        Err(stop) => Err(stop),
    }
}
