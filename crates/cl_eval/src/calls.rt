//! The application of functions.
ghost use Rattle.std.specs.Prelude.{◌≡◌, ◌<◌, ◌≤◌, length, map};
ghost use Rattle.cl_contracts.specs.Seen.{function_seen};
ghost use Rattle.cl_meaning.specs.Scope.{BoundValues, OwnFunction};
ghost use Rattle.cl_meaning.specs.Calls.{call_form, body_in};
ghost use Rattle.cl_code.specs.Typed.{expression_of};
ghost use Rattle.cl_meaning.specs.Meaning.{means, applied};
ghost use Rattle.cl_frames.specs.Seen.{scope, scope_of, Fits};
ghost use Rattle.cl_frames.specs.Going.{GoesIn, AllGoIn};
ghost use Rattle.cl_frames.specs.Watching.{Walks, amount};

use crate::walk::{evaluate, evaluate_parts};
use cl_calls::{bind, close, is_public, returned};
use cl_code::{Code, Function, Watch};
use cl_frames::{Context, Names, Stop, pay};
use cl_shapes::{CostName, Meter};
use cl_state::World;
use cl_steps::own_function;
use cl_types::Name;
use cl_values::Val;

/// A call of a function of the contract.
#[cycle(evaluate)]
pub(crate) fn evaluate_call<W: Watch>(
    context: &Context,
    names: &Names,
    name: &Name,
    codes: &[Code],
    below: u32,
    world: &mut World,
    meter: &mut Meter,
    watch: &mut W,
) -> Result<Val, Stop>
    requires few { length codes.now < 1048576 }
    requires goes { AllGoIn context.now codes.now }
    ensures meant { Fits context.now → Walks context.now meter.old (W.seen watch.old) (call_form name.now (means below) (applied below) (scope context.now names.now) (map expression_of codes.now) world.old.stack.top) result meter.new (W.seen watch.new) world.new.stack.top }
    ensures below { world.new.stack.below ≡ world.old.stack.below }
    ensures grew { amount (W.seen watch.old) ≤ amount (W.seen watch.new) }
{
    let values = evaluate_parts(context, names, codes, below, world, meter, watch)?;
    match own_function(context, name) {
        Some(function) => enter(context, function, values, below, world, meter, watch),
        None => Err(Stop::Stuck),
    }
}

/// Applies a function to values, to a depth.
#[cycle(evaluate)]
pub fn enter<W: Watch>(
    context: &Context,
    function: &Function,
    values: Vec<Val>,
    depth: u32,
    world: &mut World,
    meter: &mut Meter,
    watch: &mut W,
) -> Result<Val, Stop>
    requires few { length values.items < 4294967296 }
    requires goes { GoesIn context.now function.now.body }
    ensures meant { (outer : BoundValues) → Fits context.now → Walks context.now meter.old (W.seen watch.old) (applied depth (scope_of context.now outer) (OwnFunction (function_seen function.now)) values.items world.old.stack.top) result meter.new (W.seen watch.new) world.new.stack.top }
    ensures below { world.new.stack.below ≡ world.old.stack.below }
    ensures grew { amount (W.seen watch.old) ≤ amount (W.seen watch.new) }
{
    if depth == 0 {
        return Err(Stop::Stuck);
    }
    pay(context.costs, meter, CostName::Call, values.len() as u64)?;
    let given = values.as_slice();
    bind(context.costs, function, given, meter)?;
    let names = Names::of_call(function, given);
    evaluate_body(context, function, &names, depth - 1, world, meter, watch)
}

/// The body of a function; where a public one answers err or stops, the state is as it was before.
#[cycle(evaluate)]
fn evaluate_body<W: Watch>(
    context: &Context,
    function: &Function,
    names: &Names,
    below: u32,
    world: &mut World,
    meter: &mut Meter,
    watch: &mut W,
) -> Result<Val, Stop>
    requires goes { GoesIn context.now function.now.body }
    ensures meant { (outer : BoundValues) → Fits context.now → Walks context.now meter.old (W.seen watch.old) (body_in (means below) (scope_of context.now outer) (function_seen function.now) names.now.values world.old.stack.top) result meter.new (W.seen watch.new) world.new.stack.top }
    ensures below { world.new.stack.below ≡ world.old.stack.below }
    ensures grew { amount (W.seen watch.old) ≤ amount (W.seen watch.new) }
{
    if is_public(function.access) {
        world.push_layer()?;
        let answer = evaluate(context, names, &function.body, below, world, meter, watch);
        close(returned(answer), world)
    } else {
        returned(evaluate(context, names, &function.body, below, world, meter, watch))
    }
}
