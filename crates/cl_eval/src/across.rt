//! Calls of other contracts.
ghost use Rattle.std.specs.Prelude.{◌≡◌, ◌<◌, ◌≤◌, ◌∷◌, length, map};
ghost use Rattle.cl_code.specs.Typed.{expression_of};
ghost use Rattle.cl_code.specs.Expression.{word, target};
ghost use Rattle.cl_meaning.specs.Scope.{BoundValues};
ghost use Rattle.cl_meaning.specs.Calls.{contract_call_form, enter_there};
ghost use Rattle.cl_meaning.specs.Meaning.{means, applied};
ghost use Rattle.cl_frames.specs.Homes.{home_seen};
ghost use Rattle.cl_frames.specs.Across.{IsAt};
ghost use Rattle.cl_frames.specs.Watching.{Walks, amount};
ghost use Rattle.cl_frames.specs.Seen.{scope, scope_of, Fits};
ghost use Rattle.cl_frames.specs.Going.{AllGoIn};

use crate::calls::enter;
use crate::walk::evaluate_parts;
use cl_calls::{callable, called, contract_there, principal_of, same};
use cl_code::{Code, Target, Watch, Word};
use cl_frames::{Context, Home, Names, Stop, pay};
use cl_shapes::{CostName, Meter};
use cl_state::World;
use cl_types::Name;
use cl_values::Val;

/// A call of a function of another contract.
#[cycle(evaluate)]
pub(crate) fn evaluate_contract_call<W: Watch>(
    context: &Context,
    names: &Names,
    literal: &Target,
    function: &Word,
    codes: &[Code],
    below: u32,
    world: &mut World,
    meter: &mut Meter,
    watch: &mut W,
) -> Result<Val, Stop>
    requires few { length codes.now < 1048576 }
    requires goes { AllGoIn context.now codes.now }
    ensures meant { Fits context.now → Walks context.now meter.old (W.seen watch.old) (contract_call_form (means below) (applied below) (scope context.now names.now) (target literal.now ∷ word function.now ∷ map expression_of codes.now) world.old.stack.top) result meter.new (W.seen watch.new) world.new.stack.top }
    ensures below { world.new.stack.below ≡ world.old.stack.below }
    ensures grew { amount (W.seen watch.old) ≤ amount (W.seen watch.new) }
{
    let values = evaluate_parts(context, names, codes, below, world, meter, watch)?;
    let principal = principal_of(context, literal);
    if same(&principal, &context.frame.contract) {
        return Err(Stop::Stuck);
    }
    match contract_there(context, &principal) {
        Some(home) => enter_there(
            context,
            &home,
            &function.name,
            values,
            below,
            world,
            meter,
            watch,
        ),
        None => Err(Stop::Stuck),
    }
}

/// Applies a function of another contract to values, in that contract.
#[cycle(evaluate)]
fn enter_there<W: Watch>(
    context: &Context,
    home: &Home,
    name: &Name,
    values: Vec<Val>,
    below: u32,
    world: &mut World,
    meter: &mut Meter,
    watch: &mut W,
) -> Result<Val, Stop>
    requires { length values.items < 1048576 }
    ensures meant { (bound : BoundValues) → Fits context.now → IsAt context.now home.now →
        Walks context.now meter.old (W.seen watch.old)
        (enter_there (applied below) (scope_of context.now bound) name.now values.items
        (home_seen home.now) world.old.stack.top)
        result meter.new (W.seen watch.new) world.new.stack.top }
    ensures below { world.new.stack.below ≡ world.old.stack.below }
    ensures grew { amount (W.seen watch.old) ≤ amount (W.seen watch.new) }
{
    let contract = home.checked.parts();
    let length = u64::from(contract.source_length);
    pay(context.costs, meter, CostName::ContractCall, length)?;
    let frame = called(context.frame, contract.principal);
    match callable(home.checked, name) {
        Some(function) => {
            let inner = Context {
                alloc: context.alloc,
                deployed: context.deployed,
                opening: context.opening,
                home: *home,
                frame: &frame,
                costs: context.costs,
            };
            enter(&inner, function, values, below, world, meter, watch)
        }
        None => Err(Stop::Stuck),
    }
}
