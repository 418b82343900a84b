//! The evaluation of a deployment.
ghost use Rattle.std.specs.Prelude.{◌≡◌, ◌<◌, ◌≤◌, [], ◌∷◌, length, slice_get, Some, IfOk};
ghost use Rattle.cl_costs.specs.Tables.{function_of};
ghost use Rattle.cl_contracts.specs.Seen.{deployed_seen};
ghost use Rattle.cl_meaning.specs.Deploying.{deployment};
ghost use Rattle.cl_meaning.specs.Limits.{limited};
ghost use Rattle.cl_frames.specs.Homes.{frame_seen};
ghost use Rattle.cl_newness.specs.Newness.{HasNoTokens};
ghost use Rattle.cl_frames.specs.Deploys.{IsDeploying, AreNew, Builds, Deploys, contract_with, all_by, all_charged};
ghost use Rattle.cl_frames.specs.Sound.{DeploySpendsWithin, IsAcceptedAfter, IsKeptWorld};
ghost use Rattle.cl_frames.specs.Watching.{Tells, amount, trace};

use crate::definitions::define;
use cl_calls::is_valid;
use cl_code::{Definition, Silent, Watch};
use cl_contract_sound::{
    charges_stay_within_bounds, deployments_are_sound, limits_leave_sound_answers,
};
use cl_contracts::{Checked, Deployed};
use cl_costs::CostTable;
use cl_frames::{Abort, Deploying, Frame, Stop, fault, pay};
use cl_keyed::HashKey;
use cl_shapes::{CostName, Meter};
use cl_state::World;
use cl_types::{Fault, Name};
use cl_values::Val;
use indexmap::IndexMap;
use std::alloc::Global;

/// The definition at a place of the text.
fn definition_at(checked: &Checked, place: usize) -> &Definition
    requires { place < length checked.now.definitions.items }
    ensures { slice_get checked.now.definitions.items place ≡ Some result.now }
{
    &checked.parts().definitions[place]
}

/// The definitions one after another, at the places of the order of evaluation.
fn define_all<W: Watch>(
    deploying: &Deploying,
    places: &[usize],
    constants: &mut IndexMap<Name, Val, HashKey>,
    world: &mut World,
    meter: &mut Meter,
    watch: &mut W,
) -> Result<(), Stop>
    requires fits { IsDeploying deploying.now }
    requires order { places.now ≡ deploying.now.checked.now.order.items }
    requires new { AreNew deploying.now.checked.now 0 constants.old.entries world.old.stack.top }
    ensures meant { Builds deploying.now meter.old (W.seen watch.old)
        (all_by deploying.now places.now constants.old.entries world.old.stack.top)
        constants.new.entries result meter.new (W.seen watch.new) world.new.stack.top }
    ensures below { world.new.stack.below ≡ world.old.stack.below }
    ensures grew { amount (W.seen watch.old) ≤ amount (W.seen watch.new) }
{
    deploying.checked.is_well_formed();
    for place in places {
        let definition = definition_at(deploying.checked, *place);
        define(deploying, constants, definition, world, meter, watch)?;
    }
    Ok(())
}

/// Charges the text, and evaluates the definitions.
fn deploy<W: Watch>(
    deploying: &Deploying,
    constants: &mut IndexMap<Name, Val, HashKey>,
    world: &mut World,
    meter: &mut Meter,
    watch: &mut W,
) -> Result<(), Stop>
    requires fits { IsDeploying deploying.now }
    requires new { AreNew deploying.now.checked.now 0 constants.old.entries world.old.stack.top }
    ensures meant { Builds deploying.now meter.old (W.seen watch.old)
        (all_charged deploying.now constants.old.entries world.old.stack.top)
        constants.new.entries result meter.new (W.seen watch.new) world.new.stack.top }
    ensures below { world.new.stack.below ≡ world.old.stack.below }
    ensures grew { amount (W.seen watch.old) ≤ amount (W.seen watch.new) }
{
    let contract = deploying.checked.parts();
    let length = u64::from(contract.source_length);
    pay(deploying.costs, meter, CostName::Deploy, length)?;
    let places = contract.order.as_slice();
    define_all(deploying, places, constants, world, meter, watch)
}

/// Evaluates the deployment of the frame's contract, which was accepted after the deployed ones,
/// and gives the values of its constants. What it does is done to the top state of the world, which
/// has no token of the contract yet, and charged to the meter. The constants' values are of their
/// types, and the state that it leaves is kept with the contract. Whatever it answers, what is
/// charged is within the deployment's bound; after want of memory nothing is.
pub fn run_top(
    alloc: Global,
    world: &mut World,
    deployed: &Deployed,
    checked: &Checked,
    frame: &Frame,
    costs: &CostTable,
    meter: &mut Meter,
) -> Result<IndexMap<Name, Val, HashKey>, Fault<Abort>>
    requires accepted { IsAcceptedAfter (deployed_seen deployed.now) world.old.stack.top
        checked.now }
    requires home { checked.now.principal ≡ frame.now.contract }
    requires tokens { HasNoTokens frame.now.contract world.old.stack.top }
    ensures meant { Deploys (limited (function_of costs.now) meter.old
        (deployment (deployed_seen deployed.now) (frame_seen frame.now)
        (contract_with checked.now []) world.old.stack.top))
        checked.now result meter.new world.new.stack.top }
    ensures kept { IfOk result (λ constants. IsKeptWorld
        (contract_with checked.now constants.entries ∷ deployed_seen deployed.now)
        world.new.stack.top) }
    ensures within { DeploySpendsWithin (function_of costs.now) (deployed_seen deployed.now)
        world.old.stack.top checked.now meter.old meter.new }
    ensures memory { result ≡ Err Fault.NoMemory → meter.new ≡ meter.old }
    ensures below { world.new.stack.below ≡ world.old.stack.below }
{
    let mut nobody = Silent;
    run_top_watched(
        alloc,
        world,
        deployed,
        checked,
        frame,
        costs,
        meter,
        &mut nobody,
    )
}

/// Evaluates a deployment as `run_top` does, and gives `watch` the value of each node that gives
/// one, in the order in which they end. Where the limit stops it, these are the nodes before that
/// charge; after want of memory, the first of them.
pub fn run_top_watched<W: Watch>(
    alloc: Global,
    world: &mut World,
    deployed: &Deployed,
    checked: &Checked,
    frame: &Frame,
    costs: &CostTable,
    meter: &mut Meter,
    watch: &mut W,
) -> Result<IndexMap<Name, Val, HashKey>, Fault<Abort>>
    requires accepted { IsAcceptedAfter (deployed_seen deployed.now) world.old.stack.top
        checked.now }
    requires home { checked.now.principal ≡ frame.now.contract }
    requires tokens { HasNoTokens frame.now.contract world.old.stack.top }
    ensures meant { Deploys (limited (function_of costs.now) meter.old
        (deployment (deployed_seen deployed.now) (frame_seen frame.now)
        (contract_with checked.now []) world.old.stack.top))
        checked.now result meter.new world.new.stack.top }
    ensures kept { IfOk result (λ constants. IsKeptWorld
        (contract_with checked.now constants.entries ∷ deployed_seen deployed.now)
        world.new.stack.top) }
    ensures within { DeploySpendsWithin (function_of costs.now) (deployed_seen deployed.now)
        world.old.stack.top checked.now meter.old meter.new }
    ensures memory { result ≡ Err Fault.NoMemory → meter.new ≡ meter.old }
    ensures below { world.new.stack.below ≡ world.old.stack.below }
    ensures seen { Tells (W.seen watch.old) (W.seen watch.new)
        (trace (function_of costs.now) meter.old
        (deployment (deployed_seen deployed.now) (frame_seen frame.now)
        (contract_with checked.now []) world.old.stack.top))
        result }
{
    deployments_are_sound();
    limits_leave_sound_answers();
    charges_stay_within_bounds();
    is_valid(frame);
    let deploying = Deploying {
        alloc,
        deployed,
        checked,
        frame,
        costs,
    };
    let mut constants = IndexMap::with_hasher(alloc, checked.hash_key());
    let before = meter.copy();
    match deploy(&deploying, &mut constants, world, meter, watch) {
        Ok(()) => Ok(constants),
        Err(stop) => Err(fault(stop, before, meter)),
    }
}
