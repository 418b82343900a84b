//! The evaluation of deployments.
ghost use Rattle.std.specs.Prelude.{◌≡◌, ◌∷◌, [], Ok, length, IfOk, OnErr};
ghost use Rattle.cl_meaning.specs.Limits.{limited};
ghost use Rattle.cl_contracts.specs.Seen.{deployed_seen};
ghost use Rattle.cl_newness.specs.Newness.{HasNoTokens};
ghost use Rattle.cl_frames.specs.Sound.{IsAcceptedAfter};
ghost use Rattle.cl_frames.specs.Watching.{trace};
ghost use Rattle.cl_post.specs.Post.{holds};
ghost use Rattle.cl_tx.specs.Nodes.{purse_of};
ghost use Rattle.cl_nodes.specs.Bounded.{IsWhole, costs_of};
ghost use Rattle.cl_engine.specs.Traces.{SeesAll};
ghost use Rattle.cl_engine.specs.Deploying.{EndsAs, Runs, evaluation_of};

use crate::ending::{cost_of, stop_of};
use crate::prepare::Prepared;
use cl_code::Watch;
use cl_events::Event;
use cl_frames::Abort;
use cl_keyed::HashKey;
use cl_nodes::{Contracts, failing, keep, meter_of};
use cl_runs::run_top_watched;
use cl_shapes::Cost5;
use cl_state::World;
use cl_tx::{Common, Stop};
use cl_types::{Fault, Name, NoMemory};
use cl_values::Val;
use indexmap::IndexMap;
use std::alloc::Global;

/// How the deployment of an accepted contract ran, and at what cost.
#[derive(Drop)]
pub(crate) enum Ran {
    Done {
        cost: Cost5,
        constants: IndexMap<Name, Val, HashKey>,
        events: Vec<Event>,
    },
    Stopped(Stop, Cost5),
}

/// Ends a deployment whose evaluation gave these constants: where a post-condition fails, it stops.
fn settle(
    alloc: Global,
    world: &mut World,
    common: &Common,
    constants: IndexMap<Name, Val, HashKey>,
    spent: Cost5,
) -> Result<Ran, NoMemory>
    requires { length world.old.stack.below ≡ 1 }
    ensures ended { IfOk result
        (λ ran. EndsAs (Ok constants)
        (holds world.old.stack.top.moves common.now.mode common.now.conditions) spent ran
        world.old.stack world.new.stack.top) }
    ensures base { world.new.stack.below ≡ [] }
    ensures refused { OnErr result (world.new.stack.top ∷ [] ≡ world.old.stack.below) }
{
    match failing(alloc, world, common) {
        None => {
            let events = keep(world)?;
            Ok(Ran::Done {
                cost: spent,
                constants,
                events,
            })
        }
        Some(index) => {
            world.drop_layer();
            Ok(Ran::Stopped(Stop::PostCondition { index }, spent))
        }
    }
}

/// Ends a deployment that was evaluated on a layer of its own, and what it has spent. The layer
/// becomes the base where the deployment is done, and is dropped where it stops.
fn finish(
    alloc: Global,
    world: &mut World,
    common: &Common,
    ended: Result<IndexMap<Name, Val, HashKey>, Fault<Abort>>,
    spent: Cost5,
) -> Result<Ran, NoMemory>
    requires { length world.old.stack.below ≡ 1 }
    ensures ended { IfOk result
        (λ ran. EndsAs ended (holds world.old.stack.top.moves common.now.mode common.now.conditions)
        spent ran world.old.stack world.new.stack.top) }
    ensures base { world.new.stack.below ≡ [] }
    ensures refused { OnErr result (world.new.stack.top ∷ [] ≡ world.old.stack.below) }
{
    match ended {
        Ok(constants) => settle(alloc, world, common, constants, spent),
        Err(Fault::Refused(abort)) => {
            world.drop_layer();
            Ok(Ran::Stopped(stop_of(abort), cost_of(abort, spent)))
        }
        Err(Fault::NoMemory) => {
            world.drop_layer();
            Err(NoMemory)
        }
    }
}

/// Evaluates the deployment of an accepted contract, on a layer of its own and under the limit of
/// the entry.
pub(crate) fn run<W: Watch>(
    alloc: Global,
    world: &mut World,
    contracts: &Contracts,
    common: &Common,
    prepared: &Prepared,
    watch: &mut W,
) -> Result<Ran, NoMemory>
    requires base { world.old.stack.below ≡ [] }
    requires whole { IsWhole contracts.now }
    requires accepted { IsAcceptedAfter (deployed_seen contracts.now.deployed)
        world.old.stack.top prepared.now.accepted.checked }
    requires home { prepared.now.accepted.checked.principal ≡ prepared.now.frame.contract }
    requires tokens { HasNoTokens prepared.now.frame.contract world.old.stack.top }
    ensures runs { IfOk result (λ ran. Runs common.now
        (limited (costs_of contracts.now) (purse_of common.now)
        (evaluation_of contracts.now prepared.now world.old))
        prepared.now.accepted.checked ran world.old.stack.top world.new.stack.top) }
    ensures base { world.new.stack.below ≡ [] }
    ensures refused { OnErr result (world.new.stack.top ≡ world.old.stack.top) }
    ensures seen { SeesAll (W.seen watch.old) (W.seen watch.new)
        (trace (costs_of contracts.now) (purse_of common.now)
        (evaluation_of contracts.now prepared.now world.old)) result }
{
    world.push_layer()?;
    let mut meter = meter_of(common);
    let ended = run_top_watched(
        alloc,
        world,
        &contracts.deployed,
        &prepared.accepted.checked,
        &prepared.frame,
        &contracts.table,
        &mut meter,
        watch,
    );
    finish(alloc, world, common, ended, meter.spent())
}
