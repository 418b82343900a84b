//! Deployments.
ghost use Rattle.std.specs.Prelude.{◌≡◌, [], IfOk, OnErr};
ghost use Rattle.cl_tx.specs.Nodes.{result_of};
ghost use Rattle.cl_nodes.specs.Bounded.{HasRoom, IsWhole, entries_of};
ghost use Rattle.cl_nodes.specs.Asked.{deployment_entry};
ghost use Rattle.cl_engine.specs.Asked.{Deploys, IsReady, IsUnchanged, SeesDeployment};
ghost use Rattle.cl_nodes.specs.Accepting.{told_seen};
ghost use Rattle.cl_engine.specs.Deploying.{IsAddable, entries_after, result_after};

use crate::deployment::{Ran, run};
use crate::prepare::{Prepared, prepare};
use cl_code::Watch;
use cl_contracts::what_callers_know;
use cl_events::Event;
use cl_node_sound::{constants_have_their_types, new_contracts_have_no_tokens};
use cl_nodes::{Accepted, Contracts, Deployment, Moment, Told, refused};
use cl_rules::{texts_have_one_answer, texts_have_one_order};
use cl_shapes::Cost5;
use cl_state::World;
use cl_tx::{Outcome, Row, TxResult};
use cl_types::{Fault, NoMemory};
use std::alloc::Global;

/// The result of an evaluated deployment.
fn result(alloc: Global, told: Told, outcome: Outcome, cost: Cost5, events: Vec<Event>) -> TxResult
    ensures { result ≡ result_of (told_seen told) outcome (Some cost) events.items }
{
    TxResult {
        outcome,
        cost: Some(cost),
        bounds: Some(told.bounds),
        types: told.types,
        events: Row::new(events),
        rebounds: Row::new(Vec::new(alloc)),
    }
}

/// Adds a contract whose deployment is done.
fn finish(alloc: Global, contracts: &mut Contracts, accepted: Accepted, ran: Ran) -> TxResult
    requires whole { IsWhole contracts.old }
    requires room { HasRoom contracts.old }
    requires addable { IsAddable contracts.old accepted ran }
    ensures whole { IsWhole contracts.new }
    ensures result { result ≡ result_after accepted ran }
    ensures added { entries_of contracts.new
        ≡ entries_after (entries_of contracts.old) accepted ran }
{
    let Accepted {
        checked,
        told,
        bounds,
    } = accepted;
    match ran {
        Ran::Done {
            cost,
            constants,
            events,
        } => {
            contracts.add(checked, constants, bounds);
            result(alloc, told, Outcome::Done, cost, events)
        }
        Ran::Stopped(why, cost) => {
            result(alloc, told, Outcome::Aborted(why), cost, Vec::new(alloc))
        }
    }
}

/// Deploys a contract for which there is room, or says why not.
fn deploy_in_room<W: Watch>(
    alloc: Global,
    world: &mut World,
    contracts: &mut Contracts,
    moment: &Moment,
    deployment: &Deployment,
    watch: &mut W,
) -> Result<TxResult, NoMemory>
    requires base { world.old.stack.below ≡ [] }
    requires room { HasRoom contracts.old }
    requires whole { IsWhole contracts.old }
    requires table { contracts.old.table ≡ moment.now.costs.now }
    requires ready { IsReady world.old contracts.old.deployed moment.now
        (deployment_entry deployment.now) }
    ensures steps { IfOk result
        (λ r. Deploys deployment.now moment.now world.old contracts.old r world.new contracts.new) }
    ensures base { world.new.stack.below ≡ [] }
    ensures whole { IsWhole contracts.new }
    ensures refused { OnErr result (IsUnchanged world.old contracts.old world.new contracts.new) }
    ensures seen { SeesDeployment deployment.now moment.now world.old contracts.old result
        (W.seen watch.old) (W.seen watch.new) }
{
    constants_have_their_types();
    new_contracts_have_no_tokens();
    texts_have_one_answer();
    texts_have_one_order();
    what_callers_know();
    let prepared = match prepare(alloc, contracts, moment, deployment) {
        Ok(prepared) => prepared,
        Err(Fault::Refused(refusal)) => return Ok(refused(alloc, refusal)),
        Err(Fault::NoMemory) => return Err(NoMemory),
    };
    let common = deployment.common;
    let ran = run(alloc, world, contracts, common, &prepared, watch)?;
    let Prepared { accepted, frame: _ } = prepared;
    Ok(finish(alloc, contracts, accepted, ran))
}

/// Deploys a contract under the sender's address, or says why not.
pub(crate) fn deploy<W: Watch>(
    alloc: Global,
    world: &mut World,
    contracts: &mut Contracts,
    moment: &Moment,
    deployment: &Deployment,
    watch: &mut W,
) -> Result<TxResult, NoMemory>
    requires base { world.old.stack.below ≡ [] }
    requires whole { IsWhole contracts.old }
    requires table { contracts.old.table ≡ moment.now.costs.now }
    requires ready { IsReady world.old contracts.old.deployed moment.now
        (deployment_entry deployment.now) }
    ensures steps { IfOk result
        (λ r. Deploys deployment.now moment.now world.old contracts.old r world.new contracts.new) }
    ensures base { world.new.stack.below ≡ [] }
    ensures whole { IsWhole contracts.new }
    ensures refused { OnErr result (IsUnchanged world.old contracts.old world.new contracts.new) }
    ensures seen { SeesDeployment deployment.now moment.now world.old contracts.old result
        (W.seen watch.old) (W.seen watch.new) }
{
    contracts.reserve()?;
    deploy_in_room(alloc, world, contracts, moment, deployment, watch)
}
