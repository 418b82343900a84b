//! The evaluation of deployments.
ghost use Rattle.std.specs.Prelude.{◌≡◌, ◌∷◌, [], Ok, length, IfOk, OnErr};
ghost use Rattle.cl_newness.specs.Newness.{HasNoTokens};
ghost use Rattle.cl_post.specs.Post.{holds};
ghost use Rattle.cl_audit_steps.specs.Seen.{contract_seen};
ghost use Rattle.cl_audit_deploy.specs.Deploying.{without_values};
ghost use Rattle.cl_audit_entries.specs.Deploying.{AgreesWithDeployment, DeploymentComes, EndsAs, IsOpened, MayStop, Runs, deployment_left};
ghost use Rattle.cl_audit_entries.specs.Seen.{IsFresh};

use crate::endings::stop_of;
use cl_audit::Agreement;
use cl_audit_deploy::{DeploymentAudit, audit_deployment};
use cl_audit_steps::{Contract, Scope};
use cl_audit_walk::Run;
use cl_events::Event;
use cl_nodes::{failing, keep, meter_of};
use cl_shapes::Cost5;
use cl_state::World;
use cl_tx::{Common, Stop as Aborts};
use cl_types::NoMemory;
use cl_walks::Stop;
use std::alloc::Global;

/// How the deployment of an accepted contract ran, and at what cost.
#[derive(Drop)]
pub(crate) enum Ran {
    Done { cost: Cost5, events: Vec<Event> },
    Stopped(Aborts, Cost5),
}

/// The same, and whether the claims are those of its trace.
#[derive(Drop)]
pub(crate) struct Ended {
    pub(crate) ran: Ran,
    pub(crate) agreement: Agreement,
}

/// Ends a deployment that is done: where a post-condition fails, it stops.
fn settle(alloc: Global, world: &mut World, common: &Common, spent: Cost5) -> Result<Ran, NoMemory>
    requires { length world.old.stack.below ≡ 1 }
    ensures ended { IfOk result
        (λ ran. EndsAs (Ok tt)
        (holds world.old.stack.top.moves common.now.mode common.now.conditions) spent ran
        world.old.stack world.new.stack.top) }
    ensures base { world.new.stack.below ≡ [] }
    ensures refused { OnErr result (world.new.stack.top ∷ [] ≡ world.old.stack.below) }
{
    match failing(alloc, world, common) {
        None => {
            let events = keep(world)?;
            Ok(Ran::Done {
                cost: spent,
                events,
            })
        }
        Some(index) => {
            world.drop_layer();
            Ok(Ran::Stopped(Aborts::PostCondition { index }, spent))
        }
    }
}

/// Ends a deployment that stopped: what it did is undone.
fn stopped(world: &mut World, why: Aborts, cost: Cost5) -> Ran
    requires { length world.old.stack.below ≡ 1 }
    ensures ran { result ≡ Ran.Stopped why cost }
    ensures base { world.new.stack.below ≡ [] }
    ensures undone { world.new.stack.top ∷ [] ≡ world.old.stack.below }
{
    world.drop_layer();
    Ran::Stopped(why, cost)
}

/// Ends a deployment that was evaluated on a layer of its own, and what it has spent. The layer
/// becomes the base where the deployment is done, and is dropped where it stops.
fn finish(
    alloc: Global,
    world: &mut World,
    common: &Common,
    end: Result<(), Stop>,
    spent: Cost5,
) -> Result<Ran, NoMemory>
    requires layer { length world.old.stack.below ≡ 1 }
    requires stops { MayStop end }
    ensures ended { IfOk result
        (λ ran. EndsAs end
        (holds world.old.stack.top.moves common.now.mode common.now.conditions) spent ran
        world.old.stack world.new.stack.top) }
    ensures base { world.new.stack.below ≡ [] }
    ensures refused { OnErr result (world.new.stack.top ∷ [] ≡ world.old.stack.below) }
{
    match end {
        Ok(()) => settle(alloc, world, common, spent),
        Err(Stop::Thrown(_)) => Ok(stopped(world, Aborts::EarlyTop, spent)),
        Err(Stop::Aborted(why)) => Ok(stopped(world, stop_of(why), spent)),
        Err(Stop::CostLimit(over)) => {
            Ok(stopped(world, Aborts::CostLimit(over), over.attempted))
        }
        Err(Stop::Stuck) => unreachable!(),
        Err(Stop::NoMemory) => {
            world.drop_layer();
            Err(NoMemory)
        }
    }
}

/// Evaluates the deployment of an accepted contract, on a layer of its own and under the limit of
/// the entry. After it the contract has the values of its constants.
pub(crate) fn run_deployment(
    run: &mut Run,
    scope: &Scope,
    contract: &mut Contract,
    order: &[usize],
    common: &Common,
) -> Result<Ended, NoMemory>
    requires base { run.old.world.stack.below ≡ [] }
    requires fresh { IsFresh run.old.cursor }
    requires opened { IsOpened contract.old order.now }
    requires tokens { HasNoTokens contract.old.principal run.old.world.stack.top }
    requires comes { DeploymentComes common.now
        (deployment_left scope.now common.now contract.old run.old) }
    ensures runs { IfOk result (λ ended. Runs scope.now common.now contract.old ended.ran
        run.old contract.new run.new) }
    ensures agrees { IfOk result (λ ended. AgreesWithDeployment scope.now common.now contract.old
        run.old ended.agreement) }
    ensures same { without_values (contract_seen contract.new)
        ≡ without_values (contract_seen contract.old) }
    ensures base { run.new.world.stack.below ≡ [] }
    ensures refused { OnErr result (run.new.world.stack.top ≡ run.old.world.stack.top) }
{
    run.world.push_layer()?;
    run.meter = meter_of(common);
    let DeploymentAudit { end, agreement } = audit_deployment(run, scope, contract, order);
    let spent = run.meter.spent();
    let ran = finish(scope.alloc, &mut run.world, common, end, spent)?;
    Ok(Ended { ran, agreement })
}
