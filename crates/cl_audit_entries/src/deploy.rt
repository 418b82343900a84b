//! Deployments.
ghost use Rattle.std.specs.Prelude.{◌≡◌, ◌<◌, ◌++◌, ◌∷◌, [], Some, None, IfOk, OnErr};
ghost use Rattle.cl_meaning.specs.Deployed.{contract_at};
ghost use Rattle.cl_newness.specs.Newness.{HasNoTokens};
ghost use Rattle.cl_tx.specs.Nodes.{result_of};
ghost use Rattle.cl_nodes.specs.Accepting.{told_seen};
ghost use Rattle.cl_nodes.specs.Asked.{deployment_entry, text_in};
ghost use Rattle.cl_nodes.specs.Bounded.{HasRoom, IsWhole, costs_of, entries_of};
ghost use Rattle.cl_audit_steps.specs.Seen.{contracts_seen, frame_seen};
ghost use Rattle.cl_audit_entries.specs.Deploying.{AgreesWithEntry, DeploymentComes, Deploys, EvaluatesAs, IsAddable, IsCheckedAfter, IsReadAs, IsUnchanged, evaluation_left, result_after, texts_after};
ghost use Rattle.cl_audit_entries.specs.Seen.{AreThose, IsFresh, IsReady};

use crate::deployment::{Ended, Ran, run_deployment};
use crate::forms::contract_of;
use crate::frame::{frame_of, scope_over};
use crate::node::{Audited, of_nothing};
use cl_audit_steps::{Contract, ContractTable, Scope};
use cl_audit_walk::Run;
use cl_contracts::what_callers_know;
use cl_events::Event;
use cl_node_sound::{entries_come_to_something, new_contracts_have_no_tokens};
use cl_nodes::{Accepted, Contracts, Deployment, Moment, Told, accept, principal_of, refused};
use cl_rules::{texts_have_one_answer, texts_have_one_order};
use cl_shapes::Cost5;
use cl_tx::{Outcome, Row, TxResult};
use cl_types::{Fault, NoMemory};
use indexmap::IndexMap;
use std::alloc::Global;

/// A contract whose deployment was evaluated, with the values of its constants, and how it ended.
#[derive(Drop)]
pub(crate) struct Evaluated {
    pub(crate) contract: Contract,
    pub(crate) ended: Ended,
}

/// The result of an evaluated deployment.
fn result(alloc: Global, told: Told, outcome: Outcome, cost: Cost5, events: Vec<Event>) -> TxResult
    ensures { result ≡ result_of (told_seen told) outcome (Some cost) events.items }
{
    TxResult {
        outcome,
        cost: Some(cost),
        bounds: Some(told.bounds),
        types: told.types,
        events: Row::new(events),
        rebounds: Row::new(Vec::new(alloc)),
    }
}

/// Evaluates the deployment of a contract that is accepted, after the deployed ones.
fn evaluate(
    run: &mut Run,
    scope: &Scope,
    deployment: &Deployment,
    accepted: &Accepted,
) -> Result<Evaluated, NoMemory>
    requires base { run.old.world.stack.below ≡ [] }
    requires fresh { IsFresh run.old.cursor }
    requires read { IsReadAs (text_in deployment.now) accepted.now.checked }
    requires tokens { HasNoTokens accepted.now.checked.principal run.old.world.stack.top }
    requires comes { DeploymentComes deployment.now.common.now
        (evaluation_left scope.now.costs.now scope.now.contracts.now.contracts
        (frame_seen scope.now.frame.now) deployment.now accepted.now run.old) }
    ensures evaluated { IfOk result (λ e. EvaluatesAs scope.now.costs.now scope.now.contracts.now.contracts
        (frame_seen scope.now.frame.now) deployment.now accepted.now run.old e run.new) }
    ensures base { run.new.world.stack.below ≡ [] }
    ensures refused { OnErr result (run.new.world.stack.top ≡ run.old.world.stack.top) }
{
    accepted.checked.is_well_formed();
    let own = accepted.checked.parts();
    let mut contract = contract_of(scope.alloc, deployment, own)?;
    let order = own.order.as_slice();
    let ended = run_deployment(run, scope, &mut contract, order, deployment.common)?;
    Ok(Evaluated { contract, ended })
}

/// Keeps a contract whose deployment is done. The checker needs no values of its constants.
fn finish(
    alloc: Global,
    contracts: &mut Contracts,
    texts: &mut ContractTable,
    accepted: Accepted,
    evaluated: Evaluated,
) -> Audited
    requires whole { IsWhole contracts.old }
    requires room { HasRoom contracts.old }
    requires spare { 0 < texts.old.room }
    requires addable { IsAddable contracts.old accepted }
    requires new { contract_at evaluated.contract.principal (contracts_seen texts.old.contracts)
        ≡ None }
    ensures whole { IsWhole contracts.new }
    ensures result { result.result ≡ result_after accepted evaluated.ended.ran }
    ensures agreement { result.agreement ≡ evaluated.ended.agreement }
    ensures texts { texts.new.contracts
        ≡ texts_after texts.old.contracts evaluated.contract evaluated.ended.ran }
    ensures checked { IsCheckedAfter (entries_of contracts.old) accepted evaluated.ended.ran
        (entries_of contracts.new) }
{
    let Accepted {
        checked,
        told,
        bounds,
    } = accepted;
    let Evaluated { contract, ended } = evaluated;
    let Ended { ran, agreement } = ended;
    match ran {
        Ran::Done { cost, events } => {
            let constants = IndexMap::with_hasher(alloc, checked.hash_key());
            contracts.add(checked, constants, bounds);
            texts.push(contract);
            Audited {
                result: result(alloc, told, Outcome::Done, cost, events),
                agreement,
            }
        }
        Ran::Stopped(why, cost) => Audited {
            result: result(alloc, told, Outcome::Aborted(why), cost, Vec::new(alloc)),
            agreement,
        },
    }
}

/// Deploys a contract for which there is room, or says why not.
fn deploy_in_room(
    alloc: Global,
    run: &mut Run,
    contracts: &mut Contracts,
    texts: &mut ContractTable,
    moment: &Moment,
    deployment: &Deployment,
) -> Result<Audited, NoMemory>
    requires base { run.old.world.stack.below ≡ [] }
    requires fresh { IsFresh run.old.cursor }
    requires whole { IsWhole contracts.old }
    requires room { HasRoom contracts.old }
    requires spare { 0 < texts.old.room }
    requires table { contracts.old.table ≡ moment.now.costs.now }
    requires ready { IsReady run.old texts.old.contracts contracts.old.deployed moment.now.height
        (deployment_entry deployment.now) }
    ensures steps { IfOk result (λ audited. Deploys deployment.now moment.now run.old texts.old.contracts
        contracts.old audited.result run.new texts.new.contracts contracts.new) }
    ensures agrees { IfOk result (λ audited. AgreesWithEntry deployment.now moment.now run.old
        texts.old.contracts contracts.old audited) }
    ensures base { run.new.world.stack.below ≡ [] }
    ensures whole { IsWhole contracts.new }
    ensures those { IfOk result (λ _. AreThose texts.new.contracts contracts.new.deployed) }
    ensures refused { OnErr result (IsUnchanged run.old texts.old.contracts contracts.old run.new
        texts.new.contracts contracts.new) }
{
    entries_come_to_something();
    new_contracts_have_no_tokens();
    texts_have_one_answer();
    texts_have_one_order();
    what_callers_know();
    let accepted = match accept(alloc, contracts, deployment) {
        Ok(accepted) => accepted,
        Err(Fault::Refused(refusal)) => return Ok(of_nothing(run, refused(alloc, refusal))),
        Err(Fault::NoMemory) => return Err(NoMemory),
    };
    let principal = principal_of(deployment.common, deployment.name);
    let frame = frame_of(deployment.common, &principal, moment.height);
    let scope = scope_over(alloc, texts, &frame, moment.costs);
    let evaluated = evaluate(run, &scope, deployment, &accepted)?;
    Ok(finish(alloc, contracts, texts, accepted, evaluated))
}

/// Audits the deployment of a contract under the sender's address, or says why it isn't made.
pub(crate) fn deploy(
    alloc: Global,
    run: &mut Run,
    contracts: &mut Contracts,
    texts: &mut ContractTable,
    moment: &Moment,
    deployment: &Deployment,
) -> Result<Audited, NoMemory>
    requires base { run.old.world.stack.below ≡ [] }
    requires fresh { IsFresh run.old.cursor }
    requires whole { IsWhole contracts.old }
    requires table { contracts.old.table ≡ moment.now.costs.now }
    requires ready { IsReady run.old texts.old.contracts contracts.old.deployed moment.now.height
        (deployment_entry deployment.now) }
    ensures steps { IfOk result (λ audited. Deploys deployment.now moment.now run.old texts.old.contracts
        contracts.old audited.result run.new texts.new.contracts contracts.new) }
    ensures agrees { IfOk result (λ audited. AgreesWithEntry deployment.now moment.now run.old
        texts.old.contracts contracts.old audited) }
    ensures base { run.new.world.stack.below ≡ [] }
    ensures whole { IsWhole contracts.new }
    ensures those { IfOk result (λ _. AreThose texts.new.contracts contracts.new.deployed) }
    ensures refused { OnErr result (IsUnchanged run.old texts.old.contracts contracts.old run.new
        texts.new.contracts contracts.new) }
{
    contracts.reserve()?;
    texts.reserve()?;
    deploy_in_room(alloc, run, contracts, texts, moment, deployment)
}
