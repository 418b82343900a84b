//! Calls.
ghost use Rattle.std.specs.Prelude.{◌≡◌, [], false, Some, None, IfOk, OnErr};
ghost use Rattle.cl_tx.specs.Nodes.{NodeSeen, call_ended};
ghost use Rattle.cl_nodes.specs.Asked.{call_entry};
ghost use Rattle.cl_nodes.specs.Calling.{Comes, ended_so};
ghost use Rattle.cl_audit.specs.Agrees.{IsAgreement};
ghost use Rattle.cl_audit_entries.specs.Calling.{AgreesWithCall, Calls, EndsCall, IsAround, IsCallable, call_limited, call_told};
ghost use Rattle.cl_audit_entries.specs.Seen.{IsFresh, IsReady};

use crate::endings::judge;
use crate::lookup::refusal_of;
use crate::node::Audited;
use cl_audit::{Agreement, Audit, agreement_of, audit_call};
use cl_audit_steps::{Function, Scope};
use cl_audit_walk::Run;
use cl_contract_sound::functions_are_named;
use cl_node_sound::entries_come_to_something;
use cl_nodes::{BoundedContracts, Ended, Invocation, close, meter_of};
use cl_tx::{EntryRefusal, Outcome};
use cl_types::{Name, NoMemory};

/// How a call ends on its layer, and whether the claims are those of its trace.
#[derive(Drop)]
pub(crate) struct Called {
    pub(crate) ended: Ended,
    pub(crate) agreement: Agreement,
}

/// The end of a call that isn't run, which has the empty trace.
fn of_refusal(run: &Run, refusal: EntryRefusal) -> Called
    requires { IsFresh run.now.cursor }
    ensures ended { result.ended
        ≡ record { outcome = Outcome.Refused refusal; cost = None; kept = false } }
    ensures agrees { IsAgreement [] run.now.cursor.claims.now result.agreement }
{
    Called {
        ended: Ended::of_refusal(refusal),
        agreement: agreement_of(&run.cursor),
    }
}

/// Applies a function to the values of a call, on the top layer and under the limit of the entry.
fn apply(
    run: &mut Run,
    scope: &Scope,
    function: &Function,
    invocation: &Invocation,
) -> Result<Called, NoMemory>
    requires fresh { IsFresh run.old.cursor }
    requires comes { Comes invocation.now.common.now function.now.access
        (call_limited scope.now function.now invocation.now run.old) }
    ensures ended { IfOk result (λ called. (node : NodeSeen) →
        call_ended invocation.now.common.now function.now.access node
        (call_limited scope.now function.now invocation.now run.old)
        ≡ Some (ended_so called.ended node run.new.world.stack.top)) }
    ensures agrees { IfOk result (λ called. IsAgreement
        (call_told scope.now function.now invocation.now run.old)
        run.old.cursor.claims.now called.agreement) }
    ensures below { run.new.world.stack.below ≡ run.old.world.stack.below }
{
    run.meter = meter_of(invocation.common);
    let Audit { end, agreement } = audit_call(run, scope, function, invocation.args);
    let ended = judge(
        scope.alloc,
        &run.world,
        invocation.common,
        function.access,
        end,
        run.meter.spent(),
    )?;
    Ok(Called { ended, agreement })
}

/// Evaluates a call in its surroundings, on the top layer, or says why not.
fn evaluate(
    run: &mut Run,
    scope: &Scope,
    contracts: &BoundedContracts,
    invocation: &Invocation,
) -> Result<Called, NoMemory>
    requires around { IsAround scope.now invocation.now }
    requires fresh { IsFresh run.old.cursor }
    requires callable { IsCallable contracts.now scope.now.costs.now }
    requires ready { IsReady run.old scope.now.contracts.now.contracts contracts.now.deployed.now
        scope.now.frame.now.height (call_entry invocation.now) }
    ensures ended { IfOk result (λ called. EndsCall invocation.now scope.now.costs.now
        scope.now.frame.now.height scope.now.contracts.now.contracts contracts.now run.old called run.new) }
    ensures below { run.new.world.stack.below ≡ run.old.world.stack.below }
{
    entries_come_to_something();
    functions_are_named();
    let Some(contract) = scope.home() else {
        return Ok(of_refusal(run, EntryRefusal::NoContract));
    };
    let Some(name) = Name::make(invocation.function) else {
        return Ok(of_refusal(run, EntryRefusal::NoFunction));
    };
    let Some(function) = contract.function(&name) else {
        return Ok(of_refusal(run, EntryRefusal::NoFunction));
    };
    if let Some(refusal) = refusal_of(&function, invocation.args) {
        return Ok(of_refusal(run, refusal));
    }
    if let Some(dimension) = contracts.bounds.over(invocation.contract, &name) {
        return Ok(of_refusal(run, EntryRefusal::NoBound(dimension)));
    }
    apply(run, scope, &function, invocation)
}

/// Audits a call of a function of a deployed contract, or says why it isn't made.
pub(crate) fn call(
    run: &mut Run,
    scope: &Scope,
    contracts: &BoundedContracts,
    invocation: &Invocation,
) -> Result<Audited, NoMemory>
    requires base { run.old.world.stack.below ≡ [] }
    requires around { IsAround scope.now invocation.now }
    requires fresh { IsFresh run.old.cursor }
    requires callable { IsCallable contracts.now scope.now.costs.now }
    requires ready { IsReady run.old scope.now.contracts.now.contracts contracts.now.deployed.now
        scope.now.frame.now.height (call_entry invocation.now) }
    ensures steps { IfOk result (λ audited. Calls invocation.now scope.now.costs.now
        scope.now.frame.now.height scope.now.contracts.now.contracts contracts.now
        run.old audited.result run.new) }
    ensures agrees { IfOk result (λ audited. AgreesWithCall invocation.now scope.now.costs.now
        scope.now.frame.now.height scope.now.contracts.now.contracts contracts.now run.old audited) }
    ensures base { run.new.world.stack.below ≡ [] }
    ensures refused { OnErr result (run.new.world.stack.top ≡ run.old.world.stack.top) }
{
    run.world.push_layer()?;
    match evaluate(run, scope, contracts, invocation) {
        Ok(called) => {
            let Called { ended, agreement } = called;
            let result = close(scope.alloc, &mut run.world, ended)?;
            Ok(Audited { result, agreement })
        }
        Err(NoMemory) => {
            run.world.drop_layer();
            Err(NoMemory)
        }
    }
}
