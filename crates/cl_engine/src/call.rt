//! Calls.
ghost use Rattle.std.specs.Prelude.{◌≡◌, ◌<◌, ◌^◌, [], length, Some, IfOk, IfErr, OnErr};
ghost use Rattle.cl_meaning.specs.Limits.{limited};
ghost use Rattle.cl_contracts.specs.Seen.{deployed_seen};
ghost use Rattle.cl_frames.specs.Sound.{IsKeptWorld};
ghost use Rattle.cl_frames.specs.Watching.{trace};
ghost use Rattle.cl_values.specs.Typed.{AreOf};
ghost use Rattle.cl_node_sound.specs.Sound.{HasParts};
ghost use Rattle.cl_tx.specs.Nodes.{NodeSeen, call_ended, purse_of};
ghost use Rattle.cl_runs.specs.Called.{IsCalled, call_of, costs_of, types_of};
ghost use Rattle.cl_nodes.specs.Calling.{Comes, ended_so};
ghost use Rattle.cl_nodes.specs.Asked.{call_entry};
ghost use Rattle.cl_engine.specs.Asked.{Calls, IsCallable, IsReady, SeesCall};
ghost use Rattle.cl_engine.specs.Calling.{AreAccepted, EndsCall, GivesCall, IsCallRefusal, IsFound, SeesEnded};
ghost use Rattle.cl_engine.specs.Traces.{SeesAll};

use crate::ending::judge;
use crate::frame::frame_of;
use crate::lookup::{function_named, refusal_of};
use cl_code::{Function, Silent, Watch};
use cl_contract_sound::functions_are_named;
use cl_contracts::{Contract, Deployed};
use cl_node_sound::entries_come_to_something;
use cl_nodes::{BoundedContracts, Ended, Invocation, Moment, close, meter_of, peek};
use cl_runs::{Called, run_found};
use cl_state::World;
use cl_tx::{EntryRefusal, TxResult};
use cl_types::NoMemory;
use cl_values::Val;
use std::alloc::Global;

/// A function that is called, with its contract.
#[derive(Clone, Copy)]
pub(crate) struct Found<'a> {
    pub(crate) contract: &'a Contract,
    pub(crate) function: &'a Function,
}

/// The function that a call names, where it may be called with these values, or why not.
fn find<'a>(deployed: &'a Deployed, invocation: &Invocation) -> Result<Found<'a>, EntryRefusal>
    requires accepted { AreAccepted deployed.now }
    requires parts { HasParts (call_entry invocation.now) }
    ensures found { IfOk result (λ f. IsFound invocation.now deployed.now f) }
    ensures refused { IfErr result (λ r. IsCallRefusal invocation.now deployed.now r) }
{
    functions_are_named();
    let Some(contract) = deployed.find(invocation.contract) else {
        return Err(EntryRefusal::NoContract);
    };
    let Some(function) = function_named(contract, invocation.function) else {
        return Err(EntryRefusal::NoFunction);
    };
    match refusal_of(function, invocation.args) {
        Some(refusal) => Err(refusal),
        None => Ok(Found { contract, function }),
    }
}

fn copy_all(alloc: Global, args: &[Val]) -> Result<Vec<Val>, NoMemory>
    ensures { IfOk result (λ v. v.items ≡ args.now) }
{
    let mut copies = Vec::new(alloc);
    for arg in args {
        copies.push(arg.copy(alloc)?)?;
    }
    Ok(copies)
}

/// Applies a function to the values of a call, on the top layer and under the limit of the entry.
fn apply<W: Watch>(
    called: &Called,
    invocation: &Invocation,
    world: &mut World,
    watch: &mut W,
) -> Result<Ended, NoMemory>
    requires called { IsCalled called.now }
    requires few { length invocation.now.args.now < 2 ^ 32 }
    requires kept { IsKeptWorld (deployed_seen called.now.deployed.now) world.old.stack.top }
    requires fitting { AreOf invocation.now.args.now (types_of called.now) }
    requires comes { Comes invocation.now.common.now called.now.function.now.access
        (limited (costs_of called.now) (purse_of invocation.now.common.now)
        (call_of called.now invocation.now.args.now world.old)) }
    ensures ended { IfOk result (λ e. (node : NodeSeen) →
        call_ended invocation.now.common.now called.now.function.now.access node
        (limited (costs_of called.now) (purse_of invocation.now.common.now)
        (call_of called.now invocation.now.args.now world.old))
        ≡ Some (ended_so e node world.new.stack.top)) }
    ensures below { world.new.stack.below ≡ world.old.stack.below }
    ensures seen { SeesAll (W.seen watch.old) (W.seen watch.new)
        (trace (costs_of called.now) (purse_of invocation.now.common.now)
        (call_of called.now invocation.now.args.now world.old)) result }
{
    let args = copy_all(called.alloc, invocation.args)?;
    let mut meter = meter_of(invocation.common);
    let answer = run_found(called, args, world, &mut meter, watch);
    judge(
        called.alloc,
        world,
        invocation.common,
        called.function.access,
        answer,
        meter.spent(),
    )
}

/// Evaluates a call on the top layer.
fn evaluate<W: Watch>(
    alloc: Global,
    world: &mut World,
    contracts: &BoundedContracts,
    moment: &Moment,
    invocation: &Invocation,
    watch: &mut W,
) -> Result<Ended, NoMemory>
    requires callable { IsCallable contracts.now moment.now }
    requires ready { IsReady world.old contracts.now.deployed.now moment.now
        (call_entry invocation.now) }
    ensures ended { IfOk result
        (λ e. EndsCall invocation.now moment.now contracts.now world.old e world.new) }
    ensures below { world.new.stack.below ≡ world.old.stack.below }
    ensures seen { SeesEnded invocation.now moment.now contracts.now world.old result
        (W.seen watch.old) (W.seen watch.new) }
{
    entries_come_to_something();
    let found = match find(contracts.deployed, invocation) {
        Ok(found) => found,
        Err(refusal) => return Ok(Ended::of_refusal(refusal)),
    };
    let over = contracts
        .bounds
        .over(invocation.contract, &found.function.name);
    if let Some(dimension) = over {
        return Ok(Ended::of_refusal(EntryRefusal::NoBound(dimension)));
    }
    let frame = frame_of(invocation.common, invocation.contract, moment.height);
    let called = Called {
        alloc,
        deployed: contracts.deployed,
        contract: found.contract,
        function: found.function,
        frame: &frame,
        costs: moment.costs,
    };
    apply(&called, invocation, world, watch)
}

/// Calls a function of a deployed contract with these values, or says why not.
pub(crate) fn call<W: Watch>(
    alloc: Global,
    world: &mut World,
    contracts: &BoundedContracts,
    moment: &Moment,
    invocation: &Invocation,
    watch: &mut W,
) -> Result<TxResult, NoMemory>
    requires base { world.old.stack.below ≡ [] }
    requires callable { IsCallable contracts.now moment.now }
    requires ready { IsReady world.old contracts.now.deployed.now moment.now
        (call_entry invocation.now) }
    ensures steps { IfOk result
        (λ r. Calls invocation.now moment.now contracts.now world.old r world.new) }
    ensures base { world.new.stack.below ≡ [] }
    ensures refused { OnErr result (world.new.stack.top ≡ world.old.stack.top) }
    ensures seen { SeesCall invocation.now moment.now contracts.now world.old result
        (W.seen watch.old) (W.seen watch.new) }
{
    world.push_layer()?;
    match evaluate(alloc, world, contracts, moment, invocation, watch) {
        Ok(ended) => close(alloc, world, ended),
        Err(NoMemory) => {
            world.drop_layer();
            Err(NoMemory)
        }
    }
}

/// The result of a call. What it changes is undone.
pub(crate) fn try_call(
    alloc: Global,
    world: &mut World,
    contracts: &BoundedContracts,
    moment: &Moment,
    invocation: &Invocation,
) -> Result<TxResult, NoMemory>
    requires base { world.old.stack.below ≡ [] }
    requires callable { IsCallable contracts.now moment.now }
    requires ready { IsReady world.old contracts.now.deployed.now moment.now
        (call_entry invocation.now) }
    ensures gives { IfOk result
        (λ r. GivesCall invocation.now moment.now contracts.now world.old r) }
    ensures same { world.new.stack ≡ world.old.stack }
{
    let mut nobody = Silent;
    world.push_layer()?;
    match evaluate(alloc, world, contracts, moment, invocation, &mut nobody) {
        Ok(ended) => peek(alloc, world, ended),
        Err(NoMemory) => {
            world.drop_layer();
            Err(NoMemory)
        }
    }
}
