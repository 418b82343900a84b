//! Calls from outside.
ghost use Rattle.std.specs.Prelude.{◌≡◌, ◌≢◌, ◌<◌, ◌≤◌, length, IfOk};
ghost use Rattle.cl_types.specs.Fault.{IfRefused};
ghost use Rattle.cl_costs.specs.Tables.{function_of as cost_function};
ghost use Rattle.cl_contracts.specs.Seen.{deployed_seen};
ghost use Rattle.cl_meaning.specs.Answers.{with_known};
ghost use Rattle.cl_meaning.specs.Deployed.{contract_at, function_of};
ghost use Rattle.cl_meaning.specs.Limits.{limited};
ghost use Rattle.cl_meaning.specs.Top.{call_from};
ghost use Rattle.cl_frames.specs.Aborts.{Answers};
ghost use Rattle.cl_frames.specs.Homes.{frame_seen};
ghost use Rattle.cl_frames.specs.Sound.{IsFittingCall, IsKeptWorld, IsReturnOf, SpendsWithin};
ghost use Rattle.cl_frames.specs.Watching.{Ends, Tells, amount, trace, watched};
ghost use Rattle.cl_values.specs.Typed.{AreOf};
ghost use Rattle.cl_runs.specs.Called.{IsCalled, IsReturned, SpendsForCall, call_of, costs_of, types_of};

use cl_calls::is_valid;
use cl_code::{Function, Silent, Watch};
use cl_contract_sound::{
    charges_stay_within_bounds, functions_are_sound, limits_leave_sound_answers,
};
use cl_contracts::{Contract, Deployed};
use cl_costs::CostTable;
use cl_eval::enter;
use cl_frames::{Abort, Context, Frame, Home, Stop, fault};
use cl_shapes::Meter;
use cl_state::World;
use cl_types::{Fault, Name};
use cl_values::Val;
use std::alloc::Global;

/// How deep an evaluation goes, calls included.
pub(crate) const MOST_DEPTH: u32 = 256;

/// A function that is called, with its contract, the deployed contracts, where its body is evaluated,
/// and what is charged for what.
#[derive(Clone, Copy)]
pub struct Called<'a> {
    /// Where memory comes from.
    pub alloc: Global,
    pub deployed: &'a Deployed,
    /// The contract that is deployed under the frame's principal.
    pub contract: &'a Contract,
    /// A function of this contract.
    pub function: &'a Function,
    pub frame: &'a Frame,
    pub costs: &'a CostTable,
}

fn enter_called<W: Watch>(
    called: &Called,
    args: Vec<Val>,
    world: &mut World,
    meter: &mut Meter,
    watch: &mut W,
) -> Result<Val, Stop>
    requires called { IsCalled called.now }
    requires few { length args.items < 4294967296 }
    ensures meant { Ends (watched (costs_of called.now) meter.old (W.seen watch.old)
        (call_of called.now args.items world.old))
        result meter.new (W.seen watch.new) world.new.stack.top }
    ensures below { world.new.stack.below ≡ world.old.stack.below }
    ensures grew { amount (W.seen watch.old) ≤ amount (W.seen watch.new) }
{
    let context = Context {
        alloc: called.alloc,
        deployed: called.deployed,
        opening: None,
        home: Home {
            checked: called.contract.checked(),
            constants: called.contract.constants(),
        },
        frame: called.frame,
        costs: called.costs,
    };
    enter(
        &context,
        called.function,
        args,
        MOST_DEPTH,
        world,
        meter,
        watch,
    )
}

/// Calls a function that was found with values of its parameters' types. What it does is done to the
/// top state of the world, and charged to the meter. Where a public function answers err, the state
/// is as before and the charges stay. It never aborts by `EarlyTop`. What it answers is of the
/// function's return type, and the state that it leaves is kept. Whatever it answers, what is charged
/// is within the function's bound; after want of memory nothing is. `watch` is given the value of
/// each node that gives one, in the order in which they end; where the limit stops the call, of the
/// nodes before that charge; after want of memory, of the first of them.
pub fn run_found<W: Watch>(
    called: &Called,
    args: Vec<Val>,
    world: &mut World,
    meter: &mut Meter,
    watch: &mut W,
) -> Result<Val, Fault<Abort>>
    requires called { IsCalled called.now }
    requires kept { IsKeptWorld (deployed_seen called.now.deployed.now) world.old.stack.top }
    requires fitting { AreOf args.items (types_of called.now) }
    requires few { length args.items < 4294967296 }
    ensures meant { Answers (limited (costs_of called.now) meter.old
        (call_of called.now args.items world.old)) result meter.new world.new.stack.top }
    ensures returned { IfRefused result (λ abort. abort ≢ Abort.EarlyTop) }
    ensures typed { IfOk result (λ value. IsReturned called.now value) }
    ensures kept { IfOk result
        (λ _. IsKeptWorld (deployed_seen called.now.deployed.now) world.new.stack.top) }
    ensures within { SpendsForCall called.now meter.old meter.new }
    ensures memory { result ≡ Err Fault.NoMemory → meter.new ≡ meter.old }
    ensures below { world.new.stack.below ≡ world.old.stack.below }
    ensures seen { Tells (W.seen watch.old) (W.seen watch.new)
        (trace (costs_of called.now) meter.old (call_of called.now args.items world.old)) result }
{
    functions_are_sound();
    limits_leave_sound_answers();
    charges_stay_within_bounds();
    is_valid(called.frame);
    let before = meter.copy();
    match enter_called(called, args, world, meter, watch) {
        Ok(value) => Ok(value),
        Err(stop) => Err(fault(stop, before, meter)),
    }
}

/// Calls a function of the frame's contract with values of its parameters' types. What it does is
/// done to the top state of the world, and charged to the meter. Where a public function answers
/// err, the state is as before and the charges stay. It never aborts by `EarlyTop`. What it answers
/// is of the function's return type, and the state that it leaves is kept. Whatever it answers,
/// what is charged is within the function's bound; after want of memory nothing is.
pub fn run(
    alloc: Global,
    world: &mut World,
    deployed: &Deployed,
    frame: &Frame,
    function: &Name,
    args: Vec<Val>,
    costs: &CostTable,
    meter: &mut Meter,
) -> Result<Val, Fault<Abort>>
    requires kept { IsKeptWorld (deployed_seen deployed.now) world.old.stack.top }
    requires called { IsFittingCall (deployed_seen deployed.now) frame.now.contract function.now
        args.items }
    requires few { length args.items < 4294967296 }
    ensures meant { Answers (limited (cost_function costs.now) meter.old
        (with_known (function_of function.now
        (contract_at frame.now.contract (deployed_seen deployed.now)))
        (λ f. call_from (deployed_seen deployed.now) (frame_seen frame.now) f args.items)
        world.old.stack.top))
        result meter.new world.new.stack.top }
    ensures returned { IfRefused result (λ abort. abort ≢ Abort.EarlyTop) }
    ensures typed { IfOk result
        (λ value. IsReturnOf (deployed_seen deployed.now) frame.now.contract function.now value) }
    ensures kept { IfOk result
        (λ _. IsKeptWorld (deployed_seen deployed.now) world.new.stack.top) }
    ensures within { SpendsWithin (cost_function costs.now) (deployed_seen deployed.now)
        frame.now.contract function.now meter.old meter.new }
    ensures memory { result ≡ Err Fault.NoMemory → meter.new ≡ meter.old }
    ensures below { world.new.stack.below ≡ world.old.stack.below }
{
    let mut nobody = Silent;
    run_watched(
        alloc,
        world,
        deployed,
        frame,
        function,
        args,
        costs,
        meter,
        &mut nobody,
    )
}

/// Calls a function as `run` does, and gives `watch` the value of each node that gives one, in the
/// order in which they end. Where the limit stops the call, these are the nodes before that charge;
/// after want of memory, the first of them.
pub fn run_watched<W: Watch>(
    alloc: Global,
    world: &mut World,
    deployed: &Deployed,
    frame: &Frame,
    function: &Name,
    args: Vec<Val>,
    costs: &CostTable,
    meter: &mut Meter,
    watch: &mut W,
) -> Result<Val, Fault<Abort>>
    requires kept { IsKeptWorld (deployed_seen deployed.now) world.old.stack.top }
    requires called { IsFittingCall (deployed_seen deployed.now) frame.now.contract function.now
        args.items }
    requires few { length args.items < 4294967296 }
    ensures meant { Answers (limited (cost_function costs.now) meter.old
        (with_known (function_of function.now
        (contract_at frame.now.contract (deployed_seen deployed.now)))
        (λ f. call_from (deployed_seen deployed.now) (frame_seen frame.now) f args.items)
        world.old.stack.top))
        result meter.new world.new.stack.top }
    ensures returned { IfRefused result (λ abort. abort ≢ Abort.EarlyTop) }
    ensures typed { IfOk result
        (λ value. IsReturnOf (deployed_seen deployed.now) frame.now.contract function.now value) }
    ensures kept { IfOk result
        (λ _. IsKeptWorld (deployed_seen deployed.now) world.new.stack.top) }
    ensures within { SpendsWithin (cost_function costs.now) (deployed_seen deployed.now)
        frame.now.contract function.now meter.old meter.new }
    ensures memory { result ≡ Err Fault.NoMemory → meter.new ≡ meter.old }
    ensures below { world.new.stack.below ≡ world.old.stack.below }
    ensures seen { Tells (W.seen watch.old) (W.seen watch.new)
        (trace (cost_function costs.now) meter.old
        (with_known (function_of function.now
        (contract_at frame.now.contract (deployed_seen deployed.now)))
        (λ f. call_from (deployed_seen deployed.now) (frame_seen frame.now) f args.items)
        world.old.stack.top))
        result }
{
    let Some(contract) = deployed.find(&frame.contract) else {
        unreachable!();
    };
    let Some(found) = contract.function(function) else {
        unreachable!();
    };
    let called = Called {
        alloc,
        deployed,
        contract,
        function: found,
        frame,
        costs,
    };
    run_found(&called, args, world, meter, watch)
}
