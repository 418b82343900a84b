//! The natives that decide how their parts are taken.
ghost use Rattle.std.specs.Prelude.{◌≡◌, ◌<◌, ◌≤◌, length, map};
ghost use Rattle.cl_meaning.specs.Control.{if_form, begin_form, and_form, or_form, and_on, or_on, asserts_form, unwrap_form, unwrap_err_form, try_form, as_contract_form};
ghost use Rattle.cl_meaning.specs.Tokens.{print_form};
ghost use Rattle.cl_code.specs.Typed.{expression_of};
ghost use Rattle.cl_meaning.specs.Meaning.{means};
ghost use Rattle.cl_frames.specs.Seen.{scope, Fits};
ghost use Rattle.cl_frames.specs.Going.{AllGoIn};
ghost use Rattle.cl_frames.specs.Watching.{Walks, amount};

use crate::walk::{evaluate, evaluate_parts, evaluate_thrown, evaluate_truth};
use cl_calls::{and_ends, as_contract, last, or_ends};
use cl_code::{Code, Watch};
use cl_frames::{Context, Names, Stop, Way, err_way_of, into_content, pay, tried, way_of};
use cl_seq::bool_value;
use cl_shapes::{CostName, Meter};
use cl_state::World;
use cl_steps::print;
use cl_values::Val;

#[cycle(evaluate)]
pub(crate) fn evaluate_if<W: Watch>(
    context: &Context,
    names: &Names,
    codes: &[Code],
    below: u32,
    world: &mut World,
    meter: &mut Meter,
    watch: &mut W,
) -> Result<Val, Stop>
    requires fit { length codes.now ≡ 3 }
    requires goes { AllGoIn context.now codes.now }
    ensures meant { Fits context.now → Walks context.now meter.old (W.seen watch.old) (if_form (means below) (scope context.now names.now) (map expression_of codes.now) world.old.stack.top) result meter.new (W.seen watch.new) world.new.stack.top }
    ensures below { world.new.stack.below ≡ world.old.stack.below }
    ensures grew { amount (W.seen watch.old) ≤ amount (W.seen watch.new) }
{
    let test = &codes[0];
    let first = &codes[1];
    let second = &codes[2];
    pay(context.costs, meter, CostName::Control, 3)?;
    let holds = evaluate_truth(context, names, test, below, world, meter, watch)?;
    if holds {
        evaluate(context, names, first, below, world, meter, watch)
    } else {
        evaluate(context, names, second, below, world, meter, watch)
    }
}

#[cycle(evaluate)]
pub(crate) fn evaluate_begin<W: Watch>(
    context: &Context,
    names: &Names,
    codes: &[Code],
    below: u32,
    world: &mut World,
    meter: &mut Meter,
    watch: &mut W,
) -> Result<Val, Stop>
    requires few { length codes.now < 1048576 }
    requires goes { AllGoIn context.now codes.now }
    ensures meant { Fits context.now → Walks context.now meter.old (W.seen watch.old) (begin_form (means below) (scope context.now names.now) (map expression_of codes.now) world.old.stack.top) result meter.new (W.seen watch.new) world.new.stack.top }
    ensures below { world.new.stack.below ≡ world.old.stack.below }
    ensures grew { amount (W.seen watch.old) ≤ amount (W.seen watch.new) }
{
    pay(context.costs, meter, CostName::Control, codes.len() as u64)?;
    let values = evaluate_parts(context, names, codes, below, world, meter, watch)?;
    last(values)
}

#[cycle(evaluate)]
pub(crate) fn evaluate_and<W: Watch>(
    context: &Context,
    names: &Names,
    codes: &[Code],
    below: u32,
    world: &mut World,
    meter: &mut Meter,
    watch: &mut W,
) -> Result<Val, Stop>
    requires few { length codes.now < 1048576 }
    requires some { 0 < length codes.now }
    requires goes { AllGoIn context.now codes.now }
    ensures meant { Fits context.now → Walks context.now meter.old (W.seen watch.old) (and_form (means below) (scope context.now names.now) (map expression_of codes.now) world.old.stack.top) result meter.new (W.seen watch.new) world.new.stack.top }
    ensures below { world.new.stack.below ≡ world.old.stack.below }
    ensures grew { amount (W.seen watch.old) ≤ amount (W.seen watch.new) }
{
    pay(context.costs, meter, CostName::Control, codes.len() as u64)?;
    and_parts(context, names, codes, below, world, meter, watch)
}

/// The parts up to the first that is false.
#[cycle(evaluate)]
fn and_parts<W: Watch>(
    context: &Context,
    names: &Names,
    codes: &[Code],
    below: u32,
    world: &mut World,
    meter: &mut Meter,
    watch: &mut W,
) -> Result<Val, Stop>
    requires goes { AllGoIn context.now codes.now }
    ensures meant { Fits context.now → Walks context.now meter.old (W.seen watch.old) (and_on (means below) (scope context.now names.now) (map expression_of codes.now) world.old.stack.top) result meter.new (W.seen watch.new) world.new.stack.top }
    ensures below { world.new.stack.below ≡ world.old.stack.below }
    ensures grew { amount (W.seen watch.old) ≤ amount (W.seen watch.new) }
{
    for code in codes {
        let holds = evaluate_truth(context, names, code, below, world, meter, watch)?;
        if let Some(value) = and_ends(holds) {
            return Ok(value);
        }
    }
    Ok(bool_value(true))
}

#[cycle(evaluate)]
pub(crate) fn evaluate_or<W: Watch>(
    context: &Context,
    names: &Names,
    codes: &[Code],
    below: u32,
    world: &mut World,
    meter: &mut Meter,
    watch: &mut W,
) -> Result<Val, Stop>
    requires few { length codes.now < 1048576 }
    requires some { 0 < length codes.now }
    requires goes { AllGoIn context.now codes.now }
    ensures meant { Fits context.now → Walks context.now meter.old (W.seen watch.old) (or_form (means below) (scope context.now names.now) (map expression_of codes.now) world.old.stack.top) result meter.new (W.seen watch.new) world.new.stack.top }
    ensures below { world.new.stack.below ≡ world.old.stack.below }
    ensures grew { amount (W.seen watch.old) ≤ amount (W.seen watch.new) }
{
    pay(context.costs, meter, CostName::Control, codes.len() as u64)?;
    or_parts(context, names, codes, below, world, meter, watch)
}

/// The parts up to the first that is true.
#[cycle(evaluate)]
fn or_parts<W: Watch>(
    context: &Context,
    names: &Names,
    codes: &[Code],
    below: u32,
    world: &mut World,
    meter: &mut Meter,
    watch: &mut W,
) -> Result<Val, Stop>
    requires goes { AllGoIn context.now codes.now }
    ensures meant { Fits context.now → Walks context.now meter.old (W.seen watch.old) (or_on (means below) (scope context.now names.now) (map expression_of codes.now) world.old.stack.top) result meter.new (W.seen watch.new) world.new.stack.top }
    ensures below { world.new.stack.below ≡ world.old.stack.below }
    ensures grew { amount (W.seen watch.old) ≤ amount (W.seen watch.new) }
{
    for code in codes {
        let holds = evaluate_truth(context, names, code, below, world, meter, watch)?;
        if let Some(value) = or_ends(holds) {
            return Ok(value);
        }
    }
    Ok(bool_value(false))
}

#[cycle(evaluate)]
pub(crate) fn evaluate_asserts<W: Watch>(
    context: &Context,
    names: &Names,
    codes: &[Code],
    below: u32,
    world: &mut World,
    meter: &mut Meter,
    watch: &mut W,
) -> Result<Val, Stop>
    requires fit { length codes.now ≡ 2 }
    requires goes { AllGoIn context.now codes.now }
    ensures meant { Fits context.now → Walks context.now meter.old (W.seen watch.old) (asserts_form (means below) (scope context.now names.now) (map expression_of codes.now) world.old.stack.top) result meter.new (W.seen watch.new) world.new.stack.top }
    ensures below { world.new.stack.below ≡ world.old.stack.below }
    ensures grew { amount (W.seen watch.old) ≤ amount (W.seen watch.new) }
{
    let test = &codes[0];
    let thrown = &codes[1];
    pay(context.costs, meter, CostName::Control, 2)?;
    let holds = evaluate_truth(context, names, test, below, world, meter, watch)?;
    if holds {
        Ok(bool_value(true))
    } else {
        evaluate_thrown(context, names, thrown, below, world, meter, watch)
    }
}

#[cycle(evaluate)]
pub(crate) fn evaluate_unwrap<W: Watch>(
    context: &Context,
    names: &Names,
    codes: &[Code],
    below: u32,
    world: &mut World,
    meter: &mut Meter,
    watch: &mut W,
) -> Result<Val, Stop>
    requires fit { length codes.now ≡ 2 }
    requires goes { AllGoIn context.now codes.now }
    ensures meant { Fits context.now → Walks context.now meter.old (W.seen watch.old) (unwrap_form (means below) (scope context.now names.now) (map expression_of codes.now) world.old.stack.top) result meter.new (W.seen watch.new) world.new.stack.top }
    ensures below { world.new.stack.below ≡ world.old.stack.below }
    ensures grew { amount (W.seen watch.old) ≤ amount (W.seen watch.new) }
{
    let whole = &codes[0];
    let thrown = &codes[1];
    pay(context.costs, meter, CostName::Control, 2)?;
    let value = evaluate(context, names, whole, below, world, meter, watch)?;
    match way_of(&value) {
        Way::Good => Ok(into_content(value)),
        Way::Bad => evaluate_thrown(context, names, thrown, below, world, meter, watch),
        Way::Neither => Err(Stop::Stuck),
    }
}

#[cycle(evaluate)]
pub(crate) fn evaluate_unwrap_err<W: Watch>(
    context: &Context,
    names: &Names,
    codes: &[Code],
    below: u32,
    world: &mut World,
    meter: &mut Meter,
    watch: &mut W,
) -> Result<Val, Stop>
    requires fit { length codes.now ≡ 2 }
    requires goes { AllGoIn context.now codes.now }
    ensures meant { Fits context.now → Walks context.now meter.old (W.seen watch.old) (unwrap_err_form (means below) (scope context.now names.now) (map expression_of codes.now) world.old.stack.top) result meter.new (W.seen watch.new) world.new.stack.top }
    ensures below { world.new.stack.below ≡ world.old.stack.below }
    ensures grew { amount (W.seen watch.old) ≤ amount (W.seen watch.new) }
{
    let whole = &codes[0];
    let thrown = &codes[1];
    pay(context.costs, meter, CostName::Control, 2)?;
    let value = evaluate(context, names, whole, below, world, meter, watch)?;
    match err_way_of(&value) {
        Way::Good => Ok(into_content(value)),
        Way::Bad => evaluate_thrown(context, names, thrown, below, world, meter, watch),
        Way::Neither => Err(Stop::Stuck),
    }
}

#[cycle(evaluate)]
pub(crate) fn evaluate_try<W: Watch>(
    context: &Context,
    names: &Names,
    codes: &[Code],
    below: u32,
    world: &mut World,
    meter: &mut Meter,
    watch: &mut W,
) -> Result<Val, Stop>
    requires fit { length codes.now ≡ 1 }
    requires goes { AllGoIn context.now codes.now }
    ensures meant { Fits context.now → Walks context.now meter.old (W.seen watch.old) (try_form (means below) (scope context.now names.now) (map expression_of codes.now) world.old.stack.top) result meter.new (W.seen watch.new) world.new.stack.top }
    ensures below { world.new.stack.below ≡ world.old.stack.below }
    ensures grew { amount (W.seen watch.old) ≤ amount (W.seen watch.new) }
{
    let whole = &codes[0];
    pay(context.costs, meter, CostName::Control, 1)?;
    let value = evaluate(context, names, whole, below, world, meter, watch)?;
    tried(value)
}

#[cycle(evaluate)]
pub(crate) fn evaluate_as_contract<W: Watch>(
    context: &Context,
    names: &Names,
    codes: &[Code],
    below: u32,
    world: &mut World,
    meter: &mut Meter,
    watch: &mut W,
) -> Result<Val, Stop>
    requires fit { length codes.now ≡ 1 }
    requires goes { AllGoIn context.now codes.now }
    ensures meant { Fits context.now → Walks context.now meter.old (W.seen watch.old) (as_contract_form (means below) (scope context.now names.now) (map expression_of codes.now) world.old.stack.top) result meter.new (W.seen watch.new) world.new.stack.top }
    ensures below { world.new.stack.below ≡ world.old.stack.below }
    ensures grew { amount (W.seen watch.old) ≤ amount (W.seen watch.new) }
{
    let part = &codes[0];
    pay(context.costs, meter, CostName::Control, 1)?;
    let frame = as_contract(context.frame);
    let inner = Context {
        alloc: context.alloc,
        deployed: context.deployed,
        opening: context.opening,
        home: context.home,
        frame: &frame,
        costs: context.costs,
    };
    evaluate(&inner, names, part, below, world, meter, watch)
}

#[cycle(evaluate)]
pub(crate) fn evaluate_print<W: Watch>(
    context: &Context,
    names: &Names,
    codes: &[Code],
    below: u32,
    world: &mut World,
    meter: &mut Meter,
    watch: &mut W,
) -> Result<Val, Stop>
    requires fit { length codes.now ≡ 1 }
    requires goes { AllGoIn context.now codes.now }
    ensures meant { Fits context.now → Walks context.now meter.old (W.seen watch.old) (print_form (means below) (scope context.now names.now) (map expression_of codes.now) world.old.stack.top) result meter.new (W.seen watch.new) world.new.stack.top }
    ensures below { world.new.stack.below ≡ world.old.stack.below }
    ensures grew { amount (W.seen watch.old) ≤ amount (W.seen watch.new) }
{
    let part = &codes[0];
    let value = evaluate(context, names, part, below, world, meter, watch)?;
    print(context, value, world, meter)
}
