//! The evaluation of trees.
ghost use Rattle.std.specs.Prelude.{◌≡◌, ◌<◌, ◌≤◌, length, map, IfOk};
ghost use Rattle.cl_forms.specs.declared.head.Head.TheVariants.{OnValues};
ghost use Rattle.cl_forms.specs.Heads.{row_of};
ghost use Rattle.cl_meaning.specs.Scope.{parts};
ghost use Rattle.cl_meaning.specs.Values.{strict_form};
ghost use Rattle.cl_meaning.specs.Control.{throwing};
ghost use Rattle.cl_code.specs.Typed.{expression_of};
ghost use Rattle.cl_meaning.specs.Meaning.{node, means, applied};
ghost use Rattle.cl_frames.specs.Seen.{costs_of, scope, Fits};
ghost use Rattle.cl_frames.specs.Going.{GoesIn, AllGoIn};
ghost use Rattle.cl_frames.specs.Runs.{items_in};
ghost use Rattle.cl_frames.specs.Watching.{Ends, Walks, amount, truthful, watched};

use crate::across::evaluate_contract_call;
use crate::calls::evaluate_call;
use crate::iterate::evaluate_iteration;
use crate::on_names::evaluate_on_name;
use crate::on_parts::evaluate_on_parts;
use crate::scopes::{evaluate_let, evaluate_match_optional, evaluate_match_response};
use crate::tuples::{evaluate_as_max_len, evaluate_tuple, evaluate_tuple_of};
use cl_calls::beside;
use cl_code::{Code, Op, Watch};
use cl_frames::{Context, Names, Stop, truth};
use cl_seq::{int_value, uint_value};
use cl_shapes::{CostName, Meter};
use cl_state::World;
use cl_steps::{
    ascii_literal, buff_literal, keyword, named, native_on, principal_literal, stands, utf8_literal,
};
use cl_values::{Native, Val};

/// Evaluates a tree to a depth, where names are bound to values.
#[cycle(evaluate)]
pub fn evaluate<W: Watch>(
    context: &Context,
    names: &Names,
    code: &Code,
    depth: u32,
    world: &mut World,
    meter: &mut Meter,
    watch: &mut W,
) -> Result<Val, Stop>
    requires goes { GoesIn context.now code.now }
    ensures meant { Fits context.now → Walks context.now meter.old (W.seen watch.old) (means depth (scope context.now names.now) (expression_of code.now) world.old.stack.top) result meter.new (W.seen watch.new) world.new.stack.top }
    ensures below { world.new.stack.below ≡ world.old.stack.below }
    ensures grew { amount (W.seen watch.old) ≤ amount (W.seen watch.new) }
{
    if depth == 0 {
        return Err(Stop::Stuck);
    }
    let value = evaluate_node(context, names, code, depth - 1, world, meter, watch)?;
    watch.saw(code.span, &value)?;
    Ok(value)
}

/// One node, whose parts are evaluated to the depth below.
#[cycle(evaluate)]
fn evaluate_node<W: Watch>(
    context: &Context,
    names: &Names,
    code: &Code,
    below: u32,
    world: &mut World,
    meter: &mut Meter,
    watch: &mut W,
) -> Result<Val, Stop>
    requires goes { GoesIn context.now code.now }
    ensures meant { Fits context.now → Walks context.now meter.old (W.seen watch.old) (node (means below) (applied below) (scope context.now names.now) (expression_of code.now) world.old.stack.top) result meter.new (W.seen watch.new) world.new.stack.top }
    ensures below { world.new.stack.below ≡ world.old.stack.below }
    ensures grew { amount (W.seen watch.old) ≤ amount (W.seen watch.new) }
{
    let parts = code.parts.as_slice();
    match &code.op {
        Op::Int(number) => stands(context, CostName::Literal, int_value(*number), meter),
        Op::Uint(number) => stands(context, CostName::Literal, uint_value(*number), meter),
        Op::Buff(bytes) => buff_literal(context, bytes, meter),
        Op::Ascii(bytes) => ascii_literal(context, bytes, meter),
        Op::Utf8(characters) => utf8_literal(context, characters, meter),
        Op::Standing(principal) => principal_literal(context, *principal, meter),
        Op::Local(name) => {
            principal_literal(context, beside(&context.frame.contract, *name), meter)
        }
        Op::Keyword(word) => keyword(context, names, *word, meter),
        Op::Bound(name) => named(context, names, name, meter),
        Op::Constant(name) => named(context, names, name, meter),
        Op::OnValues { native, head: _ } => {
            evaluate_native(context, names, *native, parts, below, world, meter, watch)
        }
        Op::OnParts { native, head: _ } => {
            evaluate_on_parts(context, names, *native, parts, below, world, meter, watch)
        }
        Op::OnName { native, name, .. } => {
            evaluate_on_name(
                context, names, *native, name, parts, below, world, meter, watch,
            )
        }
        Op::Iterate {
            iteration,
            applied,
            ..
        } => evaluate_iteration(
            context, names, *iteration, applied, parts, below, world, meter, watch,
        ),
        Op::AsMaxLen { most, .. } => {
            evaluate_as_max_len(context, names, *most, parts, below, world, meter, watch)
        }
        Op::Tuple(keys) => evaluate_tuple(context, names, keys, parts, below, world, meter, watch),
        Op::TupleOf { head: _, pairs } => {
            evaluate_tuple_of(context, names, pairs, parts, below, world, meter, watch)
        }
        Op::Let { bindings, .. } => {
            evaluate_let(context, names, bindings, parts, below, world, meter, watch)
        }
        Op::MatchOptional { head: _, part } => {
            evaluate_match_optional(context, names, part, parts, below, world, meter, watch)
        }
        Op::MatchResponse { head: _, good, bad } => {
            evaluate_match_response(context, names, good, bad, parts, below, world, meter, watch)
        }
        Op::Call(function) => {
            evaluate_call(
                context,
                names,
                &function.name,
                parts,
                below,
                world,
                meter,
                watch,
            )
        }
        Op::ContractCall {
            target,
            function,
            ..
        } => {
            evaluate_contract_call(
                context, names, target, function, parts, below, world, meter, watch,
            )
        }
    }
}

/// The parts from the left.
#[cycle(evaluate)]
pub(crate) fn evaluate_parts<W: Watch>(
    context: &Context,
    names: &Names,
    codes: &[Code],
    below: u32,
    world: &mut World,
    meter: &mut Meter,
    watch: &mut W,
) -> Result<Vec<Val>, Stop>
    requires goes { AllGoIn context.now codes.now }
    ensures meant { Fits context.now → Walks context.now meter.old (W.seen watch.old) (parts (means below) (scope context.now names.now) (map expression_of codes.now) world.old.stack.top) (items_in result) meter.new (W.seen watch.new) world.new.stack.top }
    ensures below { world.new.stack.below ≡ world.old.stack.below }
    ensures grew { amount (W.seen watch.old) ≤ amount (W.seen watch.new) }
    ensures count { IfOk result (λ values. length values.items ≡ length codes.now) }
{
    let mut values = Vec::with_capacity(context.alloc, codes.len())?;
    for code in codes {
        let value = evaluate(context, names, code, below, world, meter, watch)?;
        values.push_reserved(value);
    }
    Ok(values)
}

/// A native on the values of all parts.
#[cycle(evaluate)]
fn evaluate_native<W: Watch>(
    context: &Context,
    names: &Names,
    native: Native,
    codes: &[Code],
    below: u32,
    world: &mut World,
    meter: &mut Meter,
    watch: &mut W,
) -> Result<Val, Stop>
    requires few { length codes.now < 1048576 }
    requires goes { AllGoIn context.now codes.now }
    ensures meant { Fits context.now → Walks context.now meter.old (W.seen watch.old) (strict_form native (row_of (OnValues native)).cost (means below) (scope context.now names.now) (map expression_of codes.now) world.old.stack.top) result meter.new (W.seen watch.new) world.new.stack.top }
    ensures below { world.new.stack.below ≡ world.old.stack.below }
    ensures grew { amount (W.seen watch.old) ≤ amount (W.seen watch.new) }
{
    let values = evaluate_parts(context, names, codes, below, world, meter, watch)?;
    native_on(context, native, values, meter)
}

/// A part that is a truth value.
#[cycle(evaluate)]
pub(crate) fn evaluate_truth<W: Watch>(
    context: &Context,
    names: &Names,
    code: &Code,
    below: u32,
    world: &mut World,
    meter: &mut Meter,
    watch: &mut W,
) -> Result<bool, Stop>
    requires goes { GoesIn context.now code.now }
    ensures meant { Fits context.now → Ends (truthful (watched (costs_of context.now) meter.old (W.seen watch.old) (means below (scope context.now names.now) (expression_of code.now) world.old.stack.top))) result meter.new (W.seen watch.new) world.new.stack.top }
    ensures below { world.new.stack.below ≡ world.old.stack.below }
    ensures grew { amount (W.seen watch.old) ≤ amount (W.seen watch.new) }
{
    let value = evaluate(context, names, code, below, world, meter, watch)?;
    truth(value)
}

/// A part whose value is thrown.
#[cycle(evaluate)]
pub(crate) fn evaluate_thrown<W: Watch>(
    context: &Context,
    names: &Names,
    code: &Code,
    below: u32,
    world: &mut World,
    meter: &mut Meter,
    watch: &mut W,
) -> Result<Val, Stop>
    requires goes { GoesIn context.now code.now }
    ensures meant { Fits context.now → Walks context.now meter.old (W.seen watch.old) (throwing (means below) (scope context.now names.now) (expression_of code.now) world.old.stack.top) result meter.new (W.seen watch.new) world.new.stack.top }
    ensures below { world.new.stack.below ≡ world.old.stack.below }
    ensures grew { amount (W.seen watch.old) ≤ amount (W.seen watch.new) }
{
    let value = evaluate(context, names, code, below, world, meter, watch)?;
    Err(Stop::Thrown(value))
}
