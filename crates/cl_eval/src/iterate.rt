//! The natives that apply what is given by name to the entries of sequences.
ghost use Rattle.std.specs.Prelude.{◌≡◌, ◌<◌, ◌≤◌, ◌∷◌, suc, length, map, true};
ghost use Rattle.cl_forms.specs.Heads.{row_of, takes};
ghost use Rattle.cl_code.specs.Nodes.{has_own_applied};
ghost use Rattle.cl_code.specs.OpNames.{iteration_head};
ghost use Rattle.cl_code.specs.Expression.{applied_name};
ghost use Rattle.cl_code.specs.Typed.{expression_of};
ghost use Rattle.cl_meaning.specs.Answers.{with_known};
ghost use Rattle.cl_meaning.specs.Scope.{BoundValues};
ghost use Rattle.cl_meaning.specs.Sequences.{map_form, mapped, filter_form, filtered, fold_form, fold_of, each, rows_of, all_entries};
ghost use Rattle.cl_meaning.specs.Meaning.{head_form, means, applied};
ghost use Rattle.cl_frames.specs.Applying.{callee_seen};
ghost use Rattle.cl_frames.specs.Seen.{scope, scope_of, Fits};
ghost use Rattle.cl_frames.specs.Going.{AllGoIn, AppliedGoesIn, CalledGoesIn};
ghost use Rattle.cl_frames.specs.Runs.{items_in};
ghost use Rattle.cl_frames.specs.Watching.{Walks, amount};

use crate::calls::enter;
use crate::walk::{evaluate, evaluate_parts};
use cl_code::{Applied, Code, Iteration, Watch};
use cl_frames::{Called, Context, Names, Stop, pay, pay_for, pay_for_all};
use cl_seq::{list_of, try_len};
use cl_shapes::{CostName, Meter};
use cl_state::World;
use cl_steps::{
    alone, apply_watched, callee_named, computed, entry_at, pair, row_at, sieve, width,
};
use cl_values::Val;

/// A native that applies what is given by name to the entries of sequences.
#[cycle(evaluate)]
pub(crate) fn evaluate_iteration<W: Watch>(
    context: &Context,
    names: &Names,
    iteration: Iteration,
    given: &Applied,
    codes: &[Code],
    below: u32,
    world: &mut World,
    meter: &mut Meter,
    watch: &mut W,
) -> Result<Val, Stop>
    requires own { has_own_applied given.now ≡ true }
    requires few { length codes.now < 1048576 }
    requires fit { takes (row_of (iteration_head iteration)).arity (suc (length codes.now)) ≡ true }
    requires applies { AppliedGoesIn context.now given.now }
    requires goes { AllGoIn context.now codes.now }
    ensures meant { Fits context.now → Walks context.now meter.old (W.seen watch.old) (head_form (iteration_head iteration) (row_of (iteration_head iteration)).cost (means below) (applied below) (scope context.now names.now) (applied_name given.now ∷ map expression_of codes.now) world.old.stack.top) result meter.new (W.seen watch.new) world.new.stack.top }
    ensures below { world.new.stack.below ≡ world.old.stack.below }
    ensures grew { amount (W.seen watch.old) ≤ amount (W.seen watch.new) }
{
    match iteration {
        Iteration::Map => evaluate_map(context, names, given, codes, below, world, meter, watch),
        Iteration::Filter => evaluate_filter(
            context, names, given, codes, below, world, meter, watch,
        ),
        Iteration::Fold => evaluate_fold(context, names, given, codes, below, world, meter, watch),
    }
}

/// The fold of a sequence.
#[cycle(evaluate)]
fn evaluate_fold<W: Watch>(
    context: &Context,
    names: &Names,
    given: &Applied,
    codes: &[Code],
    below: u32,
    world: &mut World,
    meter: &mut Meter,
    watch: &mut W,
) -> Result<Val, Stop>
    requires own { has_own_applied given.now ≡ true }
    requires fit { length codes.now ≡ 2 }
    requires applies { AppliedGoesIn context.now given.now }
    requires goes { AllGoIn context.now codes.now }
    ensures meant { Fits context.now → Walks context.now meter.old (W.seen watch.old) (fold_form (means below) (applied below) (scope context.now names.now) (applied_name given.now ∷ map expression_of codes.now) world.old.stack.top) result meter.new (W.seen watch.new) world.new.stack.top }
    ensures below { world.new.stack.below ≡ world.old.stack.below }
    ensures grew { amount (W.seen watch.old) ≤ amount (W.seen watch.new) }
{
    let whole = &codes[0];
    let first = &codes[1];
    let sequence = evaluate(context, names, whole, below, world, meter, watch)?;
    let start = evaluate(context, names, first, below, world, meter, watch)?;
    let size = u64::from(sequence.size()) + u64::from(start.size());
    pay(context.costs, meter, CostName::Iterate, size)?;
    match callee_named(context, given) {
        Some(callee) => fold(
            context, &callee, &sequence, start, below, world, meter, watch,
        ),
        None => Err(Stop::Stuck),
    }
}

/// Folds a sequence: applies what is given by name to each entry and the result so far.
#[cycle(evaluate)]
fn fold<W: Watch>(
    context: &Context,
    callee: &Called,
    sequence: &Val,
    start: Val,
    below: u32,
    world: &mut World,
    meter: &mut Meter,
    watch: &mut W,
) -> Result<Val, Stop>
    requires goes { CalledGoesIn context.now callee.now }
    ensures meant { (bound : BoundValues) → Fits context.now → Walks context.now meter.old (W.seen watch.old) (fold_of (applied below) (scope_of context.now bound) sequence.now start (callee_seen callee.now) world.old.stack.top) result meter.new (W.seen watch.new) world.new.stack.top }
    ensures below { world.new.stack.below ≡ world.old.stack.below }
    ensures grew { amount (W.seen watch.old) ≤ amount (W.seen watch.new) }
{
    let Some(count) = try_len(sequence) else {
        return Err(Stop::Stuck);
    };
    let mut so_far = start;
    for place in 0..count {
        match entry_at(context.alloc, sequence, place)? {
            Some(entry) => {
                let values = pair(context.alloc, entry, so_far)?;
                so_far = apply(context, callee, values, below, world, meter, watch)?;
            }
            None => return Ok(so_far),
        }
    }
    Ok(so_far)
}

/// The list of the results at the entries of sequences side by side.
#[cycle(evaluate)]
fn evaluate_map<W: Watch>(
    context: &Context,
    names: &Names,
    given: &Applied,
    codes: &[Code],
    below: u32,
    world: &mut World,
    meter: &mut Meter,
    watch: &mut W,
) -> Result<Val, Stop>
    requires own { has_own_applied given.now ≡ true }
    requires few { length codes.now < 1048576 }
    requires applies { AppliedGoesIn context.now given.now }
    requires goes { AllGoIn context.now codes.now }
    ensures meant { Fits context.now → Walks context.now meter.old (W.seen watch.old) (map_form (means below) (applied below) (scope context.now names.now) (applied_name given.now ∷ map expression_of codes.now) world.old.stack.top) result meter.new (W.seen watch.new) world.new.stack.top }
    ensures below { world.new.stack.below ≡ world.old.stack.below }
    ensures grew { amount (W.seen watch.old) ≤ amount (W.seen watch.new) }
{
    let values = evaluate_parts(context, names, codes, below, world, meter, watch)?;
    pay_for_all(context.costs, meter, CostName::Iterate, &values)?;
    match callee_named(context, given) {
        Some(callee) => map_rows(context, &callee, &values, below, world, meter, watch),
        None => Err(Stop::Stuck),
    }
}

/// The list of the results.
#[cycle(evaluate)]
fn map_rows<W: Watch>(
    context: &Context,
    callee: &Called,
    sequences: &[Val],
    below: u32,
    world: &mut World,
    meter: &mut Meter,
    watch: &mut W,
) -> Result<Val, Stop>
    requires few { length sequences.now < 1048576 }
    requires goes { CalledGoesIn context.now callee.now }
    ensures meant { (bound : BoundValues) → Fits context.now → Walks context.now meter.old (W.seen watch.old) (mapped (applied below) (scope_of context.now bound) sequences.now (callee_seen callee.now) world.old.stack.top) result meter.new (W.seen watch.new) world.new.stack.top }
    ensures below { world.new.stack.below ≡ world.old.stack.below }
    ensures grew { amount (W.seen watch.old) ≤ amount (W.seen watch.new) }
{
    let results = apply_each(context, callee, sequences, below, world, meter, watch)?;
    computed(list_of(context.alloc, results))
}

/// The entries of a sequence at which the result is true.
#[cycle(evaluate)]
fn evaluate_filter<W: Watch>(
    context: &Context,
    names: &Names,
    given: &Applied,
    codes: &[Code],
    below: u32,
    world: &mut World,
    meter: &mut Meter,
    watch: &mut W,
) -> Result<Val, Stop>
    requires own { has_own_applied given.now ≡ true }
    requires fit { length codes.now ≡ 1 }
    requires applies { AppliedGoesIn context.now given.now }
    requires goes { AllGoIn context.now codes.now }
    ensures meant { Fits context.now → Walks context.now meter.old (W.seen watch.old) (filter_form (means below) (applied below) (scope context.now names.now) (applied_name given.now ∷ map expression_of codes.now) world.old.stack.top) result meter.new (W.seen watch.new) world.new.stack.top }
    ensures below { world.new.stack.below ≡ world.old.stack.below }
    ensures grew { amount (W.seen watch.old) ≤ amount (W.seen watch.new) }
{
    let part = &codes[0];
    let sequence = evaluate(context, names, part, below, world, meter, watch)?;
    pay_for(context.costs, meter, CostName::Iterate, &sequence)?;
    match callee_named(context, given) {
        Some(callee) => filter(context, &callee, sequence, below, world, meter, watch),
        None => Err(Stop::Stuck),
    }
}

/// Filters a sequence.
#[cycle(evaluate)]
fn filter<W: Watch>(
    context: &Context,
    callee: &Called,
    sequence: Val,
    below: u32,
    world: &mut World,
    meter: &mut Meter,
    watch: &mut W,
) -> Result<Val, Stop>
    requires goes { CalledGoesIn context.now callee.now }
    ensures meant { (bound : BoundValues) → Fits context.now → Walks context.now meter.old (W.seen watch.old) (filtered (applied below) (scope_of context.now bound) sequence (callee_seen callee.now) world.old.stack.top) result meter.new (W.seen watch.new) world.new.stack.top }
    ensures below { world.new.stack.below ≡ world.old.stack.below }
    ensures grew { amount (W.seen watch.old) ≤ amount (W.seen watch.new) }
{
    let sequences = alone(context.alloc, sequence)?;
    let results = apply_each(context, callee, &sequences, below, world, meter, watch)?;
    sieve(context.alloc, sequences, &results)
}

/// Applies what is given by name to the entries of sequences side by side.
#[cycle(evaluate)]
fn apply_each<W: Watch>(
    context: &Context,
    callee: &Called,
    sequences: &[Val],
    below: u32,
    world: &mut World,
    meter: &mut Meter,
    watch: &mut W,
) -> Result<Vec<Val>, Stop>
    requires few { length sequences.now < 1048576 }
    requires goes { CalledGoesIn context.now callee.now }
    ensures meant { (bound : BoundValues) → Fits context.now → Walks context.now meter.old (W.seen watch.old) (with_known (rows_of (all_entries sequences.now)) (each (applied below) (scope_of context.now bound) (callee_seen callee.now)) world.old.stack.top) (items_in result) meter.new (W.seen watch.new) world.new.stack.top }
    ensures below { world.new.stack.below ≡ world.old.stack.below }
    ensures grew { amount (W.seen watch.old) ≤ amount (W.seen watch.new) }
{
    let Some(count) = width(sequences) else {
        return Err(Stop::Stuck);
    };
    let mut results = Vec::new(context.alloc);
    for place in 0..count {
        match row_at(context.alloc, sequences, place)? {
            Some(row) => {
                let value = apply(context, callee, row, below, world, meter, watch)?;
                results.push(value)?;
            }
            None => return Ok(results),
        }
    }
    Ok(results)
}

/// Applies what is given by name to values, to a depth.
#[cycle(evaluate)]
fn apply<W: Watch>(
    context: &Context,
    callee: &Called,
    values: Vec<Val>,
    depth: u32,
    world: &mut World,
    meter: &mut Meter,
    watch: &mut W,
) -> Result<Val, Stop>
    requires few { length values.items < 1048576 }
    requires goes { CalledGoesIn context.now callee.now }
    ensures meant { (bound : BoundValues) → Fits context.now → Walks context.now meter.old (W.seen watch.old) (applied depth (scope_of context.now bound) (callee_seen callee.now) values.items world.old.stack.top) result meter.new (W.seen watch.new) world.new.stack.top }
    ensures below { world.new.stack.below ≡ world.old.stack.below }
    ensures grew { amount (W.seen watch.old) ≤ amount (W.seen watch.new) }
{
    match callee {
        Called::Function(function) => enter(context, function, values, depth, world, meter, watch),
        Called::Native(native) => apply_watched(context, *native, values, depth, meter, watch),
    }
}
