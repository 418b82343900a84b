//! Tuples, and sequences within a length, whose parts are evaluated.
ghost use Rattle.std.specs.Prelude.{◌≡◌, ◌<◌, ◌≤◌, ◌∷◌, true, length, map, zip};
ghost use Rattle.cl_sexpr.specs.declared.sexpr.Span.{Span};
ghost use Rattle.cl_sexpr.specs.Tree.{LeafAt, Unsigned};
ghost use Rattle.cl_forms.specs.Shapes.{bindings_of};
ghost use Rattle.cl_code.specs.Nodes.{are_once, bound_names};
ghost use Rattle.cl_code.specs.Expression.{behind_first, bound_items};
ghost use Rattle.cl_meaning.specs.Values.{as_max_len_form, tuple_form};
ghost use Rattle.cl_meaning.specs.Answers.{with_known};
ghost use Rattle.cl_code.specs.Typed.{expression_of};
ghost use Rattle.cl_meaning.specs.Meaning.{means};
ghost use Rattle.cl_frames.specs.Seen.{scope, Fits};
ghost use Rattle.cl_frames.specs.Going.{AllGoIn};
ghost use Rattle.cl_frames.specs.Watching.{Walks, amount};

use crate::walk::{evaluate, evaluate_parts};
use cl_code::{Binding, Code, Watch};
use cl_frames::{Context, Names, Stop};
use cl_shapes::Meter;
use cl_state::World;
use cl_steps::{make_tuple, names_of, shorten};
use cl_types::Name;
use cl_values::Val;

/// A sequence, if it has at most so many entries.
#[cycle(evaluate)]
pub(crate) fn evaluate_as_max_len<W: Watch>(
    context: &Context,
    names: &Names,
    most: u128,
    codes: &[Code],
    below: u32,
    world: &mut World,
    meter: &mut Meter,
    watch: &mut W,
) -> Result<Val, Stop>
    requires fit { length codes.now ≡ 1 }
    requires goes { AllGoIn context.now codes.now }
    ensures meant { (at : Span) → Fits context.now → Walks context.now meter.old (W.seen watch.old) (as_max_len_form (means below) (scope context.now names.now) (behind_first (λ e more. e ∷ LeafAt (Unsigned most) at ∷ more) (map expression_of codes.now)) world.old.stack.top) result meter.new (W.seen watch.new) world.new.stack.top }
    ensures below { world.new.stack.below ≡ world.old.stack.below }
    ensures grew { amount (W.seen watch.old) ≤ amount (W.seen watch.new) }
{
    let part = &codes[0];
    let value = evaluate(context, names, part, below, world, meter, watch)?;
    shorten(context, most, value, meter)
}

/// A tuple whose parts stand under keys.
#[cycle(evaluate)]
pub(crate) fn evaluate_tuple<W: Watch>(
    context: &Context,
    names: &Names,
    keys: &[Name],
    codes: &[Code],
    below: u32,
    world: &mut World,
    meter: &mut Meter,
    watch: &mut W,
) -> Result<Val, Stop>
    requires few { length codes.now < 1048576 }
    requires fit { length codes.now ≡ length keys.now }
    requires apart { are_once keys.now ≡ true }
    requires goes { AllGoIn context.now codes.now }
    ensures meant { Fits context.now → Walks context.now meter.old (W.seen watch.old) (tuple_form (means below) (scope context.now names.now) (zip keys.now (map expression_of codes.now)) world.old.stack.top) result meter.new (W.seen watch.new) world.new.stack.top }
    ensures below { world.new.stack.below ≡ world.old.stack.below }
    ensures grew { amount (W.seen watch.old) ≤ amount (W.seen watch.new) }
{
    if codes.len() == 0 {
        return Err(Stop::Stuck);
    }
    let values = evaluate_parts(context, names, codes, below, world, meter, watch)?;
    make_tuple(context, keys, values, meter)
}

/// A tuple whose parts stand in brackets with their keys.
#[cycle(evaluate)]
pub(crate) fn evaluate_tuple_of<W: Watch>(
    context: &Context,
    names: &Names,
    pairs: &[Binding],
    codes: &[Code],
    below: u32,
    world: &mut World,
    meter: &mut Meter,
    watch: &mut W,
) -> Result<Val, Stop>
    requires few { length codes.now < 1048576 }
    requires fit { length codes.now ≡ length pairs.now }
    requires apart { are_once (bound_names pairs.now) ≡ true }
    requires goes { AllGoIn context.now codes.now }
    ensures meant { Fits context.now → Walks context.now meter.old (W.seen watch.old) (with_known (bindings_of (bound_items pairs.now (map expression_of codes.now))) (tuple_form (means below) (scope context.now names.now)) world.old.stack.top) result meter.new (W.seen watch.new) world.new.stack.top }
    ensures below { world.new.stack.below ≡ world.old.stack.below }
    ensures grew { amount (W.seen watch.old) ≤ amount (W.seen watch.new) }
{
    let keys = names_of(context.alloc, pairs)?;
    evaluate_tuple(context, names, &keys, codes, below, world, meter, watch)
}
