//! The natives whose first argument is a name.
ghost use Rattle.std.specs.Prelude.{◌≡◌, ◌<◌, ◌≤◌, ◌∷◌, suc, length, map, true};
ghost use Rattle.cl_forms.specs.Heads.{row_of, takes};
ghost use Rattle.cl_code.specs.OpNames.{name_head};
ghost use Rattle.cl_code.specs.Expression.{word};
ghost use Rattle.cl_code.specs.Typed.{expression_of};
ghost use Rattle.cl_meaning.specs.Meaning.{head_form, means, applied};
ghost use Rattle.cl_frames.specs.Seen.{scope, Fits};
ghost use Rattle.cl_frames.specs.Going.{AllGoIn};
ghost use Rattle.cl_frames.specs.Watching.{Walks, amount};

use crate::walk::{evaluate, evaluate_parts};
use cl_code::{Code, NameNative, Watch, Word};
use cl_frames::{Context, Names, Stop, Taking, taking_of};
use cl_shapes::Meter;
use cl_state::World;
use cl_steps::{with_all, with_nothing, with_one};
use cl_values::Val;

/// A native whose first argument is a name.
#[cycle(evaluate)]
pub(crate) fn evaluate_on_name<W: Watch>(
    context: &Context,
    names: &Names,
    native: NameNative,
    name: &Word,
    codes: &[Code],
    below: u32,
    world: &mut World,
    meter: &mut Meter,
    watch: &mut W,
) -> Result<Val, Stop>
    requires few { length codes.now < 1048576 }
    requires fit { takes (row_of (name_head native)).arity (suc (length codes.now)) ≡ true }
    requires goes { AllGoIn context.now codes.now }
    ensures meant { Fits context.now → Walks context.now meter.old (W.seen watch.old) (head_form (name_head native) (row_of (name_head native)).cost (means below) (applied below) (scope context.now names.now) (word name.now ∷ map expression_of codes.now) world.old.stack.top) result meter.new (W.seen watch.new) world.new.stack.top }
    ensures below { world.new.stack.below ≡ world.old.stack.below }
    ensures grew { amount (W.seen watch.old) ≤ amount (W.seen watch.new) }
{
    match taking_of(native) {
        Taking::Nothing => with_nothing(context, names, native, &name.name, world, meter),
        Taking::One => {
            let part = &codes[0];
            let value = evaluate(context, names, part, below, world, meter, watch)?;
            with_one(context, names, native, &name.name, value, world, meter)
        }
        Taking::All => {
            let values = evaluate_parts(context, names, codes, below, world, meter, watch)?;
            with_all(context, names, native, &name.name, values, world, meter)
        }
    }
}
