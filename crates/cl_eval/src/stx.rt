//! The natives on STX.
ghost use Rattle.std.specs.Prelude.{◌≡◌, ◌<◌, ◌≤◌, length, map};
ghost use Rattle.cl_forms.specs.declared.head.TokenNative.TheVariants as natives;
ghost use Rattle.cl_code.specs.Typed.{expression_of};
ghost use Rattle.cl_meaning.specs.Tokens.{stx_balance_form, token_form};
ghost use Rattle.cl_meaning.specs.Meaning.{means};
ghost use Rattle.cl_frames.specs.Seen.{scope, Fits};
ghost use Rattle.cl_frames.specs.Going.{AllGoIn};
ghost use Rattle.cl_frames.specs.Watching.{Walks, amount};

use crate::walk::{evaluate, evaluate_parts};
use cl_code::{Code, Watch};
use cl_frames::{Context, Names, Stop};
use cl_shapes::Meter;
use cl_state::World;
use cl_steps::{destroy_stx, read_stx, transfer_stx};
use cl_values::Val;

/// What a principal has of STX.
#[cycle(evaluate)]
pub(crate) fn evaluate_stx<W: Watch>(
    context: &Context,
    names: &Names,
    codes: &[Code],
    below: u32,
    world: &mut World,
    meter: &mut Meter,
    watch: &mut W,
) -> Result<Val, Stop>
    requires fit { length codes.now ≡ 1 }
    requires goes { AllGoIn context.now codes.now }
    ensures meant { Fits context.now → Walks context.now meter.old (W.seen watch.old) (stx_balance_form (means below) (scope context.now names.now) (map expression_of codes.now) world.old.stack.top) result meter.new (W.seen watch.new) world.new.stack.top }
    ensures below { world.new.stack.below ≡ world.old.stack.below }
    ensures grew { amount (W.seen watch.old) ≤ amount (W.seen watch.new) }
{
    let part = &codes[0];
    let value = evaluate(context, names, part, below, world, meter, watch)?;
    read_stx(context, value, world, meter)
}

/// A transfer of STX.
#[cycle(evaluate)]
pub(crate) fn evaluate_send_stx<W: Watch>(
    context: &Context,
    names: &Names,
    codes: &[Code],
    below: u32,
    world: &mut World,
    meter: &mut Meter,
    watch: &mut W,
) -> Result<Val, Stop>
    requires few { length codes.now < 1048576 }
    requires goes { AllGoIn context.now codes.now }
    ensures meant { Fits context.now → Walks context.now meter.old (W.seen watch.old) (token_form natives.SendStx (means below) (scope context.now names.now) (map expression_of codes.now) world.old.stack.top) result meter.new (W.seen watch.new) world.new.stack.top }
    ensures below { world.new.stack.below ≡ world.old.stack.below }
    ensures grew { amount (W.seen watch.old) ≤ amount (W.seen watch.new) }
{
    let values = evaluate_parts(context, names, codes, below, world, meter, watch)?;
    transfer_stx(context, names, values, world, meter)
}

/// A burn of STX.
#[cycle(evaluate)]
pub(crate) fn evaluate_burn_stx<W: Watch>(
    context: &Context,
    names: &Names,
    codes: &[Code],
    below: u32,
    world: &mut World,
    meter: &mut Meter,
    watch: &mut W,
) -> Result<Val, Stop>
    requires few { length codes.now < 1048576 }
    requires goes { AllGoIn context.now codes.now }
    ensures meant { Fits context.now → Walks context.now meter.old (W.seen watch.old) (token_form natives.BurnStx (means below) (scope context.now names.now) (map expression_of codes.now) world.old.stack.top) result meter.new (W.seen watch.new) world.new.stack.top }
    ensures below { world.new.stack.below ≡ world.old.stack.below }
    ensures grew { amount (W.seen watch.old) ≤ amount (W.seen watch.new) }
{
    let values = evaluate_parts(context, names, codes, below, world, meter, watch)?;
    destroy_stx(context, names, values, world, meter)
}
