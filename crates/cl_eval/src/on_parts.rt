//! The natives all of whose arguments are parts.
ghost use Rattle.std.specs.Prelude.{◌≡◌, ◌<◌, ◌≤◌, length, map, true};
ghost use Rattle.cl_forms.specs.Heads.{row_of, takes};
ghost use Rattle.cl_code.specs.OpNames.{parts_head};
ghost use Rattle.cl_code.specs.Typed.{expression_of};
ghost use Rattle.cl_meaning.specs.Meaning.{head_form, means, applied};
ghost use Rattle.cl_frames.specs.Seen.{scope, Fits};
ghost use Rattle.cl_frames.specs.Going.{AllGoIn};
ghost use Rattle.cl_frames.specs.Watching.{Walks, amount};

use crate::control::{
    evaluate_and, evaluate_as_contract, evaluate_asserts, evaluate_begin, evaluate_if, evaluate_or,
    evaluate_print, evaluate_try, evaluate_unwrap, evaluate_unwrap_err,
};
use crate::stx::{evaluate_burn_stx, evaluate_send_stx, evaluate_stx};
use cl_code::{Code, PartsNative, Watch};
use cl_frames::{Context, Names, Stop};
use cl_shapes::Meter;
use cl_state::World;
use cl_values::Val;

/// A native all of whose arguments are parts, and that isn't on values alone.
#[cycle(evaluate)]
pub(crate) fn evaluate_on_parts<W: Watch>(
    context: &Context,
    names: &Names,
    native: PartsNative,
    codes: &[Code],
    below: u32,
    world: &mut World,
    meter: &mut Meter,
    watch: &mut W,
) -> Result<Val, Stop>
    requires few { length codes.now < 1048576 }
    requires fit { takes (row_of (parts_head native)).arity (length codes.now) ≡ true }
    requires goes { AllGoIn context.now codes.now }
    ensures meant { Fits context.now → Walks context.now meter.old (W.seen watch.old) (head_form (parts_head native) (row_of (parts_head native)).cost (means below) (applied below) (scope context.now names.now) (map expression_of codes.now) world.old.stack.top) result meter.new (W.seen watch.new) world.new.stack.top }
    ensures below { world.new.stack.below ≡ world.old.stack.below }
    ensures grew { amount (W.seen watch.old) ≤ amount (W.seen watch.new) }
{
    match native {
        PartsNative::If => evaluate_if(context, names, codes, below, world, meter, watch),
        PartsNative::Begin => evaluate_begin(context, names, codes, below, world, meter, watch),
        PartsNative::And => evaluate_and(context, names, codes, below, world, meter, watch),
        PartsNative::Or => evaluate_or(context, names, codes, below, world, meter, watch),
        PartsNative::Asserts => evaluate_asserts(context, names, codes, below, world, meter, watch),
        PartsNative::Unwrap => evaluate_unwrap(context, names, codes, below, world, meter, watch),
        PartsNative::UnwrapErr => evaluate_unwrap_err(
            context, names, codes, below, world, meter, watch,
        ),
        PartsNative::Try => evaluate_try(context, names, codes, below, world, meter, watch),
        PartsNative::AsContract => evaluate_as_contract(
            context, names, codes, below, world, meter, watch,
        ),
        PartsNative::Print => evaluate_print(context, names, codes, below, world, meter, watch),
        PartsNative::StxBalance => evaluate_stx(context, names, codes, below, world, meter, watch),
        PartsNative::SendStx => evaluate_send_stx(
            context, names, codes, below, world, meter, watch,
        ),
        PartsNative::BurnStx => evaluate_burn_stx(
            context, names, codes, below, world, meter, watch,
        ),
    }
}
