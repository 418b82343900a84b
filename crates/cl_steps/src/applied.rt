//! What is given by name to be applied.
ghost use Rattle.std.specs.Prelude.{◌≡◌, ◌<◌, ◌≤◌, List, ℕ, true, length, option_map, IfSome};
ghost use Rattle.cl_values.specs.Tree.{Tree};
ghost use Rattle.cl_events.specs.State.{State};
ghost use Rattle.cl_code.specs.Nodes.{has_own_applied};
ghost use Rattle.cl_meaning.specs.Sequences.{callee_of};
ghost use Rattle.cl_meaning.specs.Calls.{truths};
ghost use Rattle.cl_meaning.specs.Meaning.{applied};
ghost use Rattle.cl_frames.specs.Applying.{callee_seen, by_name, name_of_applied, place_of_applied, truth_of, join, joined as joined_form};
ghost use Rattle.cl_frames.specs.Runs.{Runs};
ghost use Rattle.cl_frames.specs.Watching.{Walks, amount};
ghost use Rattle.cl_frames.specs.Seen.{scope_of, version_of, Fits};
ghost use Rattle.cl_frames.specs.Going.{AppliedGoesIn, goes_called};

use crate::finding::own_function;
use crate::natives::native_on;
use cl_code::{Applied, Function, Watch};
use cl_frames::{ByName, Called, Context, Stop, pay};
use cl_seq::bool_value;
use cl_shapes::{CostName, Meter};
use cl_values::{Kind, Native, Val};

/// What is given by name.
pub fn callee_named<'a>(context: &'a Context, applied: &Applied) -> Option<Called<'a>>
    requires own { has_own_applied applied.now ≡ true }
    requires applies { AppliedGoesIn context.now applied.now }
    ensures seen { (bound : List (List ℕ × Tree)) → Fits context.now → option_map (λ f. callee_seen f) result ≡ callee_of (scope_of context.now bound) (name_of_applied applied.now) (place_of_applied applied.now) }
    ensures goes { Fits context.now →
        IfSome result (λ f. goes_called (version_of context.now) f ≡ true) }
{
    match applied {
        Applied::Function(word) => match own_function(context, &word.name) {
            Some(function) => Some(Called::Function(function)),
            None => None,
        },
        Applied::OnValues(native, at) => Some(Called::Native(ByName::OnValues(*native, *at))),
        Applied::And(at) => Some(Called::Native(ByName::And(*at))),
        Applied::Or(at) => Some(Called::Native(ByName::Or(*at))),
    }
}

/// A truth value, where it is one.
pub(crate) fn truth_of(value: &Val) -> Option<bool>
    ensures { result ≡ truth_of value.now }
{
    match &value.value().kind {
        Kind::Bool(holds) => Some(*holds),
        _ => None,
    }
}

/// Whether both hold, or one of them.
fn join(all: bool, first: bool, second: bool) -> bool
    ensures { result ≡ join all first second }
{
    if all {
        first && second
    } else {
        first || second
    }
}

/// Whether all of the values are true, or some of them; None where one is no truth value.
fn joined(all: bool, values: &[Val]) -> Option<bool>
    ensures { result ≡ truths (join all) all values.now }
{
    let mut so_far = all;
    for value in values {
        match truth_of(value) {
            Some(holds) => so_far = join(all, so_far, holds),
            None => return None,
        }
    }
    Some(so_far)
}

/// `and` or `or` of values.
fn joined_on(context: &Context, all: bool, values: Vec<Val>, meter: &mut Meter) -> Result<Val, Stop>
    requires { length values.items < 1048576 }
    ensures { (s : State) → Runs context.now meter.old (joined_form all values.items s) result meter.new s }
{
    pay(context.costs, meter, CostName::Control, values.len() as u64)?;
    match joined(all, &values) {
        Some(holds) => Ok(bool_value(holds)),
        None => Err(Stop::Stuck),
    }
}

/// Applies a native to values, to a depth.
fn apply_by_name(
    context: &Context,
    native: ByName,
    values: Vec<Val>,
    depth: u32,
    meter: &mut Meter,
) -> Result<Val, Stop>
    requires { length values.items < 1048576 }
    ensures { (bound : List (List ℕ × Tree)) (s : State) → Runs context.now meter.old (applied depth (scope_of context.now bound) (by_name native) values.items s) result meter.new s }
{
    if depth == 0 {
        return Err(Stop::Stuck);
    }
    match native {
        ByName::OnValues(native, _) => native_on(context, native, values, meter),
        ByName::And(_) => joined_on(context, true, values, meter),
        ByName::Or(_) => joined_on(context, false, values, meter),
    }
}

/// Applies a native to values, to a depth, and tells the value that it gives at the place of its name.
pub fn apply_watched<W: Watch>(
    context: &Context,
    native: ByName,
    values: Vec<Val>,
    depth: u32,
    meter: &mut Meter,
    watch: &mut W,
) -> Result<Val, Stop>
    requires { length values.items < 1048576 }
    ensures meant { (bound : List (List ℕ × Tree)) (s : State) → Walks context.now meter.old (W.seen watch.old) (applied depth (scope_of context.now bound) (by_name native) values.items s) result meter.new (W.seen watch.new) s }
    ensures grew { amount (W.seen watch.old) ≤ amount (W.seen watch.new) }
{
    let value = apply_by_name(context, native, values, depth, meter)?;
    watch.saw(native.place(), &value)?;
    Ok(value)
}
