//! The natives that bind names: match and let.
ghost use Rattle.std.specs.Prelude.{◌≡◌, ◌<◌, ◌≤◌, ◌∷◌, ◌++◌, List, length, map, drop};
ghost use Rattle.cl_sexpr.specs.declared.sexpr.Span.{Span};
ghost use Rattle.cl_sexpr.specs.Tree.{Tree, ListAt, forest};
ghost use Rattle.cl_code.specs.Expression.{bound_items, optional_branches, response_branches};
ghost use Rattle.cl_meaning.specs.Scope.{taken_with};
ghost use Rattle.cl_meaning.specs.Control.{match_form, let_form, let_in};
ghost use Rattle.cl_code.specs.Typed.{expression_of};
ghost use Rattle.cl_meaning.specs.Meaning.{means};
ghost use Rattle.cl_frames.specs.Seen.{costs_of, scope, scope_of, Fits};
ghost use Rattle.cl_frames.specs.Going.{GoesIn, AllGoIn};
ghost use Rattle.cl_frames.specs.Watching.{BindsAll, Walks, amount, watched};

use crate::walk::{evaluate, evaluate_parts};
use cl_calls::last;
use cl_code::{Binding, Code, Watch, Word};
use cl_frames::{
    Context, Names, Stop, Way, into_content, optional_way_of, pay, pay_for, response_way_of,
};
use cl_shapes::{CostName, Meter};
use cl_state::World;
use cl_types::Name;
use cl_values::Val;

#[cycle(evaluate)]
pub(crate) fn evaluate_match_optional<W: Watch>(
    context: &Context,
    names: &Names,
    part: &Word,
    codes: &[Code],
    below: u32,
    world: &mut World,
    meter: &mut Meter,
    watch: &mut W,
) -> Result<Val, Stop>
    requires fit { length codes.now ≡ 3 }
    requires goes { AllGoIn context.now codes.now }
    ensures meant { Fits context.now → Walks context.now meter.old (W.seen watch.old) (match_form (means below) (scope context.now names.now) (optional_branches part.now (map expression_of codes.now)) world.old.stack.top) result meter.new (W.seen watch.new) world.new.stack.top }
    ensures below { world.new.stack.below ≡ world.old.stack.below }
    ensures grew { amount (W.seen watch.old) ≤ amount (W.seen watch.new) }
{
    let whole = &codes[0];
    let some = &codes[1];
    let none = &codes[2];
    pay(context.costs, meter, CostName::Control, 4)?;
    let value = evaluate(context, names, whole, below, world, meter, watch)?;
    match optional_way_of(&value) {
        Way::Good => {
            let inner = into_content(value);
            evaluate_with(
                context, names, part, inner, some, below, world, meter, watch,
            )
        }
        Way::Bad => evaluate(context, names, none, below, world, meter, watch),
        Way::Neither => Err(Stop::Stuck),
    }
}

#[cycle(evaluate)]
pub(crate) fn evaluate_match_response<W: Watch>(
    context: &Context,
    names: &Names,
    good: &Word,
    bad: &Word,
    codes: &[Code],
    below: u32,
    world: &mut World,
    meter: &mut Meter,
    watch: &mut W,
) -> Result<Val, Stop>
    requires fit { length codes.now ≡ 3 }
    requires goes { AllGoIn context.now codes.now }
    ensures meant { Fits context.now → Walks context.now meter.old (W.seen watch.old) (match_form (means below) (scope context.now names.now) (response_branches good.now bad.now (map expression_of codes.now)) world.old.stack.top) result meter.new (W.seen watch.new) world.new.stack.top }
    ensures below { world.new.stack.below ≡ world.old.stack.below }
    ensures grew { amount (W.seen watch.old) ≤ amount (W.seen watch.new) }
{
    let whole = &codes[0];
    let ok = &codes[1];
    let err = &codes[2];
    pay(context.costs, meter, CostName::Control, 5)?;
    let value = evaluate(context, names, whole, below, world, meter, watch)?;
    match response_way_of(&value) {
        Way::Good => {
            let inner = into_content(value);
            evaluate_with(context, names, good, inner, ok, below, world, meter, watch)
        }
        Way::Bad => {
            let inner = into_content(value);
            evaluate_with(context, names, bad, inner, err, below, world, meter, watch)
        }
        Way::Neither => Err(Stop::Stuck),
    }
}

/// A branch, where a name is bound to a value.
#[cycle(evaluate)]
fn evaluate_with<W: Watch>(
    context: &Context,
    names: &Names,
    name: &Word,
    value: Val,
    code: &Code,
    below: u32,
    world: &mut World,
    meter: &mut Meter,
    watch: &mut W,
) -> Result<Val, Stop>
    requires goes { GoesIn context.now code.now }
    ensures meant { Fits context.now → Walks context.now meter.old (W.seen watch.old) (taken_with (means below) (scope context.now names.now) name.now.name value (expression_of code.now) world.old.stack.top) result meter.new (W.seen watch.new) world.new.stack.top }
    ensures below { world.new.stack.below ≡ world.old.stack.below }
    ensures grew { amount (W.seen watch.old) ≤ amount (W.seen watch.new) }
{
    pay_for(context.costs, meter, CostName::Bind, &value)?;
    let inner = Names::with_one(&*names, &name.name, &value);
    evaluate(context, &inner, code, below, world, meter, watch)
}

/// A part that sees more names.
#[cycle(evaluate)]
fn evaluate_in<W: Watch>(
    context: &Context,
    names: &Names,
    own: &[(Name, Val)],
    code: &Code,
    below: u32,
    world: &mut World,
    meter: &mut Meter,
    watch: &mut W,
) -> Result<Val, Stop>
    requires goes { GoesIn context.now code.now }
    ensures meant { Fits context.now → Walks context.now meter.old (W.seen watch.old) (means below (scope_of context.now (names.now.values ++ own.now)) (expression_of code.now) world.old.stack.top) result meter.new (W.seen watch.new) world.new.stack.top }
    ensures below { world.new.stack.below ≡ world.old.stack.below }
    ensures grew { amount (W.seen watch.old) ≤ amount (W.seen watch.new) }
{
    let inner = Names::within(&*names, &*own);
    evaluate(context, &inner, code, below, world, meter, watch)
}

#[cycle(evaluate)]
pub(crate) fn evaluate_let<W: Watch>(
    context: &Context,
    names: &Names,
    bindings: &[Binding],
    codes: &[Code],
    below: u32,
    world: &mut World,
    meter: &mut Meter,
    watch: &mut W,
) -> Result<Val, Stop>
    requires few { length codes.now < 1048576 }
    requires fit { length bindings.now < length codes.now }
    requires goes { AllGoIn context.now codes.now }
    ensures meant { (at : Span) → Fits context.now → Walks context.now meter.old (W.seen watch.old) (let_form (means below) (scope context.now names.now) (ListAt (forest (bound_items bindings.now (map expression_of codes.now))) at ∷ drop (length bindings.now) (map expression_of codes.now)) world.old.stack.top) result meter.new (W.seen watch.new) world.new.stack.top }
    ensures below { world.new.stack.below ≡ world.old.stack.below }
    ensures grew { amount (W.seen watch.old) ≤ amount (W.seen watch.new) }
{
    let count = bindings.len();
    pay(
        context.costs,
        meter,
        CostName::Control,
        (codes.len() - count + 1) as u64,
    )?;
    let own = evaluate_bindings(context, names, bindings, codes, below, world, meter, watch)?;
    let inner = Names::within(&*names, &own);
    let values = evaluate_parts(context, &inner, &codes[count..], below, world, meter, watch)?;
    last(values)
}

/// The values of bindings, each of which sees those before it.
#[cycle(evaluate)]
fn evaluate_bindings<W: Watch>(
    context: &Context,
    names: &Names,
    bindings: &[Binding],
    codes: &[Code],
    below: u32,
    world: &mut World,
    meter: &mut Meter,
    watch: &mut W,
) -> Result<Vec<(Name, Val)>, Stop>
    requires fit { length bindings.now ≤ length codes.now }
    requires goes { AllGoIn context.now codes.now }
    ensures meant { (body : List Tree) → Fits context.now → BindsAll (costs_of context.now) (means below) body (λ own. scope_of context.now (names.now.values ++ own)) (watched (costs_of context.now) meter.old (W.seen watch.old) (let_in (means below) body (scope context.now names.now) (bound_items bindings.now (map expression_of codes.now)) world.old.stack.top)) result meter.new (W.seen watch.new) world.new.stack.top }
    ensures below { world.new.stack.below ≡ world.old.stack.below }
    ensures grew { amount (W.seen watch.old) ≤ amount (W.seen watch.new) }
{
    let mut own = Vec::with_capacity(context.alloc, bindings.len())?;
    let mut place = 0;
    for binding in bindings {
        let value = evaluate_in(
            context,
            names,
            &own,
            &codes[place],
            below,
            world,
            meter,
            watch,
        )?;
        pay_for(context.costs, meter, CostName::Bind, &value)?;
        own.push((binding.word.name, value))?;
        place += 1;
    }
    Ok(own)
}
