//! The definitions of a contract that is being deployed.
ghost use Rattle.std.specs.Prelude.{◌≡◌, ◌≤◌, true, List, ℕ, Option, Some, None};
ghost use Rattle.cl_types.specs.Types.{PlainType};
ghost use Rattle.cl_sexpr.specs.declared.sexpr.Span.{Span};
ghost use Rattle.cl_maps.specs.Maps.{get};
ghost use Rattle.cl_events.specs.State.{place};
ghost use Rattle.cl_code.specs.Typed.{expression_of, goes_by};
ghost use Rattle.cl_code.specs.declared.definition.Definition.TheVariants.{Fungible as FungibleOfCode};
ghost use Rattle.cl_code.specs.Definitions.{form_defined};
ghost use Rattle.cl_contracts.specs.Seen.{goes};
ghost use Rattle.cl_forms.specs.Forms.{ConstantForm, VariableForm, FungibleForm, ExpressionForm};
ghost use Rattle.cl_meaning.specs.Deployed.{value_of};
ghost use Rattle.cl_frames.specs.Watching.{Ends, amount, watched};
ghost use Rattle.cl_newness.specs.Newness.{IsNew};
ghost use Rattle.cl_frames.specs.Deploys.{IsDeploying, Builds, costs_of, top_of, defined_by};

use crate::call::MOST_DEPTH;
use cl_code::{Code, Definition, Fungible, Watch};
use cl_eval::evaluate;
use cl_frames::{Context, Deploying, Home, Names, Stop, pay, pay_for};
use cl_keyed::HashKey;
use cl_shapes::{CostName, Meter};
use cl_state::World;
use cl_steps::{define_nonfungible, define_uncapped, place_of, put_capped};
use cl_types::Name;
use cl_values::Val;
use indexmap::IndexMap;

/// Evaluates an expression at the top.
fn evaluate_top<W: Watch>(
    deploying: &Deploying,
    constants: &IndexMap<Name, Val, HashKey>,
    code: &Code,
    world: &mut World,
    meter: &mut Meter,
    watch: &mut W,
) -> Result<Val, Stop>
    requires fits { IsDeploying deploying.now }
    requires goes { goes_by deploying.now.checked.now.version code.now ≡ true }
    ensures meant { Ends (watched (costs_of deploying.now) meter.old (W.seen watch.old) (top_of deploying.now constants.now.entries (expression_of code.now) world.old.stack.top)) result meter.new (W.seen watch.new) world.new.stack.top }
    ensures below { world.new.stack.below ≡ world.old.stack.below }
    ensures grew { amount (W.seen watch.old) ≤ amount (W.seen watch.new) }
{
    let home = Home {
        checked: deploying.checked,
        constants,
    };
    let context = Context {
        alloc: deploying.alloc,
        deployed: deploying.deployed,
        opening: Some(home),
        home,
        frame: deploying.frame,
        costs: deploying.costs,
    };
    evaluate(
        &context,
        &Names::alone(&[]),
        code,
        MOST_DEPTH,
        world,
        meter,
        watch,
    )
}

fn define_constant<W: Watch>(
    deploying: &Deploying,
    constants: &mut IndexMap<Name, Val, HashKey>,
    name: &Name,
    value: &Code,
    world: &mut World,
    meter: &mut Meter,
    watch: &mut W,
) -> Result<(), Stop>
    requires fits { IsDeploying deploying.now }
    requires new { value_of name.now constants.old.entries ≡ None }
    requires goes { goes_by deploying.now.checked.now.version value.now ≡ true }
    ensures meant { (at : Span) → Builds deploying.now meter.old (W.seen watch.old) (defined_by deploying.now (record { name = Some name.now; kind = ConstantForm (expression_of value.now); span = at }) constants.old.entries world.old.stack.top) constants.new.entries result meter.new (W.seen watch.new) world.new.stack.top }
    ensures below { world.new.stack.below ≡ world.old.stack.below }
    ensures grew { amount (W.seen watch.old) ≤ amount (W.seen watch.new) }
{
    let value = evaluate_top(deploying, constants, value, world, meter, watch)?;
    pay_for(deploying.costs, meter, CostName::Define, &value)?;
    constants.insert(*name, value)?;
    Ok(())
}

fn define_variable<W: Watch>(
    deploying: &Deploying,
    constants: &IndexMap<Name, Val, HashKey>,
    name: &Name,
    value: &Code,
    world: &mut World,
    meter: &mut Meter,
    watch: &mut W,
) -> Result<(), Stop>
    requires fits { IsDeploying deploying.now }
    requires goes { goes_by deploying.now.checked.now.version value.now ≡ true }
    ensures meant { (type : PlainType) (at : Span) → Builds deploying.now meter.old (W.seen watch.old) (defined_by deploying.now (record { name = Some name.now; kind = VariableForm type (expression_of value.now); span = at }) constants.now.entries world.old.stack.top) constants.now.entries result meter.new (W.seen watch.new) world.new.stack.top }
    ensures below { world.new.stack.below ≡ world.old.stack.below }
    ensures grew { amount (W.seen watch.old) ≤ amount (W.seen watch.new) }
{
    let value = evaluate_top(deploying, constants, value, world, meter, watch)?;
    pay_for(deploying.costs, meter, CostName::Define, &value)?;
    world.put_variable(&place_of(deploying, name), value)?;
    Ok(())
}

fn define_capped<W: Watch>(
    deploying: &Deploying,
    constants: &IndexMap<Name, Val, HashKey>,
    name: &Name,
    cap: &Code,
    world: &mut World,
    meter: &mut Meter,
    watch: &mut W,
) -> Result<(), Stop>
    requires fits { IsDeploying deploying.now }
    requires new { get (place deploying.now.checked.now.principal name.now) world.old.stack.top.fungibles ≡ None }
    requires goes { goes_by deploying.now.checked.now.version cap.now ≡ true }
    ensures meant { (at : Span) → Builds deploying.now meter.old (W.seen watch.old) (defined_by deploying.now (record { name = Some name.now; kind = FungibleForm (Some (expression_of cap.now)); span = at }) constants.now.entries world.old.stack.top) constants.now.entries result meter.new (W.seen watch.new) world.new.stack.top }
    ensures below { world.new.stack.below ≡ world.old.stack.below }
    ensures grew { amount (W.seen watch.old) ≤ amount (W.seen watch.new) }
{
    let cap = evaluate_top(deploying, constants, cap, world, meter, watch)?;
    put_capped(deploying, constants, name, &cap, world, meter)
}

fn define_fungible<W: Watch>(
    deploying: &Deploying,
    constants: &IndexMap<Name, Val, HashKey>,
    token: &Fungible,
    world: &mut World,
    meter: &mut Meter,
    watch: &mut W,
) -> Result<(), Stop>
    requires fits { IsDeploying deploying.now }
    requires new { get (place deploying.now.checked.now.principal token.now.name) world.old.stack.top.fungibles ≡ None }
    requires goes { goes deploying.now.checked.now.version (FungibleOfCode token.now) ≡ true }
    ensures meant { Builds deploying.now meter.old (W.seen watch.old) (defined_by deploying.now (form_defined (FungibleOfCode token.now)) constants.now.entries world.old.stack.top) constants.now.entries result meter.new (W.seen watch.new) world.new.stack.top }
    ensures below { world.new.stack.below ≡ world.old.stack.below }
    ensures grew { amount (W.seen watch.old) ≤ amount (W.seen watch.new) }
{
    match &token.supply {
        Some(cap) => define_capped(deploying, constants, &token.name, cap, world, meter, watch),
        None => define_uncapped(deploying, constants, &token.name, world, meter),
    }
}

/// An expression whose value is dropped.
fn evaluate_alone<W: Watch>(
    deploying: &Deploying,
    constants: &IndexMap<Name, Val, HashKey>,
    code: &Code,
    world: &mut World,
    meter: &mut Meter,
    watch: &mut W,
) -> Result<(), Stop>
    requires fits { IsDeploying deploying.now }
    requires goes { goes_by deploying.now.checked.now.version code.now ≡ true }
    ensures meant { (name : Option (List ℕ)) (at : Span) → Builds deploying.now meter.old (W.seen watch.old) (defined_by deploying.now (record { name = name; kind = ExpressionForm (expression_of code.now); span = at }) constants.now.entries world.old.stack.top) constants.now.entries result meter.new (W.seen watch.new) world.new.stack.top }
    ensures below { world.new.stack.below ≡ world.old.stack.below }
    ensures grew { amount (W.seen watch.old) ≤ amount (W.seen watch.new) }
{
    evaluate_top(deploying, constants, code, world, meter, watch)?;
    Ok(())
}

/// Evaluates a definition, charges it, and puts it among the constants or in the world.
pub(crate) fn define<W: Watch>(
    deploying: &Deploying,
    constants: &mut IndexMap<Name, Val, HashKey>,
    definition: &Definition,
    world: &mut World,
    meter: &mut Meter,
    watch: &mut W,
) -> Result<(), Stop>
    requires fits { IsDeploying deploying.now }
    requires new { (x : List ℕ) → (form_defined definition.now).name ≡ Some x → IsNew deploying.now.checked.now.principal x constants.old.entries world.old.stack.top }
    requires goes { goes deploying.now.checked.now.version definition.now ≡ true }
    ensures meant { Builds deploying.now meter.old (W.seen watch.old) (defined_by deploying.now (form_defined definition.now) constants.old.entries world.old.stack.top) constants.new.entries result meter.new (W.seen watch.new) world.new.stack.top }
    ensures below { world.new.stack.below ≡ world.old.stack.below }
    ensures grew { amount (W.seen watch.old) ≤ amount (W.seen watch.new) }
{
    match definition {
        Definition::Constant(constant) => define_constant(
            deploying,
            constants,
            &constant.name,
            &constant.value,
            world,
            meter,
            watch,
        ),
        Definition::Variable(variable) => define_variable(
            deploying,
            constants,
            &variable.name,
            &variable.value,
            world,
            meter,
            watch,
        ),
        Definition::Fungible(token) => {
            define_fungible(deploying, constants, token, world, meter, watch)
        }
        Definition::NonFungible(token) => {
            define_nonfungible(deploying, constants, &token.name, world, meter)
        }
        Definition::MapOf(_) => pay(deploying.costs, meter, CostName::Define, 0),
        Definition::Function(_) => pay(deploying.costs, meter, CostName::Define, 0),
        Definition::TopLevel(expression) => {
            evaluate_alone(deploying, constants, &expression.value, world, meter, watch)
        }
    }
}
