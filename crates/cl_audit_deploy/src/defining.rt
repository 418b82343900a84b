//! The forms of a contract that is being deployed.
ghost use Rattle.std.specs.Prelude.{◌≡◌, ℕ, List, None, Some};
ghost use Rattle.cl_types.specs.Types.{PlainType};
ghost use Rattle.cl_maps.specs.Maps.{get};
ghost use Rattle.cl_events.specs.State.{place};
ghost use Rattle.cl_forms.specs.Forms.{ConstantForm, ExpressionForm, FungibleForm, NonFungibleForm, VariableForm};
ghost use Rattle.cl_forms.specs.FormView.{plain_kind};
ghost use Rattle.cl_meaning.specs.Deploying.{with_cap};
ghost use Rattle.cl_newness.specs.Newness.{IsNamed, IsNew};
ghost use Rattle.cl_audit_steps.specs.Seen.{contract_seen};
ghost use Rattle.cl_audit_walk.specs.Evaluates.{Evaluates};
ghost use Rattle.cl_audit_deploy.specs.Deploying.{cap_of, declared_only, defined_as, defined_by, defined_in, top_of};

use crate::paying::pay;
use cl_audit_steps::{Charge, Contract, NamedValues, Names, Scope};
use cl_audit_walk::{Run, take};
use cl_forms::{Form, FormKind};
use cl_sexpr::Sexpr;
use cl_shapes::CostName;
use cl_tables::Place;
use cl_types::Name;
use cl_values::{Kind, Val};
use cl_walks::Stop;

/// How deep an evaluation goes, calls included.
const MOST_DEPTH: u32 = 256;

/// Evaluates an expression at the top of the contract.
fn evaluate_top(
    run: &mut Run,
    scope: &Scope,
    contract: &Contract,
    item: &Sexpr,
) -> Result<Val, Stop>
    ensures { Evaluates scope.now (top_of scope.now contract.now item.now) run.old result run.new }
{
    let inner = Scope {
        alloc: scope.alloc,
        opening: Some(contract),
        contracts: scope.contracts,
        frame: scope.frame,
        costs: scope.costs,
    };
    let none = NamedValues::new(scope.alloc, scope.contracts.hash_key());
    let names = Names::alone(&none);
    take(run, &inner, &names, item, MOST_DEPTH)
}

/// The place of what the contract has under a name.
fn place_of(contract: &Contract, name: &Name) -> Place
    ensures contract { result.contract ≡ contract.now.principal }
    ensures name { result.name ≡ name.now }
{
    Place {
        contract: contract.principal,
        name: *name,
    }
}

/// The supply cap that a value is.
fn cap_of(value: &Val) -> Option<u128>
    ensures { result ≡ cap_of value.now }
{
    match &value.value().kind {
        Kind::Uint(cap) => Some(*cap),
        _ => None,
    }
}

/// A constant, which is given with its value.
fn define_constant(
    run: &mut Run,
    scope: &Scope,
    contract: &Contract,
    name: &Name,
    item: &Sexpr,
) -> Result<Option<(Name, Val)>, Stop>
    ensures { Evaluates scope.now
        (defined_as scope.now name.now (ConstantForm item.now) contract.now)
        run.old (defined_in contract.now result) run.new }
{
    let value = evaluate_top(run, scope, contract, item)?;
    pay(run, scope, Charge::of(CostName::Define, &value))?;
    Ok(Some((*name, value)))
}

fn define_variable(
    run: &mut Run,
    scope: &Scope,
    contract: &Contract,
    name: &Name,
    item: &Sexpr,
) -> Result<Option<(Name, Val)>, Stop>
    ensures { (type : PlainType) → Evaluates scope.now
        (defined_as scope.now name.now (VariableForm type item.now) contract.now)
        run.old (defined_in contract.now result) run.new }
{
    let value = evaluate_top(run, scope, contract, item)?;
    pay(run, scope, Charge::of(CostName::Define, &value))?;
    run.world.put_variable(&place_of(contract, name), value)?;
    Ok(None)
}

/// Charges the supply cap of a token, and puts the token in the world.
fn put_capped(
    run: &mut Run,
    scope: &Scope,
    contract: &Contract,
    name: &Name,
    cap: &Val,
) -> Result<Option<(Name, Val)>, Stop>
    requires { get (place contract.now.principal name.now) run.old.world.stack.top.fungibles ≡ None }
    ensures { Evaluates scope.now (with_cap (contract_seen contract.now) name.now cap.now)
        run.old (defined_in contract.now result) run.new }
{
    let Some(most) = cap_of(cap) else {
        return Err(Stop::Stuck);
    };
    pay(run, scope, Charge::of(CostName::Define, cap))?;
    run.world.define_ft(&place_of(contract, name), Some(most))?;
    Ok(None)
}

fn define_capped(
    run: &mut Run,
    scope: &Scope,
    contract: &Contract,
    name: &Name,
    item: &Sexpr,
) -> Result<Option<(Name, Val)>, Stop>
    requires { get (place contract.now.principal name.now) run.old.world.stack.top.fungibles ≡ None }
    ensures { Evaluates scope.now
        (defined_as scope.now name.now (FungibleForm (Some item.now)) contract.now)
        run.old (defined_in contract.now result) run.new }
{
    let cap = evaluate_top(run, scope, contract, item)?;
    put_capped(run, scope, contract, name, &cap)
}

fn define_uncapped(
    run: &mut Run,
    scope: &Scope,
    contract: &Contract,
    name: &Name,
) -> Result<Option<(Name, Val)>, Stop>
    requires { get (place contract.now.principal name.now) run.old.world.stack.top.fungibles ≡ None }
    ensures { Evaluates scope.now (defined_as scope.now name.now (FungibleForm None) contract.now)
        run.old (defined_in contract.now result) run.new }
{
    pay(run, scope, Charge::at(CostName::Define, 0)?)?;
    run.world.define_ft(&place_of(contract, name), None)?;
    Ok(None)
}

fn define_fungible(
    run: &mut Run,
    scope: &Scope,
    contract: &Contract,
    name: &Name,
    supply: &Option<Sexpr>,
) -> Result<Option<(Name, Val)>, Stop>
    requires { get (place contract.now.principal name.now) run.old.world.stack.top.fungibles ≡ None }
    ensures { Evaluates scope.now (defined_as scope.now name.now (FungibleForm supply.now) contract.now)
        run.old (defined_in contract.now result) run.new }
{
    match supply {
        Some(item) => define_capped(run, scope, contract, name, item),
        None => define_uncapped(run, scope, contract, name),
    }
}

fn define_nonfungible(
    run: &mut Run,
    scope: &Scope,
    contract: &Contract,
    name: &Name,
) -> Result<Option<(Name, Val)>, Stop>
    requires { get (place contract.now.principal name.now)
        run.old.world.stack.top.nonfungibles ≡ None }
    ensures { (type : PlainType) → Evaluates scope.now
        (defined_as scope.now name.now (NonFungibleForm type) contract.now)
        run.old (defined_in contract.now result) run.new }
{
    pay(run, scope, Charge::at(CostName::Define, 0)?)?;
    run.world.define_nft(&place_of(contract, name))?;
    Ok(None)
}

/// A map or a function, of which nothing is evaluated.
fn declare(run: &mut Run, scope: &Scope, contract: &Contract) -> Result<Option<(Name, Val)>, Stop>
    ensures { Evaluates scope.now (declared_only contract.now)
        run.old (defined_in contract.now result) run.new }
{
    pay(run, scope, Charge::at(CostName::Define, 0)?)?;
    Ok(None)
}

/// An expression, whose value is dropped.
fn evaluate_alone(
    run: &mut Run,
    scope: &Scope,
    contract: &Contract,
    item: &Sexpr,
) -> Result<Option<(Name, Val)>, Stop>
    ensures { (x : List ℕ) → Evaluates scope.now
        (defined_as scope.now x (ExpressionForm item.now) contract.now)
        run.old (defined_in contract.now result) run.new }
{
    evaluate_top(run, scope, contract, item)?;
    Ok(None)
}

/// A form of a name.
fn define_named(
    run: &mut Run,
    scope: &Scope,
    contract: &Contract,
    name: &Name,
    kind: &FormKind,
) -> Result<Option<(Name, Val)>, Stop>
    requires { IsNew contract.now.principal name.now contract.now.constants
        run.old.world.stack.top }
    ensures { Evaluates scope.now
        (defined_as scope.now name.now (plain_kind kind.now) contract.now)
        run.old (defined_in contract.now result) run.new }
{
    match kind {
        FormKind::Constant(item) => define_constant(run, scope, contract, name, item),
        FormKind::Variable(_, item) => define_variable(run, scope, contract, name, item),
        FormKind::MapOf(_, _) => declare(run, scope, contract),
        FormKind::Fungible(supply) => define_fungible(run, scope, contract, name, supply),
        FormKind::NonFungible(_) => define_nonfungible(run, scope, contract, name),
        FormKind::Function { .. } => declare(run, scope, contract),
        FormKind::Expression(item) => evaluate_alone(run, scope, contract, item),
    }
}

/// A form without a name, which is an expression.
fn define_unnamed(
    run: &mut Run,
    scope: &Scope,
    contract: &Contract,
    kind: &FormKind,
) -> Result<Option<(Name, Val)>, Stop>
    requires { IsNamed None (plain_kind kind.now) }
    ensures { (x : List ℕ) → Evaluates scope.now
        (defined_as scope.now x (plain_kind kind.now) contract.now)
        run.old (defined_in contract.now result) run.new }
{
    match kind {
        FormKind::Expression(item) => evaluate_alone(run, scope, contract, item),
        _ => unreachable!(),
    }
}

/// Evaluates a form, charges it, and puts what it defines in the world; a constant is given.
pub(crate) fn define(
    run: &mut Run,
    scope: &Scope,
    contract: &Contract,
    form: &Form,
) -> Result<Option<(Name, Val)>, Stop>
    requires named { IsNamed form.now.name form.now.kind }
    requires new { (x : List ℕ) → form.now.name ≡ Some x →
        IsNew contract.now.principal x contract.now.constants run.old.world.stack.top }
    ensures { Evaluates scope.now (defined_by scope.now form.now contract.now)
        run.old (defined_in contract.now result) run.new }
{
    match &form.name {
        Some(name) => define_named(run, scope, contract, name, &form.kind),
        None => define_unnamed(run, scope, contract, &form.kind),
    }
}
