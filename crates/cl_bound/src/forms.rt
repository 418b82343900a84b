//! What definitions are charged at a deployment, and what an application of a function is.
ghost use Rattle.std.specs.Prelude.{◌≡◌, ℕ, List, [], map};
ghost use Rattle.cl_types.specs.Types.{PlainType, UintType, size_of};
ghost use Rattle.cl_shapes.specs.declared.name.CostName.TheVariants.{Define};
ghost use Rattle.cl_costs.specs.Tables.{function_of};
ghost use Rattle.cl_rules.specs.Bills.{Charge, Both, cost_under};
ghost use Rattle.cl_rules.specs.Context.{Context};
ghost use Rattle.cl_rules.specs.ControlShapes.{binds};
ghost use Rattle.cl_rules.specs.FormRules.{Defined, application, form_charges};
ghost use Rattle.cl_rules.specs.Verdicts.{Found};
ghost use Rattle.cl_contracts.specs.Seen.{kind_at};
ghost use Rattle.cl_contracts.specs.Standing.{Stands};
ghost use Rattle.cl_contracts.specs.Standings.{StandsAs};
ghost use Rattle.cl_sums.specs.Sums.{told, Increases};
ghost use Rattle.cl_bound.specs.Seen.{ShowsPrices};

use crate::prices::Prices;
use crate::walk::{add_bound, tree_bound};
use cl_code::{Code, Definition};
use cl_shapes::CostName;
use cl_sums::Sum;
use cl_types::{Name, SizedTy, size};

/// Adds a bind for each parameter.
fn add_binds(prices: &Prices, params: &[(Name, SizedTy)], sum: &mut Sum)
    ensures { Increases sum.old sum.new (cost_under (function_of prices.now.costs) (binds (map (λ (p : List ℕ × PlainType). p.1) params.now))) }
{
    for param in params {
        prices.add_charge(CostName::Bind, u64::from(size(&param.1)), sum);
    }
}

/// The bound of one application of a function with these parameters and this body.
pub(crate) fn application(prices: &Prices, params: &[(Name, SizedTy)], body: &Code) -> Sum
    ensures { (G : Context) (f : Found) → ShowsPrices prices.now G → Stands G params.now body.now f → result ≡ told (cost_under (function_of prices.now.costs) (application params.now f)) }
{
    let mut sum = prices.charge_count(CostName::Call, params.len());
    add_binds(prices, params, &mut sum);
    add_bound(prices, body, &mut sum);
    sum
}

/// An expression, and the definition of its value.
fn value_charges(prices: &Prices, code: &Code) -> Sum
    ensures { (G : Context) (f : Found) → ShowsPrices prices.now G → Stands G [] code.now f → result ≡ told (cost_under (function_of prices.now.costs) (Both f.bound (Charge Define (size_of f.type)))) }
{
    let mut sum = tree_bound(prices, code);
    prices.add_charge(CostName::Define, u64::from(size(&code.ty)), &mut sum);
    sum
}

/// The expression of a greatest supply, and its definition.
fn supply_charges(prices: &Prices, code: &Code) -> Sum
    ensures { (G : Context) (f : Found) → ShowsPrices prices.now G → Stands G [] code.now f → result ≡ told (cost_under (function_of prices.now.costs) (Both f.bound (Charge Define (size_of UintType)))) }
{
    let mut sum = tree_bound(prices, code);
    prices.add_charge(CostName::Define, 17, &mut sum);
    sum
}

/// What a definition is charged when it is deployed.
pub(crate) fn charges(prices: &Prices, definition: &Definition) -> Sum
    ensures { (D : Defined) (fs : List Found) → ShowsPrices prices.now D.context → StandsAs D definition.now fs → result ≡ told (cost_under (function_of prices.now.costs) (form_charges (kind_at definition.now) fs)) }
{
    match definition {
        Definition::Constant(constant) => value_charges(prices, &constant.value),
        Definition::Variable(variable) => value_charges(prices, &variable.value),
        Definition::Fungible(token) => match &token.supply {
            Some(supply) => supply_charges(prices, supply),
            None => prices.charge(CostName::Define, 0),
        },
        Definition::TopLevel(expression) => tree_bound(prices, &expression.value),
        Definition::MapOf(_) | Definition::NonFungible(_) | Definition::Function(_) =>
            prices.charge(CostName::Define, 0),
    }
}
