//! The functions of a contract and the charges of its deployment.
ghost use Rattle.std.specs.Prelude.{◌≡◌, ℕ, List, slice_get, option_copied, IfOk, OnOk, Some, None, if◌then◌else◌};
ghost use Rattle.std.specs.Option.{option_or};
ghost use Rattle.indexmap.specs.IndexMap.{get as lookup};
ghost use Rattle.cl_forms.specs.Names.{same};
ghost use Rattle.cl_c32.specs.declared.principal.Principal.{Principal};
ghost use Rattle.cl_costs.specs.Tables.{function_of};
ghost use Rattle.cl_code.specs.Definitions.{form_defined, function_form};
ghost use Rattle.cl_code.specs.declared.definition.Definition.TheVariants.{Function as AFunction};
ghost use Rattle.cl_rules.specs.Bills.{cost_under};
ghost use Rattle.cl_rules.specs.Context.{Known};
ghost use Rattle.cl_rules.specs.Verdicts.{Found};
ghost use Rattle.cl_rules.specs.FormRules.{Defined, defined_after, form_charges, nothing_defined};
ghost use Rattle.cl_contracts.specs.Seen.{kind_at};
ghost use Rattle.cl_contracts.specs.Standings.{StandsAs, AllStand, definitions_in_order};
ghost use Rattle.cl_sums.specs.Sums.{told};
ghost use Rattle.cl_bound.specs.Seen.{ShowsPrices};

use crate::forms::{application, charges};
use crate::prices::{Application, Prices};
use cl_code::{Definition, Function};
use cl_contracts::Parts;
use cl_keyed::HashKey;
use cl_shapes::CostName;
use cl_sums::Sum;
use cl_types::{Name, NoMemory};
use indexmap::IndexMap;

/// The definition at a place.
pub(crate) fn definition_at(parts: &Parts, place: usize) -> Option<&Definition>
    ensures { option_copied result ≡ slice_get parts.now.definitions.items place }
{
    parts.definitions.get(place)
}

/// Keeps an application under a name, unless another has it.
fn keep(
    functions: &mut IndexMap<Name, Application, HashKey>,
    name: Name,
    application: Application,
) -> Result<(), NoMemory>
    ensures { OnOk result ((x : List ℕ) → lookup same functions.new x ≡ option_or (lookup same functions.old x) (if same x name then Some application else None)) }
{
    // One look-up where no other has the name, which is always so in what is checked.
    if let Some(first) = functions.insert(name, application)? {
        functions.insert(name, first)?;
    }
    Ok(())
}

/// Takes in a function: the bound of its application.
fn define(prices: &mut Prices, function: &Function) -> Result<(), NoMemory>
    ensures costs { prices.new.costs ≡ prices.old.costs }
    ensures shown { OnOk result ((D : Defined) (fs : List Found) → ShowsPrices prices.old D.context → StandsAs D (AFunction function.now) fs → ShowsPrices prices.new (defined_after D (function_form function.now) fs).context) }
{
    let bound = application(prices, &function.params, &function.body);
    let application = Application {
        access: function.access,
        bound,
    };
    keep(&mut prices.functions, function.name, application)
}

/// Takes in a definition. Gives what it is charged when it is deployed.
fn take_in(prices: &mut Prices, definition: &Definition) -> Result<Sum, NoMemory>
    ensures costs { prices.new.costs ≡ prices.old.costs }
    ensures charged { IfOk result (λ sum. (D : Defined) (fs : List Found) → ShowsPrices prices.old D.context → StandsAs D definition.now fs → sum ≡ told (cost_under (function_of prices.old.costs) (form_charges (kind_at definition.now) fs))) }
    ensures shown { OnOk result ((D : Defined) (fs : List Found) → ShowsPrices prices.old D.context → StandsAs D definition.now fs → ShowsPrices prices.new (defined_after D (form_defined definition.now) fs).context) }
{
    let sum = charges(prices, definition);
    if let Definition::Function(function) = definition {
        define(prices, function)?;
    }
    Ok(sum)
}

/// Takes in the definitions of a contract in the order of evaluation. Gives the bound of its
/// deployment.
pub(crate) fn deployment(prices: &mut Prices, parts: &Parts) -> Result<Sum, NoMemory>
    ensures costs { prices.new.costs ≡ prices.old.costs }
    ensures defined { IfOk result
        (λ sum. (known : List Known) (principal : Principal) (E : Defined) →
        let before = nothing_defined known principal parts.now.version parts.now.source_length in
        ShowsPrices prices.old before.context →
        AllStand before (definitions_in_order parts.now) E →
        ShowsPrices prices.new E.context
        × (sum ≡ told (cost_under (function_of prices.old.costs) E.deploy))) }
{
    let mut sum = prices.charge_length(CostName::Deploy, parts.source_length);
    for place in &parts.order {
        if let Some(definition) = definition_at(parts, *place) {
            let charge = take_in(prices, definition)?;
            sum = sum.add(&charge);
        }
    }
    Ok(sum)
}
