//! The bounds of a contract under another table, where none is refused.
ghost use Rattle.std.specs.Prelude.{◌≡◌, List, IfOk, map};
ghost use Rattle.cl_c32.specs.declared.principal.Principal.{Principal as APrincipal};
ghost use Rattle.cl_costs.specs.Tables.{function_of};
ghost use Rattle.cl_rules.specs.Context.{CostTable as Table, Signature, signature_in};
ghost use Rattle.cl_rules.specs.FormRules.{Defined};
ghost use Rattle.cl_code.specs.Definitions.{form_defined};
ghost use Rattle.cl_contracts.specs.declared.contract.Contract.{Contract};
ghost use Rattle.cl_shapes.specs.Costs.{first_above};
ghost use Rattle.cl_shapes.specs.declared.cost.Cost5.{Cost5};
ghost use Rattle.cl_rules.specs.Acceptance.{bound_at, most_cost};
ghost use Rattle.cl_sums.specs.Sums.{told};
ghost use Rattle.cl_tx.specs.Rebounds.{reach_of};
ghost use Rattle.std.specs.List.{filter_map};
ghost use Rattle.cl_bound.specs.Known.{AreBounds, AreBoundsOf};
ghost use Rattle.cl_bound.specs.Seen.{ShowFunctions};
ghost use Rattle.cl_bound.specs.Reaches.{AreReachesOf, named_reach, reach_at, reach_line};

use crate::bounds::contract_bounds;
use crate::known::{ContractBounds, KnownBounds};
use crate::prices::Application;
use cl_code::Definition;
use cl_contracts::Checked;
use cl_costs::CostTable;
use cl_keyed::HashKey;
use cl_sums::Sum;
use cl_tx::Reach;
use cl_types::{Name, NoMemory};
use indexmap::IndexMap;
use std::alloc::Global;

/// The cost, or the first dimension in which it is above 2^128-1.
fn reach_of(sum: &Sum) -> Reach
    ensures { (a : Cost5) → sum.now ≡ told a → result ≡ reach_of a (first_above most_cost a) }
{
    match sum.counted() {
        Ok(cost) => Reach::Bound(cost),
        Err(dimension) => Reach::Over(dimension),
    }
}

/// The bound of the function of a name.
pub(crate) fn reach_at(
    functions: &IndexMap<Name, Application, HashKey>,
    name: &Name,
) -> Option<Reach>
    ensures { (table : Table) (fs : List Signature) →
        ShowFunctions table fs functions.now.entries →
        result ≡ reach_at table (signature_in name.now fs) }
{
    match functions.get(name) {
        Some(application) => Some(reach_of(&application.bound)),
        None => None,
    }
}

/// A name with the bound of its function.
fn function_reach(contract: &ContractBounds, name: &Name) -> Option<(Name, Reach)>
    ensures { (table : Table) (D : Defined) →
        ShowFunctions table D.context.functions contract.now.functions.entries →
        result ≡ named_reach table name.now (bound_at (signature_in name.now D.context.functions)) }
{
    match reach_at(&contract.functions, name) {
        Some(reach) => Some((*name, reach)),
        None => None,
    }
}

/// The same of a definition that is a function.
fn reach_line(contract: &ContractBounds, definition: &Definition) -> Option<(Name, Reach)>
    ensures { (table : Table) (D : Defined) →
        ShowFunctions table D.context.functions contract.now.functions.entries →
        result ≡ reach_line table D (form_defined definition.now) }
{
    match definition {
        Definition::Function(function) => function_reach(contract, &function.name),
        _ => None,
    }
}

/// The functions of a contract with their bounds, in the order of the text.
fn reaches(
    alloc: Global,
    contract: &ContractBounds,
    definitions: &[Definition],
) -> Result<Vec<(Name, Reach)>, NoMemory>
    ensures { IfOk result (λ reaches. (table : Table) (D : Defined) →
        ShowFunctions table D.context.functions contract.now.functions.entries →
        reaches.items ≡ filter_map (reach_line table D) (map form_defined definitions.now)) }
{
    let mut reaches = Vec::new(alloc);
    for definition in definitions {
        if let Some(line) = reach_line(contract, definition) {
            reaches.push(line)?;
        }
    }
    Ok(reaches)
}

/// A contract's bounds under a table: those of its functions by name, in the order of its text, and
/// as they are kept for those that call it.
#[derive(Drop)]
pub struct Repriced {
    pub reaches: Vec<(Name, Reach)>,
    pub contract: ContractBounds,
}

/// The bounds of a contract's functions under a table, where `known` are those of the contracts that
/// are deployed before it, under the same table. A bound that is above 2^128-1 in some dimension is
/// [`Reach::Over`] with the first such dimension. Each dimension is computed by itself, so that of a
/// caller may be another than that of what it calls.
pub fn rebound(
    alloc: Global,
    checked: &Checked,
    known: &KnownBounds,
    costs: &CostTable,
) -> Result<Repriced, NoMemory>
    ensures reaches { IfOk result (λ repriced. (contracts : List (APrincipal × Contract)) →
        AreBounds (function_of costs.now) contracts known.now →
        AreReachesOf (function_of costs.now) contracts checked.now repriced.reaches.items) }
    ensures kept { IfOk result (λ repriced. (contracts : List (APrincipal × Contract)) →
        AreBounds (function_of costs.now) contracts known.now →
        AreBoundsOf (function_of costs.now) contracts checked.now repriced.contract) }
{
    let own = checked.parts();
    let contract = contract_bounds(alloc, own, known, costs)?;
    let reaches = reaches(alloc, &contract, &own.definitions)?;
    Ok(Repriced { reaches, contract })
}
