//! The bounds of a contract.
ghost use Rattle.std.specs.Prelude.{◌≡◌, List, [], Some, None, IfOk, option_map};
ghost use Rattle.std.specs.List.{filter_map};
ghost use Rattle.cl_types.specs.Fault.{IfRefused};
ghost use Rattle.cl_shapes.specs.declared.cost.Dimension.{Dimension as ADimension};
ghost use Rattle.cl_sexpr.specs.declared.rule.Rule.TheVariants.{BoundTooLarge};
ghost use Rattle.cl_costs.specs.Tables.{function_of};
ghost use Rattle.cl_rules.specs.Acceptance.{Bounded, bound_at, most_cost};
ghost use Rattle.cl_shapes.specs.Costs.{first_above};
ghost use Rattle.cl_rules.specs.Bills.{Bill, cost_under};
ghost use Rattle.cl_rules.specs.Context.{Known, signature_in};
ghost use Rattle.cl_rules.specs.FormRules.{Defined};
ghost use Rattle.cl_rules.specs.Laws.{IsFirstAboveLimit};
ghost use Rattle.cl_contracts.specs.Seen.{forms_of};
ghost use Rattle.cl_c32.specs.declared.principal.Principal.{Principal as APrincipal};
ghost use Rattle.cl_contracts.specs.declared.contract.Contract.{Contract};
ghost use Rattle.cl_contracts.specs.declared.deployed.Deployed.{Deployed};
ghost use Rattle.cl_contracts.specs.Standings.{Knows, StandsAfter};
ghost use Rattle.cl_code.specs.Definitions.{form_defined};
ghost use Rattle.cl_tx.specs.Step.{bound_line, told_of};
ghost use Rattle.cl_bound.specs.Seen.{ShowsPrices, IsWithin};
ghost use Rattle.cl_bound.specs.Known.{AreBounds, AreBoundsOf};

use crate::contract::deployment;
use crate::known::{ContractBounds, KnownBounds};
use crate::prices::{Application, Prices};
use crate::stop::first_stop;
use cl_code::Definition;
use cl_contracts::{Checked, Parts, what_callers_know};
use cl_costs::CostTable;
use cl_keyed::HashKey;
use cl_rules::the_first_bound_is_found;
use cl_sexpr::{Break, Refusal, Rule};
use cl_shapes::Cost5;
use cl_tx::{Bounds, Row};
use cl_types::{Fault, Name, NoMemory};
use indexmap::IndexMap;
use std::alloc::Global;

/// A name with the bound of its function, where that isn't above the limit.
fn function_line(prices: &Prices, name: &Name) -> Option<(Name, Cost5)>
    ensures { (D : Defined) → ShowsPrices prices.now D.context → ((b : Bill) → bound_at (signature_in name.now D.context.functions) ≡ Some b → first_above most_cost (cost_under (function_of prices.now.costs) b) ≡ None) →
        result ≡ option_map (λ (b : Bill). (name.now, cost_under (function_of prices.now.costs) b)) (bound_at (signature_in name.now D.context.functions)) }
{
    match prices.functions.get(name) {
        Some(application) => Some((*name, application.bound.saturated())),
        None => None,
    }
}

/// The same of a definition that is a function.
fn line(prices: &Prices, definition: &Definition) -> Option<(Name, Cost5)>
    ensures { (D : Defined) → ShowsPrices prices.now D.context → IsWithin D (form_defined definition.now) (function_of prices.now.costs) → result ≡ bound_line (function_of prices.now.costs) D (form_defined definition.now) }
{
    match definition {
        Definition::Function(function) => function_line(prices, &function.name),
        _ => None,
    }
}

/// Each function's name with its bound, in the order of the text, where no bound is above the
/// limit.
fn lines(alloc: Global, prices: &Prices, parts: &Parts) -> Result<Vec<(Name, Cost5)>, NoMemory>
    ensures { IfOk result (λ lines. (D : Defined) → ShowsPrices prices.now D.context →
        Bounded D (forms_of parts.now) (function_of prices.now.costs) →
        lines.items
        ≡ filter_map (bound_line (function_of prices.now.costs) D) (forms_of parts.now)) }
{
    let mut lines = Vec::new(alloc);
    for definition in &parts.definitions {
        if let Some(line) = line(prices, definition) {
            lines.push(line)?;
        }
    }
    Ok(lines)
}

/// The bounds of a contract's functions as they are kept for those that call it.
fn kept(parts: &Parts, functions: IndexMap<Name, Application, HashKey>) -> ContractBounds
    ensures principal { result.principal ≡ parts.now.principal }
    ensures length { result.length ≡ parts.now.source_length }
    ensures functions { result.functions ≡ functions }
{
    ContractBounds {
        principal: parts.principal,
        length: parts.source_length,
        functions,
    }
}

/// The same under a table, where `known` are the bounds of the contracts before it, under the same
/// table.
pub(crate) fn contract_bounds(
    alloc: Global,
    parts: &Parts,
    known: &KnownBounds,
    costs: &CostTable,
) -> Result<ContractBounds, NoMemory>
    ensures { IfOk result (λ bounds. (contracts : List (APrincipal × Contract)) →
        AreBounds (function_of costs.now) contracts known.now →
        AreBoundsOf (function_of costs.now) contracts parts.now bounds) }
{
    let mut prices = Prices::new(alloc, costs, known, &parts.principal);
    deployment(&mut prices, parts)?;
    Ok(kept(parts, prices.functions))
}

/// The bounds of a contract: as they are told, and as they are kept for those that call it.
#[derive(Drop)]
pub struct Priced {
    pub bounds: Bounds,
    pub contract: ContractBounds,
}

/// The bounds of a deployment and of each function of a contract, the functions in the order of its
/// text; or the first bound that is above 2^128-1 (`B1`): with the span of the function that it is
/// of, by the order of evaluation, and in the first such dimension, or at no place if it is the
/// deployment's. Each bound is computed once: those of deployed contracts are known, under the same
/// table. What each function returns is `Function::returns`.
pub fn bound(
    alloc: Global,
    checked: &Checked,
    known: &KnownBounds,
    costs: &CostTable,
) -> Result<Priced, Fault<Refusal>>
    ensures bounded { IfOk result
        (λ priced. (deployed : Deployed) (callers : List Known) (D : Defined) →
        AreBounds (function_of costs.now) deployed.contracts known.now → Knows deployed callers →
        StandsAfter callers checked.now D →
        Bounded D (forms_of checked.now) (function_of costs.now)) }
    ensures told { IfOk result
        (λ priced. (deployed : Deployed) (callers : List Known) (D : Defined) →
        AreBounds (function_of costs.now) deployed.contracts known.now → Knows deployed callers →
        StandsAfter callers checked.now D →
        (told_of (function_of costs.now) D (forms_of checked.now)).bounds ≡ Some priced.bounds) }
    ensures kept { IfOk result (λ priced. (deployed : Deployed) →
        AreBounds (function_of costs.now) deployed.contracts known.now →
        AreBoundsOf (function_of costs.now) deployed.contracts checked.now priced.contract) }
    ensures broken { IfRefused result (λ refusal. (dimension : ADimension)
        × (refusal.rule ≡ BoundTooLarge dimension)
        × ((deployed : Deployed) (callers : List Known) (D : Defined) →
        AreBounds (function_of costs.now) deployed.contracts known.now → Knows deployed callers →
        StandsAfter callers checked.now D →
        IsFirstAboveLimit D (forms_of checked.now) checked.now.order.items (function_of costs.now)
        dimension refusal.span)) }
    ensures names { IfRefused result (λ refusal. refusal.names.items ≡ []) }
{
    what_callers_know();
    the_first_bound_is_found();
    let own = checked.parts();
    let mut prices = Prices::new(alloc, costs, known, &own.principal);
    let deployment = deployment(&mut prices, own)?;
    match first_stop(&prices, own, &deployment) {
        Some((dimension, span)) => Err(Fault::Refused(Refusal::of(
            alloc,
            Break {
                rule: Rule::BoundTooLarge(dimension),
                span,
            },
        ))),
        None => {
            let functions = lines(alloc, &prices, own)?;
            Ok(Priced {
                bounds: Bounds {
                    deploy: deployment.saturated(),
                    functions: Row::new(functions),
                },
                contract: kept(own, prices.functions),
            })
        }
    }
}
