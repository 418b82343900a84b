//! The bounds of the functions of all deployed contracts, as a block gives them.
ghost use Rattle.std.specs.Prelude.{◌≡◌, ◌++◌, List, [], OnOk, IfOk, map, option_map};
ghost use Rattle.std.specs.List.{filter_map, flat_map};
ghost use Rattle.cl_code.specs.Definitions.{form_defined};
ghost use Rattle.cl_code.specs.declared.definition.Definition.TheVariants.{Function as AFunction};
ghost use Rattle.cl_rules.specs.Context.{CostTable as Table, Known, Signature, signature_in};
ghost use Rattle.cl_contracts.specs.Seen.{AreEntries, contract_seen, deployed_seen, forms_of};
ghost use Rattle.cl_contracts.specs.Standings.{AreStanding, Knows};
ghost use Rattle.cl_tx.specs.Rebounds.{functions_at, line_of, rebound_line, rebounds_of};
ghost use Rattle.cl_bound.specs.Known.{AreBounds};
ghost use Rattle.cl_bound.specs.Seen.{ShowFunctions, ShowDeployed};
ghost use Rattle.cl_bound.specs.Reaches.{AllReturnAs, ReturnsAs};

use crate::known::{ContractBounds, KnownBounds};
use crate::repricing::reach_at;
use cl_c32::Principal;
use cl_code::{Definition, Function};
use cl_contracts::{Contract, Deployed, Parts, what_callers_know};
use cl_keyed::HashKey;
use cl_tx::Rebound;
use cl_types::NoMemory;
use indexmap::IndexMap;
use std::alloc::Global;

/// The line of a function of a contract.
fn line(
    alloc: Global,
    contract: &Principal,
    bounds: &ContractBounds,
    function: &Function,
) -> Result<Option<Rebound>, NoMemory>
    ensures { IfOk result (λ line. (table : Table) (fs : List Signature) →
        let f = function.now in
        ShowFunctions table fs bounds.now.functions.entries → ReturnsAs fs (AFunction f) →
        line ≡ option_map (line_of table contract.now f.name) (signature_in f.name fs)) }
{
    match reach_at(&bounds.functions, &function.name) {
        Some(reach) => Ok(Some(Rebound {
            contract: *contract,
            name: function.name,
            reach,
            returns: function.returns.copy(alloc)?,
        })),
        None => Ok(None),
    }
}

/// The same of a definition that is a function.
fn definition_line(
    alloc: Global,
    contract: &Principal,
    bounds: &ContractBounds,
    definition: &Definition,
) -> Result<Option<Rebound>, NoMemory>
    ensures { IfOk result (λ line. (table : Table) (fs : List Signature) →
        ShowFunctions table fs bounds.now.functions.entries → ReturnsAs fs definition.now →
        line ≡ rebound_line table contract.now fs (form_defined definition.now)) }
{
    match definition {
        Definition::Function(function) => line(alloc, contract, bounds, function),
        _ => Ok(None),
    }
}

/// Puts the lines of a contract's functions behind others, in the order of its text.
fn push_lines(
    alloc: Global,
    lines: &mut Vec<Rebound>,
    bounds: &ContractBounds,
    parts: &Parts,
) -> Result<(), NoMemory>
    ensures { OnOk result ((table : Table) (fs : List Signature) →
        let c = parts.now in
        ShowFunctions table fs bounds.now.functions.entries →
        AllReturnAs fs c.definitions.items →
        let more = filter_map (rebound_line table c.principal fs) (forms_of c) in
        lines.new.items ≡ lines.old.items ++ more) }
{
    for definition in &parts.definitions {
        if let Some(line) = definition_line(alloc, &parts.principal, bounds, definition)? {
            lines.push(line)?;
        }
    }
    Ok(())
}

/// The same of a deployed contract, whose bounds are known.
fn push_contract(
    alloc: Global,
    lines: &mut Vec<Rebound>,
    known: &KnownBounds,
    contract: &Contract,
) -> Result<(), NoMemory>
    ensures { OnOk result ((table : Table) (callers : List Known) →
        let c = contract.now.checked in
        ShowDeployed table callers known.now.contracts.entries →
        AllReturnAs (functions_at c.principal callers) c.definitions.items →
        let more = rebounds_of table callers (contract_seen (c.principal, contract.now)) in
        lines.new.items ≡ lines.old.items ++ more) }
{
    let own = contract.parts();
    match known.contracts.get(&own.principal) {
        Some(bounds) => push_lines(alloc, lines, bounds, own),
        None => Ok(()),
    }
}

/// The same of contracts by their principals, the oldest first, whose bounds are known.
fn lines_of(
    alloc: Global,
    contracts: &IndexMap<Principal, Contract, HashKey>,
    known: &KnownBounds,
) -> Result<Vec<Rebound>, NoMemory>
    requires { AreEntries contracts.now.entries }
    ensures { IfOk result (λ lines. (table : Table) (callers : List Known) →
        let es = contracts.now.entries in
        AreStanding [] es callers → AreBounds table es known.now →
        lines.items ≡ flat_map (rebounds_of table callers) (map contract_seen es)) }
{
    what_callers_know();
    let mut lines = Vec::new(alloc);
    for place in 0..contracts.len() {
        if let Some((_principal, contract)) = contracts.get_index(place) {
            push_contract(alloc, &mut lines, known, contract)?;
        }
    }
    Ok(lines)
}

/// Each function of each deployed contract with its bound, in the order of the deployments and then
/// of the text, where `known` are the bounds of these contracts.
pub fn rebounds(
    alloc: Global,
    deployed: &Deployed,
    known: &KnownBounds,
) -> Result<Vec<Rebound>, NoMemory>
    ensures { IfOk result (λ lines. (table : Table) (callers : List Known) →
        Knows deployed.now callers → AreBounds table deployed.now.contracts known.now →
        lines.items ≡ flat_map (rebounds_of table callers) (deployed_seen deployed.now)) }
{
    deployed.are_known();
    lines_of(alloc, deployed.contracts(), known)
}
