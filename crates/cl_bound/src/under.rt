//! The bounds of all deployed contracts under a table, and whether one is above the limit.
ghost use Rattle.std.specs.Prelude.{◌≡◌, ◌++◌, ◌∷◌, List, [], IfOk, OnOk};
ghost use Rattle.cl_c32.specs.declared.principal.Principal.{Principal as APrincipal};
ghost use Rattle.cl_costs.specs.Tables.{function_of};
ghost use Rattle.cl_rules.specs.Context.{CostTable as Table, Known};
ghost use Rattle.cl_contracts.specs.declared.contract.Contract.{Contract as AContract};
ghost use Rattle.cl_contracts.specs.Seen.{AreEntries};
ghost use Rattle.cl_contracts.specs.Standings.{AreStanding};
ghost use Rattle.cl_tx.specs.Rebounds.{first_over};
ghost use Rattle.cl_bound.specs.Known.{AreBounds};
ghost use Rattle.cl_bound.specs.Reaches.{over_of};

use crate::bounds::contract_bounds;
use crate::known::KnownBounds;
use crate::repricing::reach_at;
use cl_c32::Principal;
use cl_contracts::{Contract, Deployed};
use cl_costs::CostTable;
use cl_keyed::HashKey;
use cl_shapes::Dimension;
use cl_tx::Reach;
use cl_types::{Name, NoMemory};
use indexmap::IndexMap;
use std::alloc::Global;

/// Keeps the bounds of a contract behind those of the contracts before it.
fn take_in(
    alloc: Global,
    known: &mut KnownBounds,
    contract: &Contract,
    costs: &CostTable,
) -> Result<(), NoMemory>
    ensures { OnOk result ((contracts : List (APrincipal × AContract)) →
        let c = contract.now in
        AreBounds (function_of costs.now) contracts known.old →
        AreBounds (function_of costs.now) (contracts ++ (c.checked.principal, c) ∷ []) known.new) }
{
    let bounds = contract_bounds(alloc, contract.parts(), known, costs)?;
    known.reserve()?;
    known.add(bounds);
    Ok(())
}

/// The bounds of contracts by their principals, the oldest first.
fn bounds_of(
    alloc: Global,
    contracts: &IndexMap<Principal, Contract, HashKey>,
    costs: &CostTable,
) -> Result<KnownBounds, NoMemory>
    requires { AreEntries contracts.now.entries }
    ensures { IfOk result
        (λ known. AreBounds (function_of costs.now) contracts.now.entries known) }
{
    let mut known = KnownBounds::with_hash_key(alloc, *contracts.hasher());
    for place in 0..contracts.len() {
        if let Some((_principal, contract)) = contracts.get_index(place) {
            take_in(alloc, &mut known, contract, costs)?;
        }
    }
    Ok(known)
}

/// The first dimension in which a bound is above the limit.
fn over_of(reach: Option<Reach>) -> Option<Dimension>
    ensures { result ≡ over_of reach }
{
    match reach {
        Some(Reach::Over(dimension)) => Some(dimension),
        Some(Reach::Bound(_)) => None,
        None => None,
    }
}

impl KnownBounds {
    /// The bounds of all deployed contracts under a table, in time that is linear in their
    /// functions.
    pub fn under(
        alloc: Global,
        deployed: &Deployed,
        costs: &CostTable,
    ) -> Result<KnownBounds, NoMemory>
        ensures { IfOk result
            (λ known. AreBounds (function_of costs.now) deployed.now.contracts known) }
    {
        deployed.are_known();
        bounds_of(alloc, deployed.contracts(), costs)
    }

    /// The first dimension in which the bound of a function of a deployed contract is above 2^128-1;
    /// none where it is in no dimension, and where there is no such function.
    pub fn over(&self, contract: &Principal, function: &Name) -> Option<Dimension>
        ensures { (table : Table) (contracts : List (APrincipal × AContract)) (known : List Known) →
            AreBounds table contracts self.now → AreStanding [] contracts known →
            result ≡ first_over table known contract.now function.now }
    {
        match self.contracts.get(contract) {
            Some(bounds) => over_of(reach_at(&bounds.functions, function)),
            None => None,
        }
    }
}
