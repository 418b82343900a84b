//! The bounds of deployed contracts under a cost table, kept for those that call them.
ghost use Rattle.std.specs.Prelude.{◌≡◌, ◌<◌, ◌++◌, ◌∷◌, List, [], None, Some, OnOk, if◌then◌else◌};
ghost use Rattle.std.specs.Option.{option_or};
ghost use Rattle.indexmap.specs.IndexMap.{spare};
ghost use Rattle.cl_c32.specs.declared.principal.Principal.{Principal as APrincipal};
ghost use Rattle.cl_rules.specs.Context.{CostTable, same_principal};
ghost use Rattle.cl_contracts.specs.declared.contract.Contract.{Contract};
ghost use Rattle.cl_bound.specs.Seen.{known_under};
ghost use Rattle.cl_bound.specs.Known.{AreBounds, AreBoundsOf, HasRoom};

use crate::prices::Application;
use cl_c32::Principal;
use cl_keyed::HashKey;
use cl_types::{Name, NoMemory};
use indexmap::IndexMap;
use std::alloc::Global;

/// The bounds of a contract, for those that call it: its principal, the length of its text, in bytes, and its functions.
#[derive(Drop)]
pub struct ContractBounds {
    pub(crate) principal: Principal,
    pub(crate) length: u32,
    pub(crate) functions: IndexMap<Name, Application, HashKey>,
}

/// The bounds of the deployed contracts, under one cost table.
#[derive(Drop)]
pub struct KnownBounds {
    pub(crate) contracts: IndexMap<Principal, ContractBounds, HashKey>,
}

/// Keeps a contract under a principal, unless one stands there.
fn put(
    contracts: &mut IndexMap<Principal, ContractBounds, HashKey>,
    principal: Principal,
    contract: ContractBounds,
)
    requires room { 0 < spare contracts.old }
    ensures { (p : APrincipal) → known_under p contracts.new.entries ≡ option_or (known_under p contracts.old.entries) (if same_principal principal p then Some contract else None) }
{
    if !contracts.contains_key(&principal) {
        match contracts.insert(principal, contract) {
            Ok(_) => {}
            Err(_) => unreachable!(),
        }
    }
}

impl KnownBounds {
    /// No contracts. The tables hash by the key that everybody knows.
    pub fn new(alloc: Global) -> KnownBounds
        ensures { (table : CostTable) → AreBounds table [] result }
    {
        KnownBounds::with_hash_key(alloc, HashKey::FIXED)
    }

    /// No contracts. The tables hash by this key.
    pub fn with_hash_key(alloc: Global, hash_key: HashKey) -> KnownBounds
        ensures { (table : CostTable) → AreBounds table [] result }
    {
        KnownBounds {
            contracts: IndexMap::with_hasher(alloc, hash_key),
        }
    }

    /// The key by which the tables hash.
    pub(crate) fn hash_key(&self) -> HashKey {
        *self.contracts.hasher()
    }

    /// Makes room for one more contract.
    pub fn reserve(&mut self) -> Result<(), NoMemory>
        ensures room { OnOk result (HasRoom self.new) }
        ensures same { (table : CostTable) (contracts : List (APrincipal × Contract)) → AreBounds table contracts self.old → AreBounds table contracts self.new }
    {
        self.contracts.reserve(1)?;
        Ok(())
    }

    /// Keeps the bounds of a contract that is deployed behind the others. This takes no memory.
    pub fn add(&mut self, contract: ContractBounds)
        requires room { HasRoom self.old }
        ensures { (table : CostTable) (contracts : List (APrincipal × Contract)) (c : Contract) → AreBounds table contracts self.old → AreBoundsOf table contracts c.checked contract → AreBounds table (contracts ++ (c.checked.principal, c) ∷ []) self.new }
    {
        put(&mut self.contracts, contract.principal, contract);
    }
}
