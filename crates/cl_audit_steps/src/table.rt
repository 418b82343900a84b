//! The deployed contracts.
ghost use Rattle.std.specs.Prelude.{◌≡◌, ◌<◌, ◌++◌, ◌∷◌, [], None, OnOk};
ghost use Rattle.cl_meaning.specs.Deployed.{contract_at};
ghost use Rattle.cl_audit_steps.specs.Seen.{contracts_seen, some_contract};

use crate::scope::Contract;
use cl_c32::Principal;
use cl_keyed::HashKey;
use cl_operands::is_valid;
use cl_types::NoMemory;
use cl_values::one_spelling;
use indexmap::IndexMap;
use std::alloc::Global;
use std::marker::Model;

/// The deployed contracts by their principals, the oldest first.
#[derive(Drop)]
pub struct ContractTable {
    contracts: IndexMap<Principal, Contract, HashKey>,
}

impl Model for ContractTable {
    ghost use Rattle.std.specs.Prelude.{map};
    ghost use Rattle.std.specs.Coded.{codes};
    ghost use Rattle.indexmap.specs.IndexMap.{spare};
    ghost use Rattle.cl_audit_steps.specs.contracts.scope.Contract as plain;
    ghost use Rattle.cl_audit_steps.specs.Tables.{AreOwn, TableParts};

    ghost Value = { TableParts };

    ghost coded = { Prim.hlevel (codes, plain.the_row.coded) };

    ghost view = { λ t.
        record { contracts = map (λ e. e.1) t.contracts.entries; room = spare t.contracts } };

    ghost invariant = { λ t. AreOwn t.contracts.entries };
}

impl ContractTable {
    /// No contracts. The table of principals hashes by this key.
    pub fn new(alloc: Global, hash_key: HashKey) -> ContractTable
        ensures { result.contracts ≡ [] }
    {
        ContractTable {
            contracts: IndexMap::with_hasher(alloc, hash_key),
        }
    }

    /// The key by which the tables hash.
    pub fn hash_key(&self) -> HashKey {
        *self.contracts.hasher()
    }

    /// The contract of a principal.
    pub fn find(&self, principal: &Principal) -> Option<&Contract>
        ensures { some_contract result
            ≡ contract_at principal.now (contracts_seen self.now.contracts) }
    {
        one_spelling();
        is_valid(principal);
        self.contracts.get(principal)
    }

    /// Makes room for one more contract.
    pub fn reserve(&mut self) -> Result<(), NoMemory>
        ensures room { OnOk result (0 < self.new.room) }
        ensures same { self.new.contracts ≡ self.old.contracts }
    {
        self.contracts.reserve(1)?;
        Ok(())
    }

    /// Puts a contract behind the others, none of which has its principal. This takes no memory.
    pub fn push(&mut self, contract: Contract)
        requires room { 0 < self.old.room }
        requires new { contract_at contract.principal (contracts_seen self.old.contracts) ≡ None }
        ensures { self.new.contracts ≡ self.old.contracts ++ contract ∷ [] }
    {
        one_spelling();
        let principal = contract.principal;
        is_valid(&principal);
        match self.contracts.insert(principal, contract) {
            Ok(_) => {}
            Err(_) => unreachable!(),
        }
    }
}
