//! The deployed contracts.
ghost use Rattle.std.specs.Prelude.{◌≡◌, ◌<◌, ◌++◌, ◌∷◌, [], None, IfSome, OnOk, option_map, option_copied};
ghost use Rattle.indexmap.specs.IndexMap.{spare};
ghost use Rattle.cl_meaning.specs.Deployed.{contract_at};
ghost use Rattle.cl_values.specs.Valid.{IsPrincipal};
ghost use Rattle.cl_contracts.specs.Contents.{with_constants};
ghost use Rattle.cl_contracts.specs.Standings.{FitsAfter, IsKnown};
ghost use Rattle.cl_contracts.specs.Seen.{AreConstants, AreIndexed, IsEntry, contract_seen, contract_under, deployed_seen};

use crate::checked::Checked;
use crate::contract::Contract;
use cl_c32::Principal;
use cl_keyed::HashKey;
use cl_types::{Name, NoMemory};
use cl_values::{Val, one_spelling};
use indexmap::IndexMap;
use std::alloc::Global;
use std::marker::Model;

/// The deployed contracts, in the order of their deployments. Each is under its own principal, and
/// fits those before it.
#[derive(Drop)]
pub struct Deployed {
    contracts: IndexMap<Principal, Contract, HashKey>,
}

impl Model for Deployed {
    ghost use Rattle.std.specs.Coded.{codes};
    ghost use Rattle.indexmap.specs.IndexMap.{spare};
    ghost use Rattle.cl_values.specs.TreeCode.{tree_code};
    ghost use Rattle.cl_contracts.specs.contracts.parts.Parts as plain;
    ghost use Rattle.cl_contracts.specs.Contents.{DeployedParts};
    ghost use Rattle.cl_contracts.specs.Seen.{AreIndexed};
    ghost use Rattle.cl_contracts.specs.Standings.{IsKnown};

    ghost Value = { DeployedParts };

    ghost coded = { Prim.hlevel (codes, plain.the_row.coded, tree_code) };

    ghost view = { λ d. record { contracts = d.contracts.entries; room = spare d.contracts } };

    ghost invariant = { λ d.
        let seen : DeployedParts =
        record { contracts = d.contracts.entries; room = spare d.contracts } in
        AreIndexed seen × IsKnown seen };
}

#[tactic(auto, using(crate::proofs::Principals::under_principal))]
fn under<'a>(
    contracts: &'a IndexMap<Principal, Contract, HashKey>,
    principal: &Principal,
) -> Option<&'a Contract>
    ensures { option_copied result ≡ contract_under principal.now contracts.now.entries }
{
    contracts.get(principal)
}

/// A law of each principal: it is valid.
fn is_valid(principal: &Principal)
    ensures { IsPrincipal principal.now }
{
    let _version = principal.address.version;
    if let Some(name) = &principal.contract {
        let _bytes = name.bytes();
    }
}

fn put(
    contracts: &mut IndexMap<Principal, Contract, HashKey>,
    principal: Principal,
    contract: Contract,
)
    requires room { 0 < spare contracts.old }
    requires new { contract_under principal contracts.old.entries ≡ None }
    ensures { contracts.new.entries ≡ contracts.old.entries ++ (principal, contract) ∷ [] }
{
    match contracts.insert(principal, contract) {
        Ok(_) => {}
        Err(_) => unreachable!(),
    }
}

fn entry_of(contract: &Contract) -> Principal
    ensures same { result ≡ contract.now.checked.principal }
    ensures entry { IsEntry (result, contract.now) }
{
    contract.is_typed();
    let principal = &contract.parts().principal;
    is_valid(principal);
    *principal
}

impl Deployed {
    /// No contracts. The tables of contracts and of their names hash by the key that everybody knows.
    pub fn new(alloc: Global) -> Deployed
        ensures { result.contracts ≡ [] }
    {
        Deployed::with_hash_key(alloc, HashKey::FIXED)
    }

    /// No contracts. The tables of contracts and of their names hash by this key.
    pub fn with_hash_key(alloc: Global, hash_key: HashKey) -> Deployed
        ensures { result.contracts ≡ [] }
    {
        Deployed {
            contracts: IndexMap::with_hasher(alloc, hash_key),
        }
    }

    /// The key by which the tables hash.
    pub fn hash_key(&self) -> HashKey {
        *self.contracts.hasher()
    }

    /// A law: each contract is under its own principal, and fits those before it.
    pub fn are_known(&self)
        ensures indexed { AreIndexed self.now }
        ensures known { IsKnown self.now }
    {
        let _contracts = &self.contracts;
    }

    /// The contracts by their principals, the oldest first.
    pub fn contracts(&self) -> &IndexMap<Principal, Contract, HashKey>
        ensures { result.now.entries ≡ self.now.contracts }
    {
        &self.contracts
    }

    /// The contract that is deployed under a principal.
    pub fn find(&self, principal: &Principal) -> Option<&Contract>
        ensures there { option_copied result ≡ contract_under principal.now self.now.contracts }
        ensures seen { option_map (λ c. contract_seen (principal.now, c.now)) result
            ≡ contract_at principal.now (deployed_seen self.now) }
        ensures entry { IfSome result (λ c. IsEntry (principal.now, c.now)) }
    {
        one_spelling();
        is_valid(principal);
        under(&self.contracts, principal)
    }

    /// Makes room for one more contract.
    pub fn reserve(&mut self) -> Result<(), NoMemory>
        ensures room { OnOk result (0 < self.new.room) }
        ensures same { self.new.contracts ≡ self.old.contracts }
    {
        self.contracts.reserve(1)?;
        Ok(())
    }

    fn push(&mut self, contract: Contract)
        requires room { 0 < self.old.room }
        requires new { contract_under contract.checked.principal self.old.contracts ≡ None }
        requires fits { FitsAfter self.old contract.checked }
        ensures { self.new.contracts
            ≡ self.old.contracts ++ (contract.checked.principal, contract) ∷ [] }
    {
        let principal = entry_of(&contract);
        put(&mut self.contracts, principal, contract);
    }

    /// Puts a contract that fits behind the others, under its own principal, with the values of its
    /// constants. This takes no memory.
    pub fn add(&mut self, checked: Checked, constants: IndexMap<Name, Val, HashKey>)
        requires room { 0 < self.old.room }
        requires new { contract_under checked.principal self.old.contracts ≡ None }
        requires fits { FitsAfter self.old checked }
        requires constants { AreConstants (with_constants checked constants.entries) }
        ensures { self.new.contracts ≡ self.old.contracts
            ++ (checked.principal, with_constants checked constants.entries) ∷ [] }
    {
        let contract = Contract::new(checked, constants);
        self.push(contract);
    }
}
