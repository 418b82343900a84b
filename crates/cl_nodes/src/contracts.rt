//! The deployed contracts, with the bounds of their functions.
ghost use Rattle.std.specs.Prelude.{◌≡◌, ◌++◌, ◌∷◌, [], None, IfOk, OnOk};
ghost use Rattle.cl_types.specs.Fault.{IfRefused};
ghost use Rattle.cl_contracts.specs.Contents.{with_constants};
ghost use Rattle.cl_contracts.specs.Seen.{AreConstants, contract_under};
ghost use Rattle.cl_contracts.specs.Standings.{FitsAfter};
ghost use Rattle.cl_bound.specs.Known.{AreBoundsOf};
ghost use Rattle.cl_nodes.specs.Bounded.{AreLinesAt, AreUnder, HasRoom, IsPriced, IsTooDear, IsWhole, costs_of, entries_of};

use cl_bound::{ContractBounds, KnownBounds, Priced, bound, rebounds};
use cl_contracts::{Checked, Deployed};
use cl_costs::{CostTable, Schedule};
use cl_keyed::HashKey;
use cl_sexpr::Refusal;
use cl_tx::Rebound;
use cl_types::{Fault, Name, NoMemory};
use cl_values::Val;
use indexmap::IndexMap;
use std::alloc::Global;

/// The deployed contracts, and the bounds of their functions under one table of costs.
pub struct Contracts {
    pub deployed: Deployed,
    pub bounds: KnownBounds,
    /// The costs under which the bounds are.
    pub table: CostTable,
}

/// Deployed contracts with the bounds of their functions, for a call.
#[derive(Clone, Copy)]
pub struct BoundedContracts<'a> {
    pub deployed: &'a Deployed,
    pub bounds: &'a KnownBounds,
}

impl Drop for Contracts {
    fn drop(self) {
        let Contracts {
            deployed,
            bounds,
            table: _,
        } = self;
        drop(deployed);
        drop(bounds);
    }
}

impl Contracts {
    /// No contracts. The tables hash by this key.
    pub fn new(alloc: Global, hash_key: HashKey) -> Contracts
        ensures none { entries_of result ≡ [] }
        ensures whole { IsWhole result }
    {
        Contracts {
            deployed: Deployed::with_hash_key(alloc, hash_key),
            bounds: KnownBounds::with_hash_key(alloc, hash_key),
            table: CostTable::builtin(),
        }
    }

    /// The contracts with their bounds, for a call.
    pub fn with_bounds(&self) -> BoundedContracts
        ensures deployed { result.deployed.now ≡ self.now.deployed }
        ensures bounds { result.bounds.now ≡ self.now.bounds }
    {
        BoundedContracts {
            deployed: &self.deployed,
            bounds: &self.bounds,
        }
    }

    /// The bounds of the functions under a table, where the kept ones are under another.
    pub fn bounds_under(
        &self,
        alloc: Global,
        costs: &CostTable,
    ) -> Result<Option<KnownBounds>, NoMemory>
        requires { IsWhole self.now }
        ensures { IfOk result (λ bounds. AreUnder self.now costs.now bounds) }
    {
        if self.table == *costs {
            return Ok(None);
        }
        Ok(Some(KnownBounds::under(alloc, &self.deployed, costs)?))
    }

    /// Makes the bounds those under a table. This takes time only where they are under another.
    pub fn reprice(&mut self, alloc: Global, costs: &CostTable) -> Result<(), NoMemory>
        requires { IsWhole self.old }
        ensures whole { IsWhole self.new }
        ensures table { OnOk result (self.new.table ≡ costs.now) }
        ensures same { self.new.deployed ≡ self.old.deployed }
    {
        if let Some(bounds) = self.bounds_under(alloc, costs)? {
            self.bounds = bounds;
            self.table = *costs;
        }
        Ok(())
    }

    /// What a block has that begins at the height `to` after one of the height `from`: where the
    /// number of the epoch changes, each function with its bound under the costs of its height, in
    /// the order of the deployments and then of the text.
    pub fn rebounds_at(
        &mut self,
        alloc: Global,
        costs: &Schedule,
        from: u64,
        to: u64,
    ) -> Result<Vec<Rebound>, NoMemory>
        requires { IsWhole self.old }
        ensures whole { IsWhole self.new }
        ensures same { self.new.deployed ≡ self.old.deployed }
        ensures lines { IfOk result
            (λ lines. AreLinesAt self.old costs.now from to lines.items) }
    {
        if costs.epoch(from) == costs.epoch(to) {
            return Ok(Vec::new(alloc));
        }
        self.reprice(alloc, costs.at(to))?;
        rebounds(alloc, &self.deployed, &self.bounds)
    }

    /// The bounds of a contract that comes after these, or the first that is above the limit.
    pub fn price(&self, alloc: Global, checked: &Checked) -> Result<Priced, Fault<Refusal>>
        requires { IsWhole self.now }
        ensures priced { IfOk result (λ priced. IsPriced self.now checked.now priced) }
        ensures broken { IfRefused result (λ refusal. IsTooDear self.now checked.now refusal) }
    {
        bound(alloc, checked, &self.bounds, &self.table)
    }

    /// Makes room for one more contract.
    pub fn reserve(&mut self) -> Result<(), NoMemory>
        requires { IsWhole self.old }
        ensures whole { IsWhole self.new }
        ensures room { OnOk result (HasRoom self.new) }
        ensures table { self.new.table ≡ self.old.table }
        ensures same { entries_of self.new ≡ entries_of self.old }
    {
        self.deployed.reserve()?;
        self.bounds.reserve()?;
        Ok(())
    }

    /// Puts a contract behind the others, with its bounds and the values of its constants. This takes
    /// no memory.
    pub fn add(
        &mut self,
        checked: Checked,
        constants: IndexMap<Name, Val, HashKey>,
        bounds: ContractBounds,
    )
        requires whole { IsWhole self.old }
        requires room { HasRoom self.old }
        requires new { contract_under checked.principal (entries_of self.old) ≡ None }
        requires fits { FitsAfter self.old.deployed checked }
        requires constants { AreConstants (with_constants checked constants.entries) }
        requires bounds { AreBoundsOf (costs_of self.old) (entries_of self.old) checked bounds }
        ensures whole { IsWhole self.new }
        ensures added { entries_of self.new ≡ entries_of self.old
            ++ (checked.principal, with_constants checked constants.entries) ∷ [] }
    {
        self.deployed.add(checked, constants);
        self.bounds.add(bounds);
    }
}
