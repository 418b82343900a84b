//! What bounds rest on.
ghost use Rattle.std.specs.Prelude.{◌≡◌, ℕ, ◌<◌, ◌^◌, List};
ghost use Rattle.cl_costs.specs.Tables.{function_of};
ghost use Rattle.cl_code.specs.Expression.{target_leaf};
ghost use Rattle.cl_forms.specs.declared.version.Version.{Version};
ghost use Rattle.cl_rules.specs.Bills.{Charge, cost_under};
ghost use Rattle.cl_rules.specs.Context.{Context, Known, Signature, CostTable as Table, signature_in, if_callable, target_at};
ghost use Rattle.cl_rules.specs.FormRules.{nothing_defined};
ghost use Rattle.cl_rules.specs.CallShapes.{target_or_not, contract_literal};
ghost use Rattle.cl_rules.specs.Shapes.{there_or_not};
ghost use Rattle.cl_sums.specs.Sums.{told, Increases};
ghost use Rattle.cl_bound.specs.Seen.{ShowsPrices, ShowDeployed, ShowFunctions};
ghost use Rattle.cl_bound.specs.Own.{applied, called_at};

use crate::known::KnownBounds;
use cl_c32::Principal;
use cl_code::Target;
use cl_contracts::contract_of_literal;
use cl_costs::CostTable;
use cl_keyed::HashKey;
use cl_shapes::CostName;
use cl_sums::Sum;
use cl_types::{Access, Name};
use indexmap::IndexMap;
use std::alloc::Global;

/// One application of a function: who may call it, and the bound.
#[derive(Clone, Copy)]
pub(crate) struct Application {
    pub(crate) access: Access,
    pub(crate) bound: Sum,
}

/// What bounds rest on: the cost table, the deployed contracts, the contract that they are of, and its functions so far.
#[derive(Drop)]
pub(crate) struct Prices<'a> {
    pub(crate) costs: CostTable,
    pub(crate) deployed: &'a KnownBounds,
    pub(crate) principal: Principal,
    pub(crate) functions: IndexMap<Name, Application, HashKey>,
}

/// One application of a function that other contracts may call.
fn callable(functions: &IndexMap<Name, Application, HashKey>, name: &Name) -> Sum
    ensures { (table : Table) (fs : List Signature) → ShowFunctions table fs functions.now.entries → result ≡ told (cost_under table (applied (if_callable (signature_in name.now fs)))) }
{
    match functions.get(name) {
        Some(application) => match application.access {
            Access::Private => Sum::ZERO,
            _ => application.bound,
        },
        None => Sum::ZERO,
    }
}

impl<'a> Prices<'a> {
    /// What the bounds of a contract rest on before its first definition.
    pub(crate) fn new(
        alloc: Global,
        costs: &CostTable,
        deployed: &'a KnownBounds,
        principal: &Principal,
    ) -> Prices<'a>
        ensures costs { result.costs ≡ costs.now }
        ensures shown { (known : List Known) (version : Version) (size : ℕ) →
            ShowDeployed (function_of costs.now) known deployed.now.contracts.entries →
            ShowsPrices result (nothing_defined known principal.now version size).context }
    {
        Prices {
            costs: *costs,
            deployed,
            principal: *principal,
            functions: IndexMap::with_hasher(alloc, deployed.hash_key()),
        }
    }

    /// One charge.
    pub(crate) fn charge(&self, name: CostName, n: u64) -> Sum
        requires { n < 2 ^ 40 }
        ensures { result ≡ told (cost_under (function_of self.now.costs) (Charge name n)) }
    {
        Sum::of(self.costs.of(name).at(n))
    }

    /// Adds one charge to a sum.
    pub(crate) fn add_charge(&self, name: CostName, n: u64, sum: &mut Sum)
        requires { n < 2 ^ 40 }
        ensures { Increases sum.old sum.new (cost_under (function_of self.now.costs) (Charge name n)) }
    {
        sum.charge(&self.costs.of(name).at(n));
    }

    /// One charge with the length of a text, in bytes.
    pub(crate) fn charge_length(&self, name: CostName, length: u32) -> Sum
        ensures { result ≡ told (cost_under (function_of self.now.costs) (Charge name length)) }
    {
        self.charge(name, u64::from(length))
    }

    /// One charge with a number of things, however many.
    pub(crate) fn charge_count(&self, name: CostName, count: usize) -> Sum
        ensures { result ≡ told (cost_under (function_of self.now.costs) (Charge name count)) }
    {
        Sum::of(self.costs.of(name).at_any(count as u64))
    }

    /// The bound of one application of a function of the contract.
    #[tactic(auto, using(crate::proofs::Lookups::applied_is, crate::proofs::Lookups::applied_none))]
    pub(crate) fn function(&self, name: &Name) -> Sum
        ensures { (G : Context) → ShowsPrices self.now G → result ≡ told (cost_under (function_of self.now.costs) (applied (signature_in name.now G.functions))) }
    {
        match self.functions.get(name) {
            Some(application) => application.bound,
            None => Sum::ZERO,
        }
    }

    /// A call of a function of another contract, if there is such a one.
    fn call_at(&self, principal: &Principal, name: &Name) -> Sum
        ensures { (G : Context) → ShowsPrices self.now G → result ≡ told (cost_under (function_of self.now.costs) (called_at (there_or_not (target_at G principal.now)) name.now)) }
    {
        if *principal == self.principal {
            return Sum::ZERO;
        }
        match self.deployed.contracts.get(principal) {
            Some(contract) => {
                let call = self.charge_length(CostName::ContractCall, contract.length);
                call.add(&callable(&contract.functions, name))
            }
            None => Sum::ZERO,
        }
    }

    /// A call of a function of the contract that a literal stands for.
    pub(crate) fn abroad(&self, target: &Target, name: &Name) -> Sum
        ensures { (G : Context) → ShowsPrices self.now G → result ≡ told (cost_under (function_of self.now.costs) (called_at (target_or_not G (contract_literal G.principal (target_leaf target.now))) name.now)) }
    {
        match contract_of_literal(&self.principal, target) {
            Some(principal) => self.call_at(&principal, name),
            None => Sum::ZERO,
        }
    }
}
