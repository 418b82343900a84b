ghost use Rattle.std.specs.Prelude.{◌≡◌, map};
ghost use Rattle.std.specs.Bool.{Decides};
ghost use Rattle.cl_costs.specs.Tables.{place_of};
ghost use Rattle.cl_costs.specs.Numbers.{is_same};

use crate::numbers::{COUNT, all_are_same, all_numbers};
use cl_shapes::{CostFn, CostName};
use std::marker::Model;

/// A cost function for each name, seen as the list of the functions in the order of the names.
/// Tables are compared by `==`, which takes some hundred instructions.
#[derive(Clone, Copy)]
pub struct CostTable {
    functions: [CostFn; 24],
    /// The numbers of the functions, by which tables are compared.
    numbers: [[u32; COUNT]; 24],
}

impl Model for CostTable {
    ghost use Rattle.std.specs.Prelude.{◌≡◌, List, map};
    ghost use Rattle.std.proofs.Common.{sym};
    ghost use Rattle.cl_shapes.specs.declared.function.CostFn.{CostFn};
    ghost use Rattle.cl_costs.specs.Numbers.{numbers_of};

    ghost Value = { List CostFn };

    ghost view = { λ t. t.functions };

    ghost invariant = { λ t. t.numbers ≡ map numbers_of t.functions };

    ghost inverse = { λ fs. record { functions = fs; numbers = map numbers_of fs } };

    ghost inverse_ok = { λ t is. λ i. record { functions = t.functions; numbers = sym is i } };
}

impl PartialEq for CostTable {
    ghost use Rattle.std.specs.Prelude.{map, nat_eq};
    ghost use Rattle.std.specs.Cmp.Lexicographic.{pointwise};
    ghost use Rattle.std.specs.Ordering.{on};
    ghost use Rattle.std.specs.Cmp.Rules.{comparing};
    ghost use Rattle.std.proofs.Common.{rules};
    ghost use Rattle.cl_costs.specs.Numbers.{numbers_of};

    ghost eq = { on (map numbers_of) (pointwise (pointwise nat_eq)) };

    ghost laws = { Prim.search (comparing, rules) };

    fn eq(&self, other: &CostTable) -> bool
        ensures numbers { result ≡ is_same self.now other.now }
        ensures decides { Decides result (self.now ≡ other.now) }
    {
        all_are_same(&self.numbers, &other.numbers)
    }
}

impl CostTable {
    ghost use Rattle.cl_shapes.specs.Names.{cost_names};
    ghost use Rattle.cl_costs.specs.Tables.{function_of, unit_table};

    /// The table in which each name has its unit.
    pub fn builtin() -> CostTable
        ensures { result ≡ unit_table }
    {
        CostTable::new(CostName::ALL.map(CostName::unit))
    }

    /// The table of these functions, which stand in the order of the names.
    pub(crate) fn new(functions: [CostFn; 24]) -> CostTable
        ensures { result ≡ functions }
    {
        CostTable {
            functions,
            numbers: all_numbers(&functions),
        }
    }

    /// The function of a name.
    #[tactic(auto, unfolding(crate::specs::Tables::function_of))]
    pub fn of(&self, name: CostName) -> CostFn
        ensures { result ≡ function_of self.now name }
    {
        self.functions[place_of(name)]
    }

    /// Of functions that stand in the order of the names, each is that of its name.
    #[tactic(auto, unfolding(crate::specs::Tables::function_of))]
    pub fn functions_by_name()
        ensures { (f : CostName → CostFn) (name : CostName) →
            function_of (map f cost_names) name ≡ f name }
    {}
}

fn place_of(name: CostName) -> usize
    ensures { result ≡ place_of name }
{
    match name {
        CostName::Literal => 0,
        CostName::Lookup => 1,
        CostName::Context => 2,
        CostName::Control => 3,
        CostName::Call => 4,
        CostName::Bind => 5,
        CostName::Arith => 6,
        CostName::Compare => 7,
        CostName::Hash => 8,
        CostName::Wrap => 9,
        CostName::Make => 10,
        CostName::Take => 11,
        CostName::Scan => 12,
        CostName::Iterate => 13,
        CostName::ReadVar => 14,
        CostName::WriteVar => 15,
        CostName::ReadMap => 16,
        CostName::WriteMap => 17,
        CostName::ReadToken => 18,
        CostName::WriteToken => 19,
        CostName::Event => 20,
        CostName::ContractCall => 21,
        CostName::Deploy => 22,
        CostName::Define => 23,
    }
}
