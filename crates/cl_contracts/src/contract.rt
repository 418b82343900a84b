//! Deployed contracts.
ghost use Rattle.std.specs.Prelude.{◌≡◌, true, option_map, option_copied, Some, IfSome};
ghost use Rattle.cl_c32.specs.declared.principal.Principal.{Principal};
ghost use Rattle.cl_code.specs.Typed.{goes_by};
ghost use Rattle.cl_meaning.specs.Deployed.{constant_of, form_of, function_of};
ghost use Rattle.cl_contracts.specs.Contents.{with_constants};
ghost use Rattle.cl_contracts.specs.Seen.{AreConstants, IsIndexed, contract_seen, definition_under, forms_of, function_seen, function_under, kind_at};

use crate::checked::Checked;
use crate::parts::Parts;
use cl_code::{Definition, Function};
use cl_keyed::HashKey;
use cl_types::Name;
use cl_values::Val;
use indexmap::IndexMap;
use std::marker::Model;

/// A deployed contract, with the values of its constants, each of its constant's type.
pub struct Contract {
    checked: Checked,
    constants: IndexMap<Name, Val, HashKey>,
}

impl Model for Contract {
    ghost use Rattle.std.specs.Coded.{codes};
    ghost use Rattle.cl_values.specs.TreeCode.{tree_code};
    ghost use Rattle.cl_contracts.specs.contracts.parts.Parts as plain;
    ghost use Rattle.cl_contracts.specs.Contents.{ContractParts, with_constants};
    ghost use Rattle.cl_contracts.specs.Seen.{AreConstants};

    ghost Value = { ContractParts };

    ghost coded = { Prim.hlevel (codes, plain.the_row.coded, tree_code) };

    ghost view = { λ c. with_constants c.checked c.constants.entries };

    ghost invariant = { λ c. AreConstants (with_constants c.checked c.constants.entries) };
}

impl Drop for Contract {
    fn drop(self) {
        let Contract { checked, constants } = self;
        drop(checked);
        drop(constants);
    }
}

impl Contract {
    /// A contract whose constants have these values.
    pub(crate) fn new(checked: Checked, constants: IndexMap<Name, Val, HashKey>) -> Contract
        requires { AreConstants (with_constants checked constants.entries) }
        ensures { result ≡ with_constants checked constants.entries }
    {
        Contract { checked, constants }
    }

    /// A law: no rule is broken, and each constant's value is of its type.
    pub fn is_typed(&self)
        ensures indexed { IsIndexed self.now.checked }
        ensures constants { AreConstants self.now }
    {
        self.checked.is_well_formed();
    }

    /// What was checked.
    pub fn checked(&self) -> &Checked
        ensures { result.now ≡ self.now.checked }
    {
        &self.checked
    }

    /// The parts of what was checked.
    pub fn parts(&self) -> &Parts
        ensures { result.now ≡ self.now.checked }
    {
        self.checked.parts()
    }

    /// The values of its constants.
    pub fn constants(&self) -> &IndexMap<Name, Val, HashKey>
        ensures { result.now.entries ≡ self.now.constants }
    {
        &self.constants
    }

    /// What is defined under a name.
    pub fn definition(&self, name: &Name) -> Option<&Definition>
        ensures there { option_copied result ≡ definition_under name.now self.now.checked }
        ensures form { option_map (λ d. kind_at d.now) result
            ≡ form_of name.now (forms_of self.now.checked) }
    {
        self.checked.definition(name)
    }

    /// The function of a name.
    pub fn function(&self, name: &Name) -> Option<&Function>
        ensures there { option_copied result ≡ function_under name.now self.now.checked }
        ensures seen { (p : Principal) → option_map (λ f. function_seen f.now) result
            ≡ function_of name.now (Some (contract_seen (p, self.now))) }
        ensures goes { IfSome result (λ f. goes_by self.now.checked.version f.now.body ≡ true) }
    {
        self.checked.function(name)
    }

    /// The value of a constant.
    #[tactic(auto, using(crate::proofs::Places::value_under))]
    pub fn constant(&self, name: &Name) -> Option<&Val>
        ensures { (p : Principal) → option_copied result
            ≡ constant_of name.now (Some (contract_seen (p, self.now))) }
    {
        self.constants.get(name)
    }
}
