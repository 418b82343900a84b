//! Contracts that break no rule.
ghost use Rattle.std.specs.Prelude.{◌≡◌, true, option_map, option_and_then, option_copied, IfSome};
ghost use Rattle.cl_meaning.specs.Deployed.{form_of, function_in};
ghost use Rattle.cl_rules.specs.Context.{named_in};
ghost use Rattle.cl_code.specs.Typed.{goes_by};
ghost use Rattle.cl_contracts.specs.Seen.{IsIndexed, as_function, definition_under, forms_of, function_seen, function_under, kind_at};
ghost use Rattle.cl_contracts.specs.Standings.{IsWellFormed};

use crate::parts::Parts;
use cl_code::{Definition, Function};
use cl_keyed::HashKey;
use cl_types::Name;
use indexmap::IndexMap;
use std::marker::Model;

/// A contract that breaks no rule of names, order and typing, and none of whose read-only functions
/// writes.
pub struct Checked {
    parts: Parts,
}

impl Model for Checked {
    ghost use Rattle.cl_contracts.specs.contracts.parts.Parts as plain;
    ghost use Rattle.cl_contracts.specs.declared.parts.Parts.{Parts};
    ghost use Rattle.cl_contracts.specs.Seen.{IsIndexed};
    ghost use Rattle.cl_contracts.specs.Standings.{IsWellFormed};

    ghost Value = { Parts };

    ghost coded = { plain.the_row.coded };

    ghost view = { λ c. c.parts };

    ghost invariant = { λ c. IsIndexed c.parts × IsWellFormed c.parts };
}

impl Drop for Checked {
    fn drop(self) {
        let Checked { parts } = self;
        drop(parts);
    }
}

#[tactic(auto, using(crate::proofs::Places::under_name))]
fn place_under<'a>(places: &'a IndexMap<Name, usize, HashKey>, name: &Name) -> Option<&'a usize>
    ensures { option_copied result ≡ named_in name.now places.now.entries }
{
    places.get(name)
}

fn definition_under<'a>(parts: &'a Parts, name: &Name) -> Option<&'a Definition>
    ensures { option_copied result ≡ definition_under name.now parts.now }
{
    match place_under(&parts.places, name) {
        Some(place) => parts.definitions.get(*place),
        None => None,
    }
}

fn as_function(definition: Option<&Definition>) -> Option<&Function>
    ensures { option_copied result ≡ option_and_then as_function (option_copied definition.entry) }
{
    match definition {
        Some(Definition::Function(function)) => Some(function),
        _ => None,
    }
}

impl Checked {
    /// A contract with these parts.
    pub fn new(parts: Parts) -> Checked
        requires indexed { IsIndexed parts }
        requires well_formed { IsWellFormed parts }
        ensures { result ≡ parts }
    {
        Checked { parts }
    }

    /// A law: each name has the place of its definition, the order is a good one, and no rule is
    /// broken.
    pub fn is_well_formed(&self)
        ensures indexed { IsIndexed self.now }
        ensures well_formed { IsWellFormed self.now }
    {
        let _parts = &self.parts;
    }

    /// The key by which the tables of the contract's names hash.
    pub fn hash_key(&self) -> HashKey {
        self.parts.hash_key()
    }

    /// Its parts.
    pub fn parts(&self) -> &Parts
        ensures { result.now ≡ self.now }
    {
        &self.parts
    }

    /// What is defined under a name.
    pub fn definition(&self, name: &Name) -> Option<&Definition>
        ensures there { option_copied result ≡ definition_under name.now self.now }
        ensures form { option_map (λ d. kind_at d.now) result
            ≡ form_of name.now (forms_of self.now) }
    {
        definition_under(&self.parts, name)
    }

    /// The function of a name.
    pub fn function(&self, name: &Name) -> Option<&Function>
        ensures there { option_copied result ≡ function_under name.now self.now }
        ensures seen { option_map (λ f. function_seen f.now) result
            ≡ function_in name.now (forms_of self.now) }
        ensures goes { IfSome result (λ f. goes_by self.now.version f.now.body ≡ true) }
    {
        as_function(definition_under(&self.parts, name))
    }
}
