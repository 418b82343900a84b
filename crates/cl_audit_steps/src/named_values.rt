//! Values under names.
ghost use Rattle.std.specs.Prelude.{◌≡◌, ◌++◌, ◌∷◌, [], OnOk, OnErr, option_and_then, option_copied, slice_get};
ghost use Rattle.cl_forms.specs.Names.{named_in};
ghost use Rattle.cl_meaning.specs.Deployed.{value_of};

use crate::places::{place_of, put_place};
use cl_keyed::HashKey;
use cl_types::{Name, NoMemory};
use cl_values::Val;
use indexmap::IndexMap;
use std::alloc::Global;
use std::marker::Model;

/// Values under names, in the order in which they came. Of one name the first counts.
#[derive(Drop)]
pub struct NamedValues {
    values: Vec<(Name, Val)>,
    /// The place of the first value of each name.
    places: IndexMap<Name, usize, HashKey>,
}

impl Model for NamedValues {
    ghost use Rattle.std.specs.Prelude.{ℕ, List};
    ghost use Rattle.cl_values.specs.Tree.{Tree as Tagged};
    ghost use Rattle.cl_audit_steps.specs.Named.{values_code};
    ghost use Rattle.cl_audit_steps.specs.Places.{ArePlaces, value_names};

    ghost Value = { List (List ℕ × Tagged) };

    ghost coded = { values_code };

    ghost view = { λ n. n.values.items };

    ghost invariant = { λ n. ArePlaces (value_names n.values.items) n.places.entries };
}

/// The pair at the place of a name.
fn pair_under<'a>(
    values: &'a [(Name, Val)],
    places: &IndexMap<Name, usize, HashKey>,
    name: &Name,
) -> Option<&'a (Name, Val)>
    ensures { option_copied result
        ≡ option_and_then (slice_get values.now) (named_in name.now places.now.entries) }
{
    match place_of(places, name) {
        Some(place) => values.get(*place),
        None => None,
    }
}

impl NamedValues {
    /// No values. The table of names hashes by this key.
    pub fn new(alloc: Global, hash_key: HashKey) -> NamedValues
        ensures { result ≡ [] }
    {
        NamedValues {
            values: Vec::new(alloc),
            places: IndexMap::with_hasher(alloc, hash_key),
        }
    }

    /// Puts a value behind the others.
    pub fn push(&mut self, name: Name, value: Val) -> Result<(), NoMemory>
        ensures added { OnOk result (self.new ≡ self.old ++ (name, value) ∷ []) }
        ensures refused { OnErr result (self.new ≡ self.old) }
    {
        self.values.reserve(1)?;
        let place = self.values.len();
        put_place(&mut self.places, &name, place)?;
        self.values.push_reserved((name, value));
        Ok(())
    }

    /// The first value of a name.
    pub fn find(&self, name: &Name) -> Option<&Val>
        ensures { option_copied result ≡ value_of name.now self.now }
    {
        match pair_under(&self.values, &self.places, name) {
            Some(pair) => Some(&pair.1),
            None => None,
        }
    }
}
