//! The forms of a contract.
ghost use Rattle.std.specs.Prelude.{◌≡◌, ◌<◌, IfOk, Some, length, option_and_then, option_copied, option_map, slice_get};
ghost use Rattle.cl_forms.specs.Names.{named_in};
ghost use Rattle.cl_meaning.specs.Deployed.{form_of};
ghost use Rattle.cl_audit_steps.specs.Places.{ArePlaces, form_names};

use crate::places::{place_of, put_place};
use cl_forms::Form;
use cl_keyed::HashKey;
use cl_types::{Name, NoMemory};
use indexmap::IndexMap;
use std::alloc::Global;
use std::marker::Model;

/// Forms in the order of a text, which are found by their names.
#[derive(Drop)]
pub struct Forms {
    forms: Vec<Form>,
    /// The place of the first form of each name.
    places: IndexMap<Name, usize, HashKey>,
}

impl Model for Forms {
    ghost use Rattle.std.specs.Prelude.{List};
    ghost use Rattle.std.specs.Coded.{coded_list};
    ghost use Rattle.cl_forms.specs.Forms.{Form};
    ghost use Rattle.cl_forms.specs.FormCode.{form_code};
    ghost use Rattle.cl_audit_steps.specs.Places.{ArePlaces, form_names};

    ghost Value = { List Form };

    ghost coded = { coded_list form_code };

    ghost view = { λ f. f.forms.items };

    ghost invariant = { λ f. ArePlaces (form_names f.forms.items) f.places.entries };
}

/// The place of the first form of each name.
fn places_of(
    alloc: Global,
    hash_key: HashKey,
    forms: &[Form],
) -> Result<IndexMap<Name, usize, HashKey>, NoMemory>
    ensures { IfOk result (λ places. ArePlaces (form_names forms.now) places.entries) }
{
    let mut places = IndexMap::with_hasher(alloc, hash_key);
    for place in 0..forms.len() {
        let form = &forms[place];
        if let Some(name) = &form.name {
            put_place(&mut places, name, place)?;
        }
    }
    Ok(places)
}

/// The form at the place of a name.
fn form_under<'a>(
    forms: &'a [Form],
    places: &IndexMap<Name, usize, HashKey>,
    name: &Name,
) -> Option<&'a Form>
    ensures { option_copied result
        ≡ option_and_then (slice_get forms.now) (named_in name.now places.now.entries) }
{
    match place_of(places, name) {
        Some(place) => forms.get(*place),
        None => None,
    }
}

impl Forms {
    /// The forms of a text, whose table of names hashes by this key.
    pub fn new(alloc: Global, hash_key: HashKey, forms: Vec<Form>) -> Result<Forms, NoMemory>
        ensures { IfOk result (λ f. f ≡ forms.items) }
    {
        let places = places_of(alloc, hash_key, &forms)?;
        Ok(Forms { forms, places })
    }

    /// The form at a place of the text.
    pub fn at(&self, place: usize) -> &Form
        requires { place < length self.now }
        ensures { slice_get self.now place ≡ Some result.now }
    {
        &self.forms[place]
    }

    /// The first form that defines a name.
    pub fn find(&self, name: &Name) -> Option<&Form>
        ensures { option_map (λ f. f.kind) (option_copied result) ≡ form_of name.now self.now }
    {
        form_under(&self.forms, &self.places, name)
    }
}
