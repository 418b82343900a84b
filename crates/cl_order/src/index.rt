//! An index of forms by the names that they define.
ghost use Rattle.std.specs.Prelude.{◌≡◌, ◌+◌, ◌<◌, ◌^◌, ℕ, List, [], ◌∷◌, ◌++◌, length, IfOk, OnOk, if◌then◌else◌};
ghost use Rattle.cl_forms.specs.Names.{same, is_among};
ghost use Rattle.cl_order.specs.Index.{place_if, under, IsIndex};

use cl_forms::Form;
use cl_keyed::HashKey;
use cl_types::Name;
use indexmap::IndexMap;
use std::alloc::{AllocError, Global};

/// The places of the forms that define each name, in the order of the text.
pub(crate) type Index = IndexMap<Name, Vec<u32>, HashKey>;

// Adds a place behind those of a name.
fn add(index: &mut Index, alloc: Global, name: &Name, place: u32) -> Result<(), AllocError>
    ensures { OnOk result ((x : List ℕ) → under index.new x ≡ (if same name.now x then under index.old x ++ place ∷ [] else under index.old x)) }
{
    if let Some(places) = index.get_mut(name) {
        places.push(place)?;
        return Ok(());
    }
    let mut places = Vec::new(alloc);
    places.push(place)?;
    index.insert(*name, places)?;
    Ok(())
}

// Adds the place of a form, if it has a name.
fn add_form(index: &mut Index, alloc: Global, form: &Form, place: u32) -> Result<(), AllocError>
    ensures { OnOk result ((x : List ℕ) → under index.new x ≡ under index.old x ++ place_if (is_among (x ∷ []) form.now.name) place) }
{
    match &form.name {
        Some(name) => add(index, alloc, name, place),
        None => Ok(()),
    }
}

/// The index of forms.
pub(crate) fn index(alloc: Global, hash_key: HashKey, forms: &[Form]) -> Result<Index, AllocError>
    requires { length forms.now < 2 ^ 32 }
    ensures { IfOk result (IsIndex forms.now) }
{
    let mut index = IndexMap::with_hasher(alloc, hash_key);
    for (place, form) in forms.iter().enumerate() {
        add_form(&mut index, alloc, form, place as u32)?;
    }
    Ok(index)
}

/// The places under a name.
pub(crate) fn under<'a>(index: &'a Index, name: &Name) -> &'a [u32]
    ensures { result.now ≡ under index.now name.now }
{
    match index.get(name) {
        Some(places) => places,
        None => &[],
    }
}
