//! Definitions in the order of the text, and the places of their names.
ghost use Rattle.std.specs.Prelude.{◌≡◌, ◌+◌, ◌<◌, ◌++◌, ◌∷◌, [], ℕ, List, true, None, length, map, filter_map, slice_get, slice_set, Some, IfOk, OnOk, option_copied};
ghost use Rattle.cl_forms.specs.Forms.{Form as AForm};
ghost use Rattle.cl_forms.specs.Names.{name_at};
ghost use Rattle.cl_forms.specs.Order.{IsGoodOrder, is_in};
ghost use Rattle.cl_code.specs.Definitions.{form_defined};
ghost use Rattle.cl_rules.specs.Acceptance.{forms_at};
ghost use Rattle.cl_check.specs.Placing.{AreNamedApart, ArePlaces, PlacedTo, put_all};

use cl_code::Definition;
use cl_forms::Form;
use cl_keyed::HashKey;
use cl_types::{Name, NoMemory};
use indexmap::IndexMap;
use std::alloc::Global;

/// A slot for each form.
fn empty_slots(alloc: Global, forms: &[Form]) -> Result<Vec<Option<Definition>>, NoMemory>
    ensures { IfOk result (λ slots. slots.items ≡ map (λ _. None) forms.now) }
{
    let mut slots = Vec::with_capacity(alloc, forms.len())?;
    for _form in forms {
        slots.push(None)?;
    }
    Ok(slots)
}

fn put(slots: &mut Vec<Option<Definition>>, place: usize, definition: Definition)
    requires { place < length slots.old.items }
    ensures { slots.new.items ≡ slice_set slots.old.items place (Some definition) }
{
    slots[place] = Some(definition);
}

/// Each definition in the slot of its form.
fn filled(
    alloc: Global,
    definitions: Vec<Definition>,
    forms: &[Form],
    order: &[usize],
) -> Result<Vec<Option<Definition>>, NoMemory>
    requires as_many { length definitions.items ≡ length order.now }
    requires within { (n : ℕ) → is_in n order.now ≡ true → n < length forms.now }
    ensures { IfOk result (λ slots. slots.items ≡ put_all (map (λ _. None) forms.now) order.now definitions.items) }
{
    let mut slots = empty_slots(alloc, forms)?;
    let mut done = 0;
    for definition in definitions {
        put(&mut slots, order[done], definition);
        done += 1;
    }
    Ok(slots)
}

fn keep(definitions: &mut Vec<Definition>, slot: Option<Definition>) -> Result<(), NoMemory>
    ensures { OnOk result (definitions.new.items ≡ definitions.old.items ++ filter_map (λ s. s) (slot ∷ [])) }
{
    match slot {
        Some(definition) => {
            definitions.push(definition)?;
            Ok(())
        }
        None => Ok(()),
    }
}

fn in_slots(alloc: Global, slots: Vec<Option<Definition>>) -> Result<Vec<Definition>, NoMemory>
    ensures { IfOk result (λ ds. ds.items ≡ filter_map (λ s. s) slots.items) }
{
    let mut definitions = Vec::with_capacity(alloc, slots.len())?;
    for slot in slots {
        keep(&mut definitions, slot)?;
    }
    Ok(definitions)
}

/// The definitions of forms in the order of their text, from those in the order of evaluation.
pub(crate) fn in_text_order(
    alloc: Global,
    definitions: Vec<Definition>,
    forms: &[Form],
    order: &[usize],
) -> Result<Vec<Definition>, NoMemory>
    requires good { IsGoodOrder forms.now order.now }
    requires defined { map form_defined definitions.items ≡ forms_at forms.now order.now }
    ensures forms { IfOk result (λ ds. map form_defined ds.items ≡ forms.now) }
    ensures order { IfOk result (λ ds. filter_map (slice_get ds.items) order.now ≡ definitions.items) }
{
    let slots = filled(alloc, definitions, forms, order)?;
    let placed = in_slots(alloc, slots)?;
    Ok(placed)
}

fn name_of(definition: &Definition) -> Option<&Name>
    ensures { option_copied result ≡ (form_defined definition.now).name }
{
    match definition {
        Definition::Constant(constant) => Some(&constant.name),
        Definition::Variable(variable) => Some(&variable.name),
        Definition::MapOf(map) => Some(&map.name),
        Definition::Fungible(token) => Some(&token.name),
        Definition::NonFungible(token) => Some(&token.name),
        Definition::Function(function) => Some(&function.name),
        Definition::TopLevel(_) => None,
    }
}

fn add_place(
    places: &mut IndexMap<Name, usize, HashKey>,
    definition: &Definition,
    place: usize,
) -> Result<(), NoMemory>
    ensures { OnOk result ((forms : List AForm) → AreNamedApart forms → name_at forms place ≡ (form_defined definition.now).name → PlacedTo forms place places.old.entries → PlacedTo forms (place + 1) places.new.entries) }
{
    match name_of(definition) {
        Some(name) => {
            places.insert(*name, place)?;
            Ok(())
        }
        None => Ok(()),
    }
}

/// The place of each name that is defined.
pub(crate) fn places(
    alloc: Global,
    hash_key: HashKey,
    definitions: &[Definition],
) -> Result<IndexMap<Name, usize, HashKey>, NoMemory>
    requires { AreNamedApart (map form_defined definitions.now) }
    ensures { IfOk result (λ places. ArePlaces (map form_defined definitions.now) places.entries) }
{
    let mut places = IndexMap::with_hasher(alloc, hash_key);
    for (place, definition) in definitions.iter().enumerate() {
        add_place(&mut places, definition, place)?;
    }
    Ok(places)
}
