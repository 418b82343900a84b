//! Variables, maps and events of the contract whose code is evaluated.
ghost use Rattle.std.specs.Prelude.{◌≡◌, ◌<◌, ◌^◌, None};
ghost use Rattle.cl_values.specs.Computed.{Gives};
ghost use Rattle.cl_values.specs.Sequences.{optional};
ghost use Rattle.cl_values.specs.Wire.{size_of};
ghost use Rattle.cl_meaning.specs.Data.{var_get_form, var_set_form, map_get_form, map_set_form, map_insert_form, map_delete_form, set_entry, insert_entry, entry_at};
ghost use Rattle.cl_meaning.specs.Tokens.{print_form};
ghost use Rattle.cl_meaning.specs.Scope.{Scope as Around, BoundValues};
ghost use Rattle.cl_audit_steps.specs.Seen.{seen};
ghost use Rattle.cl_audit_steps.specs.Steps.{StartsSo, variable_read, variable_written, value_printed, entry_read, entry_deleted, entry_written, entry_inserted};
ghost use Rattle.cl_audit_steps.specs.Acting.{Does, DoesLast, IsDone};
ghost use Rattle.cl_audit_steps.specs.Ways.{IsComputed};
ghost use Rattle.cl_audit_steps.specs.declared.step.Part.TheVariants.{Act, Acts, Read};

use crate::charge::Charge;
use crate::control::wrong;
use crate::items::{atom, name_and_item, name_and_rest, one};
use crate::scope::Scope;
use crate::step::{End, Last, OnAct, OnActs, OnRead, Part, Start};
use crate::values::{charged_end, computed_last, uncharged_end};
use cl_operands::two;
use cl_seq::{bool_value, none, some};
use cl_sexpr::Sexpr;
use cl_shapes::CostName;
use cl_state::World;
use cl_tables::Place;
use cl_types::{Name, NoMemory};
use cl_values::Val;
use std::alloc::Global;

// ---- first steps

/// A node that does something with the value of a part.
pub(crate) fn act<'a>(part: &'a Sexpr, kind: OnAct<'a>) -> Start<'a>
    ensures { result ≡ record { charge = None; part = Act part.entry kind.entry } }
{
    Start {
        charge: None,
        part: Part::Act(part, kind),
    }
}

/// A node that does something with the values of all parts.
pub(crate) fn acts<'a>(parts: &'a [Sexpr], kind: OnActs<'a>) -> Start<'a>
    ensures { result ≡ record { charge = None; part = Acts parts.entry kind.entry } }
{
    Start {
        charge: None,
        part: Part::Acts(parts, kind),
    }
}

/// A node that reads something.
pub(crate) fn read<'a>(kind: OnRead<'a>) -> Start<'a>
    ensures { result ≡ record { charge = None; part = Read kind.entry } }
{
    Start {
        charge: None,
        part: Part::Read(kind),
    }
}

/// `var-get`
pub(crate) fn var_get_start(items: &[Sexpr]) -> Start
    ensures { (S : Around) → StartsSo S (λ take enter s. var_get_form S items.now s) result }
{
    let Some(item) = one(items) else {
        return wrong();
    };
    match atom(item) {
        Some(name) => read(OnRead::Variable(name)),
        None => wrong(),
    }
}

/// `var-set`
pub(crate) fn var_set_start(items: &[Sexpr]) -> Start
    ensures { (S : Around) → StartsSo S (λ take enter s. var_set_form take S items.now s) result }
{
    match name_and_item(items) {
        Some((name, part)) => act(part, OnAct::SetVariable(name)),
        None => wrong(),
    }
}

/// `map-get?`
pub(crate) fn map_get_start(items: &[Sexpr]) -> Start
    ensures { (S : Around) → StartsSo S (λ take enter s. map_get_form take S items.now s) result }
{
    match name_and_item(items) {
        Some((name, part)) => act(part, OnAct::ReadEntry(name)),
        None => wrong(),
    }
}

/// `map-delete`
pub(crate) fn map_delete_start(items: &[Sexpr]) -> Start
    ensures { (S : Around) →
        StartsSo S (λ take enter s. map_delete_form take S items.now s) result }
{
    match name_and_item(items) {
        Some((name, part)) => act(part, OnAct::DeleteEntry(name)),
        None => wrong(),
    }
}

/// `map-set`
pub(crate) fn map_set_start(items: &[Sexpr]) -> Start
    ensures { (S : Around) → StartsSo S (λ take enter s. map_set_form take S items.now s) result }
{
    match name_and_rest(items) {
        Some((name, parts)) => acts(parts, OnActs::WriteEntry(name)),
        None => wrong(),
    }
}

/// `map-insert`
pub(crate) fn map_insert_start(items: &[Sexpr]) -> Start
    ensures { (S : Around) →
        StartsSo S (λ take enter s. map_insert_form take S items.now s) result }
{
    match name_and_rest(items) {
        Some((name, parts)) => acts(parts, OnActs::InsertEntry(name)),
        None => wrong(),
    }
}

/// `print`
pub(crate) fn print_start(items: &[Sexpr]) -> Start
    ensures { (S : Around) → StartsSo S (λ take enter s. print_form take S items.now s) result }
{
    match one(items) {
        Some(part) => act(part, OnAct::Print),
        None => wrong(),
    }
}

// ---- variables and events

/// The value of a variable, charged by its size.
pub(crate) fn read_variable<'a>(
    world: &World,
    scope: &Scope,
    name: &Name,
) -> Result<End<'a>, NoMemory>
    ensures { (outer : BoundValues) →
        IsDone (seen scope.now outer) (variable_read (seen scope.now outer) name.now)
        world.now.stack.top result world.now.stack.top }
{
    let place = Place {
        contract: scope.frame.contract,
        name: *name,
    };
    match world.variable(&place)? {
        Some(value) => {
            let charge = Charge::of(CostName::ReadVar, &value);
            Ok(charged_end(charge, Last::Give(value)))
        }
        None => Ok(uncharged_end(Last::Wrong)),
    }
}

/// A variable gets another value.
pub(crate) fn set_variable<'a>(
    world: &mut World,
    scope: &Scope,
    name: &Name,
    value: Val,
) -> Result<End<'a>, NoMemory>
    ensures { (outer : BoundValues) →
        Does (seen scope.now outer) (variable_written (seen scope.now outer) name.now value)
        world.old.stack result world.new.stack }
{
    let place = Place {
        contract: scope.frame.contract,
        name: *name,
    };
    let charge = Charge::of(CostName::WriteVar, &value);
    let found = world.set_variable(&place, value)?;
    if found {
        Ok(charged_end(charge, Last::Give(bool_value(true))))
    } else {
        Ok(charged_end(charge, Last::Wrong))
    }
}

/// A value is printed.
pub(crate) fn print<'a>(world: &mut World, scope: &Scope, value: Val) -> Result<End<'a>, NoMemory>
    ensures { (outer : BoundValues) →
        Does (seen scope.now outer) (value_printed (seen scope.now outer) value)
        world.old.stack result world.new.stack }
{
    let charge = Charge::of(CostName::Event, &value);
    world.print(&scope.frame.contract, value.copy(scope.alloc)?)?;
    Ok(charged_end(charge, Last::Give(value)))
}

// ---- maps

/// The size of what was found, as an optional value.
fn optional_size(found: &Option<Val>) -> u64
    ensures size { result ≡ size_of (optional found.now) }
    ensures small { result < 2 ^ 30 }
{
    match found {
        Some(value) => u64::from(value.size()) + 1,
        None => 1,
    }
}

/// What was found, as an optional value.
fn optional_value<'a>(alloc: Global, found: Option<Val>) -> Result<Last<'a>, NoMemory>
    ensures { IsComputed (Gives (optional found)) result }
{
    match found {
        Some(value) => computed_last(some(alloc, value)),
        None => Ok(Last::Give(none())),
    }
}

/// What a map has at a key, charged by both.
pub(crate) fn read_entry<'a>(
    world: &World,
    scope: &Scope,
    name: &Name,
    key: Val,
) -> Result<End<'a>, NoMemory>
    ensures { (outer : BoundValues) →
        IsDone (seen scope.now outer) (entry_read (seen scope.now outer) name.now key)
        world.now.stack.top result world.now.stack.top }
{
    if !scope.has_map(name) {
        return Ok(uncharged_end(Last::Wrong));
    }
    let place = Place {
        contract: scope.frame.contract,
        name: *name,
    };
    let found = world.entry(&place, &key)?;
    let size = u64::from(key.size()) + optional_size(&found);
    let charge = Charge::at(CostName::ReadMap, size)?;
    Ok(charged_end(charge, optional_value(scope.alloc, found)?))
}

/// A key of a map is taken away.
pub(crate) fn delete_entry<'a>(
    world: &mut World,
    scope: &Scope,
    name: &Name,
    key: Val,
) -> Result<End<'a>, NoMemory>
    ensures { (outer : BoundValues) →
        Does (seen scope.now outer) (entry_deleted (seen scope.now outer) name.now key)
        world.old.stack result world.new.stack }
{
    let charge = Charge::of(CostName::WriteMap, &key);
    if !scope.has_map(name) {
        return Ok(charged_end(charge, Last::Wrong));
    }
    let place = Place {
        contract: scope.frame.contract,
        name: *name,
    };
    let was_there = world.remove_entry(&place, &key)?;
    Ok(charged_end(charge, Last::Give(bool_value(was_there))))
}

/// A key of the contract's map gets a value.
fn put_entry<'a>(
    world: &mut World,
    scope: &Scope,
    name: &Name,
    key: Val,
    value: Val,
) -> Result<Last<'a>, NoMemory>
    ensures { (outer : BoundValues) →
        DoesLast (seen scope.now outer) (set_entry (seen scope.now outer) name.now key value)
        world.old.stack result world.new.stack }
{
    let place = Place {
        contract: scope.frame.contract,
        name: *name,
    };
    world.put_entry(&place, &key, value)?;
    Ok(Last::Give(bool_value(true)))
}

/// A key of the contract's map gets a value, where it has none.
fn put_new_entry<'a>(
    world: &mut World,
    scope: &Scope,
    name: &Name,
    key: Val,
    value: Val,
) -> Result<Last<'a>, NoMemory>
    ensures { (outer : BoundValues) → DoesLast (seen scope.now outer)
        (λ s. insert_entry (seen scope.now outer) name.now key value
        (entry_at (seen scope.now outer) name.now key s) s)
        world.old.stack result world.new.stack }
{
    let place = Place {
        contract: scope.frame.contract,
        name: *name,
    };
    let inserted = world.insert_entry(&place, &key, value)?;
    Ok(Last::Give(bool_value(inserted)))
}

/// `map-set` on values.
pub(crate) fn write_entry<'a>(
    world: &mut World,
    scope: &Scope,
    name: &Name,
    values: Vec<Val>,
) -> Result<End<'a>, NoMemory>
    ensures { (outer : BoundValues) →
        Does (seen scope.now outer) (entry_written (seen scope.now outer) name.now values.items)
        world.old.stack result world.new.stack }
{
    let charge = Charge::of_all(CostName::WriteMap, &values)?;
    if !scope.has_map(name) {
        return Ok(charged_end(charge, Last::Wrong));
    }
    match two(values) {
        Some((key, value)) => Ok(charged_end(charge, put_entry(world, scope, name, key, value)?)),
        None => Ok(charged_end(charge, Last::Wrong)),
    }
}

/// `map-insert` on values.
pub(crate) fn insert_entry<'a>(
    world: &mut World,
    scope: &Scope,
    name: &Name,
    values: Vec<Val>,
) -> Result<End<'a>, NoMemory>
    ensures { (outer : BoundValues) →
        Does (seen scope.now outer) (entry_inserted (seen scope.now outer) name.now values.items)
        world.old.stack result world.new.stack }
{
    let charge = Charge::of_all(CostName::WriteMap, &values)?;
    if !scope.has_map(name) {
        return Ok(charged_end(charge, Last::Wrong));
    }
    match two(values) {
        Some((key, value)) => Ok(charged_end(
            charge,
            put_new_entry(world, scope, name, key, value)?,
        )),
        None => Ok(charged_end(charge, Last::Wrong)),
    }
}
