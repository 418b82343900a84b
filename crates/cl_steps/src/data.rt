//! Natives with a name, where the values of their parts are there.
ghost use Rattle.std.specs.Prelude.{◌≡◌, ◌<◌, ◌^◌, length};
ghost use Rattle.cl_shapes.specs.Limits.{Purse};
ghost use Rattle.cl_values.specs.Wire.{size_of};
ghost use Rattle.cl_values.specs.Sequences.{optional};
ghost use Rattle.cl_values.specs.Computed.{Gives};
ghost use Rattle.cl_meaning.specs.Answers.{outcome_of};
ghost use Rattle.cl_events.specs.State.{State};
ghost use Rattle.cl_meaning.specs.Data.{set_entry, insert_entry, entry_at};
ghost use Rattle.cl_frames.specs.Homes.{frame_seen};
ghost use Rattle.cl_frames.specs.Runs.{Runs, Computes};
ghost use Rattle.cl_frames.specs.Seen.{scope, Fits};
ghost use Rattle.cl_frames.specs.Tails.{with_nothing, with_one, with_all, variable_read, part_taken, variable_written, entry_read, entry_deleted, entry_written, entry_inserted, printed};

use crate::acts::two;
use crate::finding::own_map;
use crate::literals::stands;
use crate::natives::computed;
use crate::tokens::{act_on, read_balance, read_owner, read_supply};
use cl_code::NameNative;
use cl_forms::TokenNative as Token;
use cl_frames::{Context, Names, Stop, pay, pay_for, pay_for_all};
use cl_seq::{bool_value, none, some, try_get};
use cl_shapes::{CostName, Meter};
use cl_state::World;
use cl_tables::Place;
use cl_types::Name;
use cl_values::Val;

/// A native that takes no part.
pub fn with_nothing(
    context: &Context,
    names: &Names,
    native: NameNative,
    name: &Name,
    world: &mut World,
    meter: &mut Meter,
) -> Result<Val, Stop>
    ensures meant { Runs context.now meter.old (with_nothing native (scope context.now names.now) name.now world.old.stack.top) result meter.new world.new.stack.top }
    ensures below { world.new.stack.below ≡ world.old.stack.below }
{
    match native {
        NameNative::VarGet => read_variable(context, names, name, world, meter),
        NameNative::FtSupply => read_supply(context, names, name, world, meter),
        _ => Err(Stop::Stuck),
    }
}

/// A native that takes one part.
pub fn with_one(
    context: &Context,
    names: &Names,
    native: NameNative,
    name: &Name,
    value: Val,
    world: &mut World,
    meter: &mut Meter,
) -> Result<Val, Stop>
    ensures meant { Fits context.now → Runs context.now meter.old (with_one native (scope context.now names.now) name.now value world.old.stack.top) result meter.new world.new.stack.top }
    ensures below { world.new.stack.below ≡ world.old.stack.below }
{
    match native {
        NameNative::Get => take_part(context, name, value, meter),
        NameNative::VarSet => write_variable(context, names, name, value, world, meter),
        NameNative::MapGet => read_entry(context, names, name, value, world, meter),
        NameNative::MapDelete => delete_entry(context, names, name, value, world, meter),
        NameNative::FtBalance => read_balance(context, names, name, value, world, meter),
        NameNative::NftOwner => read_owner(context, names, name, value, world, meter),
        _ => Err(Stop::Stuck),
    }
}

/// A native that takes all parts.
pub fn with_all(
    context: &Context,
    names: &Names,
    native: NameNative,
    name: &Name,
    values: Vec<Val>,
    world: &mut World,
    meter: &mut Meter,
) -> Result<Val, Stop>
    requires { length values.items < 1048576 }
    ensures meant { Fits context.now → Runs context.now meter.old (with_all native (scope context.now names.now) name.now values.items world.old.stack.top) result meter.new world.new.stack.top }
    ensures below { world.new.stack.below ≡ world.old.stack.below }
{
    match native {
        NameNative::MapSet => write_entry(context, names, name, values, world, meter),
        NameNative::MapInsert => insert_entry(context, names, name, values, world, meter),
        NameNative::MintFt => act_on(context, names, Token::MintFt, name, values, world, meter),
        NameNative::BurnFt => act_on(context, names, Token::BurnFt, name, values, world, meter),
        NameNative::SendFt => act_on(context, names, Token::SendFt, name, values, world, meter),
        NameNative::MintNft => act_on(context, names, Token::MintNft, name, values, world, meter),
        NameNative::BurnNft => act_on(context, names, Token::BurnNft, name, values, world, meter),
        NameNative::SendNft => act_on(context, names, Token::SendNft, name, values, world, meter),
        _ => Err(Stop::Stuck),
    }
}

/// The part of a tuple, or of an optional one, at a key.
fn take_part(context: &Context, key: &Name, value: Val, meter: &mut Meter) -> Result<Val, Stop>
    ensures { (s : State) → Runs context.now meter.old (part_taken key.now value s) result meter.new s }
{
    pay_for(context.costs, meter, CostName::Take, &value)?;
    computed(try_get(context.alloc, value, key))
}

/// The value of a variable.
fn read_variable(
    context: &Context,
    names: &Names,
    name: &Name,
    world: &World,
    meter: &mut Meter,
) -> Result<Val, Stop>
    ensures { Runs context.now meter.old (variable_read (scope context.now names.now) name.now world.now.stack.top) result meter.new world.now.stack.top }
{
    let place = Place {
        contract: context.frame.contract,
        name: *name,
    };
    match world.variable(&place)? {
        Some(value) => stands(context, CostName::ReadVar, value, meter),
        None => Err(Stop::Stuck),
    }
}

/// Gives a variable that is there another value.
fn write_variable(
    context: &Context,
    names: &Names,
    name: &Name,
    value: Val,
    world: &mut World,
    meter: &mut Meter,
) -> Result<Val, Stop>
    ensures meant { Runs context.now meter.old (variable_written (scope context.now names.now) name.now value world.old.stack.top) result meter.new world.new.stack.top }
    ensures below { world.new.stack.below ≡ world.old.stack.below }
{
    let place = Place {
        contract: context.frame.contract,
        name: *name,
    };
    pay_for(context.costs, meter, CostName::WriteVar, &value)?;
    let there = world.set_variable(&place, value)?;
    if there {
        Ok(bool_value(true))
    } else {
        Err(Stop::Stuck)
    }
}

/// The size of an optional value.
fn optional_size(value: &Option<Val>) -> u64
    ensures size { result ≡ size_of (optional value.now) }
    ensures small { result < 2 ^ 30 }
{
    match value {
        Some(value) => u64::from(value.size()) + 1,
        None => 1,
    }
}

/// What may be there, as an optional value.
fn optional_value(context: &Context, value: Option<Val>) -> Result<Val, Stop>
    ensures { Computes (outcome_of (Gives (optional value))) result }
{
    match value {
        Some(value) => computed(some(context.alloc, value)),
        None => Ok(none()),
    }
}

/// What stands under a key of a map.
fn read_entry(
    context: &Context,
    names: &Names,
    name: &Name,
    key: Val,
    world: &World,
    meter: &mut Meter,
) -> Result<Val, Stop>
    ensures { Fits context.now → Runs context.now meter.old (entry_read (scope context.now names.now) name.now key world.now.stack.top) result meter.new world.now.stack.top }
{
    if !own_map(context, name) {
        return Err(Stop::Stuck);
    }
    let place = Place {
        contract: context.frame.contract,
        name: *name,
    };
    let found = world.entry(&place, &key)?;
    let size = u64::from(key.size()) + optional_size(&found);
    pay(context.costs, meter, CostName::ReadMap, size)?;
    optional_value(context, found)
}

/// Takes away what stands under a key of a map, and says whether something did.
fn delete_entry(
    context: &Context,
    names: &Names,
    name: &Name,
    key: Val,
    world: &mut World,
    meter: &mut Meter,
) -> Result<Val, Stop>
    ensures meant { Fits context.now → Runs context.now meter.old (entry_deleted (scope context.now names.now) name.now key world.old.stack.top) result meter.new world.new.stack.top }
    ensures below { world.new.stack.below ≡ world.old.stack.below }
{
    pay_for(context.costs, meter, CostName::WriteMap, &key)?;
    if !own_map(context, name) {
        return Err(Stop::Stuck);
    }
    let place = Place {
        contract: context.frame.contract,
        name: *name,
    };
    let was_there = world.remove_entry(&place, &key)?;
    Ok(bool_value(was_there))
}

/// Puts a value under a key of a map of the frame's contract.
fn put_entry(
    context: &Context,
    names: &Names,
    name: &Name,
    key: Val,
    value: Val,
    world: &mut World,
) -> Result<Val, Stop>
    ensures meant { (p : Purse) → Runs context.now p (set_entry (scope context.now names.now) name.now key value world.old.stack.top) result p world.new.stack.top }
    ensures below { world.new.stack.below ≡ world.old.stack.below }
{
    let place = Place {
        contract: context.frame.contract,
        name: *name,
    };
    world.put_entry(&place, &key, value)?;
    Ok(bool_value(true))
}

/// Puts a value under a key of a map.
fn write_entry(
    context: &Context,
    names: &Names,
    name: &Name,
    values: Vec<Val>,
    world: &mut World,
    meter: &mut Meter,
) -> Result<Val, Stop>
    requires { length values.items < 1048576 }
    ensures meant { Fits context.now → Runs context.now meter.old (entry_written (scope context.now names.now) name.now values.items world.old.stack.top) result meter.new world.new.stack.top }
    ensures below { world.new.stack.below ≡ world.old.stack.below }
{
    pay_for_all(context.costs, meter, CostName::WriteMap, &values)?;
    if !own_map(context, name) {
        return Err(Stop::Stuck);
    }
    match two(values) {
        Some((key, value)) => put_entry(context, names, name, key, value, world),
        None => Err(Stop::Stuck),
    }
}

/// Puts a value under a key of a map of the frame's contract, where nothing stands there.
fn put_new_entry(
    context: &Context,
    names: &Names,
    name: &Name,
    key: Val,
    value: Val,
    world: &mut World,
) -> Result<Val, Stop>
    ensures meant { (p : Purse) → Runs context.now p (insert_entry (scope context.now names.now) name.now key value (entry_at (scope context.now names.now) name.now key world.old.stack.top) world.old.stack.top) result p world.new.stack.top }
    ensures below { world.new.stack.below ≡ world.old.stack.below }
{
    let place = Place {
        contract: context.frame.contract,
        name: *name,
    };
    let inserted = world.insert_entry(&place, &key, value)?;
    Ok(bool_value(inserted))
}

/// Puts a value under a key of a map, where nothing stands there.
fn insert_entry(
    context: &Context,
    names: &Names,
    name: &Name,
    values: Vec<Val>,
    world: &mut World,
    meter: &mut Meter,
) -> Result<Val, Stop>
    requires { length values.items < 1048576 }
    ensures meant { Fits context.now → Runs context.now meter.old (entry_inserted (scope context.now names.now) name.now values.items world.old.stack.top) result meter.new world.new.stack.top }
    ensures below { world.new.stack.below ≡ world.old.stack.below }
{
    pay_for_all(context.costs, meter, CostName::WriteMap, &values)?;
    if !own_map(context, name) {
        return Err(Stop::Stuck);
    }
    match two(values) {
        Some((key, value)) => put_new_entry(context, names, name, key, value, world),
        None => Err(Stop::Stuck),
    }
}

/// Adds a printed value to the events.
pub fn print(
    context: &Context,
    value: Val,
    world: &mut World,
    meter: &mut Meter,
) -> Result<Val, Stop>
    ensures meant { Runs context.now meter.old (printed (frame_seen context.now.frame.now) value world.old.stack.top) result meter.new world.new.stack.top }
    ensures below { world.new.stack.below ≡ world.old.stack.below }
{
    pay_for(context.costs, meter, CostName::Event, &value)?;
    let told = value.copy(context.alloc)?;
    world.print(&context.frame.contract, told)?;
    Ok(value)
}
