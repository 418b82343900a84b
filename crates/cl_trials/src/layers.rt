//! Layers on a base of many variables. A world that copied what a layer is put on, or what it changes first, would need some
//! 30 GB here.
use cl_c32::{Address, ContractName, Principal};
use cl_state::World;
use cl_tables::Place;
use cl_types::Name;
use cl_values::{Kind, Val, Value};
use std::test::Fail;

const VARIABLES: u32 = 300_000;

const LAYERS: u32 = 256;

// The place of a variable, with its number in letters.
fn variable(number: u32) -> Option<Place> {
    let mut name = [b'v'; 9];
    let mut left = number;
    for letter in &mut name {
        *letter = b'a' + (left % 16) as u8;
        left /= 16;
    }
    let address = Address::new(22, &[7; 20]);
    let contract = ContractName::make(b"main");
    Some(Place {
        contract: Principal { address, contract },
        name: Name::make(&name)?,
    })
}

fn set(world: &mut World, number: u32, value: u32) -> Result<(), Fail> {
    let at = variable(number).ok_or("a name")?;
    let kind = Kind::Int(i128::from(value));
    let value = Val::make(Value { kind })?;
    world.put_variable(&at, value)?;
    Ok(())
}

fn holds(world: &World, number: u32, wanted: u32) -> Result<bool, Fail> {
    let at = variable(number).ok_or("a name")?;
    let Some(value) = world.variable(&at)? else {
        return Ok(false);
    };
    match &value.value().kind {
        Kind::Int(value) => Ok(*value == i128::from(wanted)),
        _ => Ok(false),
    }
}

fn commit(world: &mut World) -> Result<(), Fail> {
    if world.layers() == 1 {
        world.commit()?;
    }
    Ok(())
}

fn put_all(world: &mut World) -> Result<(), Fail> {
    world.push_layer()?;
    for number in 0..VARIABLES {
        set(world, number, number)?;
    }
    commit(world)
}

// Each layer sets the variable of its number.
fn pile_up(world: &mut World) -> Result<(), Fail> {
    for layer in 0..LAYERS {
        world.reserve_layer()?;
        world.push_layer()?;
        set(world, layer, VARIABLES + layer)?;
    }
    Ok(())
}

// Leaves the changes of the first two layers, on the base.
fn keep_two(world: &mut World) -> Result<(), Fail> {
    for _ in 2..LAYERS {
        if world.layers() > 2 {
            world.drop_layer();
        }
    }
    if world.layers() == 2 {
        world.keep_layer()?;
    }
    commit(world)
}

/// Whether the variables are right after 256 layers, of which two stay.
pub fn layers_stay_small(world: &mut World) -> Result<bool, Fail> {
    put_all(world)?;
    pile_up(world)?;
    keep_two(world)?;
    let mut right = world.layers() == 0;
    for number in 0..VARIABLES {
        let wanted = if number < 2 {
            VARIABLES + number
        } else {
            number
        };
        right = right && holds(world, number, wanted)?;
    }
    Ok(right)
}
