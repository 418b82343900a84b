//! Copies of a world, and what is grafted from one world to another.
use crate::world::{genesis, payee, payer, stx_sent};
use cl_c32::Principal;
use cl_events::Asset;
use cl_state::{Spot, World, acts_have_answers};
use cl_tables::Place;
use cl_types::Name;
use cl_values::{Kind, Val, Value};
use std::alloc::Global;
use std::test::Fail;

const STARTS: i128 = 1;

const ENDS: i128 = 2;

fn number(number: i128) -> Result<Val, Fail> {
    let kind = Kind::Int(number);
    Ok(Val::make(Value { kind })?)
}

fn is_number(found: &Option<Val>, wanted: i128) -> bool {
    match found {
        Some(value) => match &value.value().kind {
            Kind::Int(number) => *number == wanted,
            _ => false,
        },
        None => false,
    }
}

// a variable, a map and a token may have one name
fn place(contract: &Principal, name: &[u8]) -> Result<Place, Fail> {
    let name = Name::make(name).ok_or("a name")?;
    Ok(Place {
        contract: *contract,
        name,
    })
}

// puts a number into a variable, and under itself into a map
fn put(world: &mut World, at: &Place, value: i128) -> Result<(), Fail> {
    world.put_variable(at, number(value)?)?;
    world.put_entry(at, &number(value)?, number(value)?)?;
    Ok(())
}

// defines a token that is copied with the world
fn define(world: &mut World, token: &Place) -> Result<(), Fail> {
    if !world.has_nft(token) {
        world.define_nft(token)?;
    }
    Ok(())
}

// defines a token, and pays a contract 300 STX
fn define_and_pay(world: &mut World, at: &Place) -> Result<(), Fail> {
    if !world.has_ft(at) {
        world.define_ft(at, Some(7))?;
    }
    acts_have_answers();
    match world.token(stx_sent(300, &payer(), &at.contract)) {
        Ok(()) => Ok(()),
        Err(_) => Err(Fail::new("a payment")),
    }
}

// how many events the layer had that became the base
fn told(world: &mut World) -> Result<usize, Fail> {
    if world.layers() != 1 {
        return Err(Fail::new("one layer"));
    }
    let events = world.commit_events()?;
    Ok(events.len())
}

fn starts(world: &mut World, at: &Place, token: &Place) -> Result<bool, Fail> {
    world.push_layer()?;
    put(world, at, STARTS)?;
    define(world, token)?;
    Ok(told(world)? == 0)
}

fn ends(world: &mut World, at: &Place) -> Result<bool, Fail> {
    world.push_layer()?;
    put(world, at, ENDS)?;
    define_and_pay(world, at)?;
    Ok(told(world)? == 1)
}

fn graft(world: &mut World, from: &World, spot: Spot) -> Result<(), Fail> {
    if world.layers() != 0 || from.layers() != 0 {
        return Err(Fail::new("no layer"));
    }
    world.graft(from, &[spot])?;
    Ok(())
}

// which of a variable, a map, a token and STX are as `ends` left them
fn ended(world: &World, at: &Place) -> Result<[bool; 4], Fail> {
    let variable = is_number(&world.variable(at)?, ENDS);
    let kept = is_number(&world.entry(at, &number(STARTS)?)?, STARTS);
    let put = is_number(&world.entry(at, &number(ENDS)?)?, ENDS);
    let paid = world.balance(&Asset::Stx, &at.contract)? == 300;
    Ok([variable, kept && put, world.has_ft(at), paid])
}

fn grafts(world: &mut World, from: &World, at: &Place) -> Result<bool, Fail> {
    let first = ended(world, at)? == [false, false, false, false];
    graft(world, from, Spot::Variable(*at))?;
    let second = ended(world, at)? == [true, false, false, false];
    graft(world, from, Spot::MapOf(*at))?;
    let third = ended(world, at)? == [true, true, false, false];
    graft(world, from, Spot::Token(*at))?;
    let fourth = ended(world, at)? == [true, true, true, false];
    graft(world, from, Spot::Stx)?;
    let fifth = ended(world, at)? == [true, true, true, true];
    Ok(first && second && third && fourth && fifth)
}

fn copy(world: &World) -> Result<World, Fail> {
    if world.layers() != 0 {
        return Err(Fail::new("no layer"));
    }
    Ok(world.copy()?)
}

// a world that is copied, the copy changed, and each change grafted onto the world
fn goes_well(alloc: Global) -> Result<bool, Fail> {
    let contract = payee().ok_or("a contract")?;
    let at = place(&contract, b"x")?;
    let token = place(&contract, b"y")?;
    let mut world = genesis(alloc)?;
    if !starts(&mut world, &at, &token)? {
        return Ok(false);
    }
    let mut from = copy(&world)?;
    let copied = from.has_nft(&token);
    let grafted = ends(&mut from, &at)? && grafts(&mut world, &from, &at)?;
    Ok(copied && grafted && world.has_nft(&token))
}

#[test]
fn changes_of_a_copy_are_grafted(rt: HostRuntime) -> Result<(), Fail> {
    assert!(rt; goes_well(rt.alloc())?);
    Ok(())
}
