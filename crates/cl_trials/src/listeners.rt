//! Three listeners, each in a box, of which the second fails at its third event: it hears no more, and the others hear all.
use cl_c32::{Address, Principal};
use cl_events::{Event, EventKind};
use cl_listeners::{Listener, Listeners, Numbered, Recorder, dispatch};
use std::alloc::Global;
use std::test::Fail;

fn burner() -> Principal {
    Principal {
        address: Address::new(22, &[7; 20]),
        contract: None,
    }
}

fn burnt(amount: u128) -> Event {
    Event {
        contract: burner(),
        kind: EventKind::StxBurn {
            amount,
            from: burner(),
        },
    }
}

fn amount_of(event: &Event) -> u128 {
    match event.kind {
        EventKind::StxBurn { amount, .. } => amount,
        _ => 0,
    }
}

// Whether these are the listeners, by their numbers, and each heard burns of 1 to so many.
fn are<L: Listener>(all: &[Numbered<L>], wanted: &[(u32, u128)]) -> bool {
    if all.len() != wanted.len() {
        return false;
    }
    for i in 0..all.len() {
        let Some(events) = all[i].listener.told() else {
            return false;
        };
        let (number, most) = wanted[i];
        if all[i].number != number || events.len() as u128 != most {
            return false;
        }
        for at in 0..events.len() {
            if amount_of(&events[at]) != at as u128 + 1 {
                return false;
            }
        }
    }
    true
}

// A recorder of which these calls fail.
fn recorder(alloc: Global, fails: &[u32]) -> Result<Recorder, Fail> {
    Ok(Recorder::new(alloc, Vec::from_slice(alloc, fails)?))
}

// Three listeners with the numbers 1 to 3.
fn three<L: Listener>(alloc: Global, first: L, second: L, third: L) -> Result<Listeners<L>, Fail> {
    let mut active = Vec::new(alloc);
    active.push(Numbered {
        number: 1,
        listener: first,
    })?;
    active.push(Numbered {
        number: 2,
        listener: second,
    })?;
    active.push(Numbered {
        number: 3,
        listener: third,
    })?;
    Ok(Listeners::new(alloc, active)?)
}

// Whether the second of three went deaf at its third event, and the others heard all.
fn second_goes_deaf<L: Listener>(
    alloc: Global,
    first: L,
    second: L,
    third: L,
) -> Result<bool, Fail> {
    let mut listeners = three(alloc, first, second, third)?;
    dispatch(&mut listeners, &[burnt(1)]);
    dispatch(&mut listeners, &[burnt(2), burnt(3)]);
    dispatch(&mut listeners, &[burnt(4)]);
    Ok(are(listeners.active(), &[(1, 4), (3, 4)]) && are(listeners.deaf(), &[(2, 2)]))
}

#[test]
fn one_of_three_goes_deaf(rt: HostRuntime) -> Result<(), Fail> {
    let alloc = rt.alloc();
    let first: Box<dyn Listener> = Box::new(alloc, recorder(alloc, &[])?)?;
    let second: Box<dyn Listener> = Box::new(alloc, recorder(alloc, &[3])?)?;
    let third: Box<dyn Listener> = Box::new(alloc, recorder(alloc, &[])?)?;
    assert!(rt; second_goes_deaf(alloc, first, second, third)?);
    Ok(())
}
