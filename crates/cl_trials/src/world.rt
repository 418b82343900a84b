//! The world of a node with holders of STX of whom one is there twice, which no transaction file gives.
ghost use Rattle.std.specs.Prelude.{◌≡◌, true};
ghost use Rattle.cl_events.specs.State.{State};
ghost use Rattle.cl_tables.specs.Deeds.{is_there};

use crate::layers::layers_stay_small;
use cl_c32::{Address, ContractName, Principal};
use cl_events::EventKind;
use cl_lines::state_lines;
use cl_state::{TokenAct, World, acts_have_answers};
use cl_tokens::TokenRefusal;
use cl_types::Fault;
use std::alloc::Global;
use std::test::Fail;

// a contract that is paid
pub(crate) fn payee() -> Option<Principal> {
    let address = Address::new(22, &[7; 20]);
    let contract = ContractName::make(b"main")?;
    Some(Principal {
        address,
        contract: Some(contract),
    })
}

// a holder who pays it
pub(crate) fn payer() -> Principal {
    let address = Address::new(22, &[1; 20]);
    let contract = None;
    Principal { address, contract }
}

// A world with holders, of whom one is there twice.
pub(crate) fn genesis(alloc: Global) -> Result<World, Fail> {
    let mut holders = Vec::new(alloc);
    for (version, amount) in [(22, 1_000), (26, 0), (26, u128::MAX - 1_000)] {
        let address = Address::new(version, &[1; 20]);
        let contract = None;
        holders.push((Principal { address, contract }, amount))?;
    }
    Ok(World::genesis(holders)?)
}

fn has_told_nothing(world: &World) -> bool {
    world.layers() == 0 && world.events().is_empty() && world.moves().is_empty()
}

pub(crate) fn stx_sent(amount: u128, from: &Principal, to: &Principal) -> TokenAct
    ensures { (s : State) → is_there result.contract result.kind s ≡ true }
{
    TokenAct {
        contract: *to,
        kind: EventKind::StxTransfer {
            amount,
            from: *from,
            to: *to,
        },
    }
}

// Pays 300 of the 1,000 that a holder has, in a layer that has room, and then one more than are left.
fn pays(world: &mut World, payee: &Principal) -> Result<bool, Fail> {
    let payer = payer();
    world.reserve_layer()?;
    world.push_layer()?;
    acts_have_answers();
    let paid = world.token(stx_sent(300, &payer, payee));
    let refused = world.token(stx_sent(701, &payer, payee));
    let is_refused = matches!(refused, Err(Fault::Refused(TokenRefusal::Code(1))));
    Ok(paid.is_ok() && is_refused && world.events().len() == 1 && world.moves().len() == 1)
}

// The lines of a state that nothing is kept in but the STX of two holders.
const STATE: &str = "\
stx 'SPG2081040G2081040G2081040G208107P280EP u1000
stx 'STG2081040G2081040G2081040G2081066TB8XK u340282366920938463463374607431768210455
";

fn prints_its_lines(alloc: Global, world: &World) -> Result<bool, Fail> {
    let text = state_lines(alloc, world)?;
    Ok(text.as_slice() == STATE.as_bytes())
}

// what is tried on a world
#[derive(Clone, Copy)]
enum Trial {
    Genesis,
    Pays,
    Lines,
    Layers,
}

fn goes_well(alloc: Global, world: &mut World, trial: Trial) -> Result<bool, Fail> {
    match trial {
        Trial::Genesis => Ok(has_told_nothing(world)),
        Trial::Pays => {
            let payee = payee().ok_or("a contract")?;
            pays(world, &payee)
        }
        Trial::Lines => prints_its_lines(alloc, world),
        Trial::Layers => layers_stay_small(world),
    }
}

// No other function owns a world, since letting go of one is dear to prove.
fn goes_well_at_first(alloc: Global, trial: Trial) -> Result<bool, Fail> {
    let mut world = genesis(alloc)?;
    goes_well(alloc, &mut world, trial)
}

#[test]
fn genesis_has_told_nothing(rt: HostRuntime) -> Result<(), Fail> {
    assert!(rt; goes_well_at_first(rt.alloc(), Trial::Genesis)?);
    Ok(())
}

#[test]
fn stx_is_paid(rt: HostRuntime) -> Result<(), Fail> {
    assert!(rt; goes_well_at_first(rt.alloc(), Trial::Pays)?);
    Ok(())
}

#[test]
fn holders_are_printed(rt: HostRuntime) -> Result<(), Fail> {
    assert!(rt; goes_well_at_first(rt.alloc(), Trial::Lines)?);
    Ok(())
}

#[test]
fn many_layers_are_small(rt: HostRuntime) -> Result<(), Fail> {
    assert!(rt; goes_well_at_first(rt.alloc(), Trial::Layers)?);
    Ok(())
}
