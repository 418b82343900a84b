//! Copies of what was told and moved.
ghost use Rattle.std.specs.Prelude.{◌≡◌, IfOk};

use cl_events::{Asset, Event, Move};
use cl_types::NoMemory;
use std::alloc::Global;

pub(crate) fn copy_events(alloc: Global, events: &[Event]) -> Result<Vec<Event>, NoMemory>
    ensures { IfOk result (λ copies. copies.items ≡ events.now) }
{
    let mut copies = Vec::new(alloc);
    for event in events {
        copies.push(event.copy(alloc)?)?;
    }
    Ok(copies)
}

fn copy_asset(alloc: Global, asset: &Asset) -> Result<Asset, NoMemory>
    ensures { IfOk result (λ copy. copy ≡ asset.now) }
{
    match asset {
        Asset::Stx => Ok(Asset::Stx),
        Asset::Ft(contract, token) => Ok(Asset::Ft(*contract, *token)),
        Asset::Nft(contract, token, id) => Ok(Asset::Nft(*contract, *token, id.copy(alloc)?)),
    }
}

fn copy_move(alloc: Global, moved: &Move) -> Result<Move, NoMemory>
    ensures { IfOk result (λ copy. copy ≡ moved.now) }
{
    let asset = copy_asset(alloc, &moved.asset)?;
    Ok(Move {
        from: moved.from,
        asset,
        amount: moved.amount,
    })
}

pub(crate) fn copy_moves(alloc: Global, moves: &[Move]) -> Result<Vec<Move>, NoMemory>
    ensures { IfOk result (λ copies. copies.items ≡ moves.now) }
{
    let mut copies = Vec::new(alloc);
    for moved in moves {
        copies.push(copy_move(alloc, moved)?)?;
    }
    Ok(copies)
}
