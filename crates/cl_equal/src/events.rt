//! Events.
ghost use Rattle.std.specs.Prelude.{◌≡◌, ◌↔◌, IsTrue};
ghost use Rattle.cl_events.specs.declared.event.EventKind.TheVariants.{Print, FtMint, FtTransfer, FtBurn, NftMint, NftTransfer, NftBurn, StxTransfer, StxBurn};

use crate::parts::Compared;
use cl_c32::Principal;
use cl_events::{Event, EventKind};
use cl_types::Name;
use cl_values::{Val, equal};

fn is_print(event: &EventKind, value: &Val) -> bool
    ensures { IsTrue result ↔ (event.now ≡ Print value.now) }
{
    match event {
        EventKind::Print(other) => equal(other, value),
        _ => false,
    }
}

fn is_ft_mint(event: &EventKind, name: &Name, count: u128, taker: &Principal) -> bool
    ensures { IsTrue result ↔ (event.now ≡ FtMint name.now count taker.now) }
{
    match event {
        EventKind::FtMint { token, amount, to } => {
            token.equals(name) && *amount == count && *to == *taker
        }
        _ => false,
    }
}

fn is_ft_transfer(
    event: &EventKind,
    name: &Name,
    count: u128,
    giver: &Principal,
    taker: &Principal,
) -> bool
    ensures { IsTrue result ↔ (event.now ≡ FtTransfer name.now count giver.now taker.now) }
{
    match event {
        EventKind::FtTransfer {
            token,
            amount,
            from,
            to,
        } => token.equals(name) && *amount == count && *from == *giver && *to == *taker,
        _ => false,
    }
}

fn is_ft_burn(event: &EventKind, name: &Name, count: u128, giver: &Principal) -> bool
    ensures { IsTrue result ↔ (event.now ≡ FtBurn name.now count giver.now) }
{
    match event {
        EventKind::FtBurn {
            token,
            amount,
            from,
        } => token.equals(name) && *amount == count && *from == *giver,
        _ => false,
    }
}

fn is_nft_mint(event: &EventKind, name: &Name, key: &Val, taker: &Principal) -> bool
    ensures { IsTrue result ↔ (event.now ≡ NftMint name.now key.now taker.now) }
{
    match event {
        EventKind::NftMint { token, id, to } => {
            token.equals(name) && equal(id, key) && *to == *taker
        }
        _ => false,
    }
}

fn is_nft_transfer(
    event: &EventKind,
    name: &Name,
    key: &Val,
    giver: &Principal,
    taker: &Principal,
) -> bool
    ensures { IsTrue result ↔ (event.now ≡ NftTransfer name.now key.now giver.now taker.now) }
{
    match event {
        EventKind::NftTransfer {
            token,
            id,
            from,
            to,
        } => token.equals(name) && equal(id, key) && *from == *giver && *to == *taker,
        _ => false,
    }
}

fn is_nft_burn(event: &EventKind, name: &Name, key: &Val, giver: &Principal) -> bool
    ensures { IsTrue result ↔ (event.now ≡ NftBurn name.now key.now giver.now) }
{
    match event {
        EventKind::NftBurn { token, id, from } => {
            token.equals(name) && equal(id, key) && *from == *giver
        }
        _ => false,
    }
}

fn is_stx_transfer(event: &EventKind, count: u128, giver: &Principal, taker: &Principal) -> bool
    ensures { IsTrue result ↔ (event.now ≡ StxTransfer count giver.now taker.now) }
{
    match event {
        EventKind::StxTransfer { amount, from, to } => {
            *amount == count && *from == *giver && *to == *taker
        }
        _ => false,
    }
}

fn is_stx_burn(event: &EventKind, count: u128, giver: &Principal) -> bool
    ensures { IsTrue result ↔ (event.now ≡ StxBurn count giver.now) }
{
    match event {
        EventKind::StxBurn { amount, from } => *amount == count && *from == *giver,
        _ => false,
    }
}

fn equal_kinds(first: &EventKind, second: &EventKind) -> bool
    ensures { IsTrue result ↔ (first.now ≡ second.now) }
{
    match first {
        EventKind::Print(value) => is_print(second, value),
        EventKind::FtMint { token, amount, to } => is_ft_mint(second, token, *amount, to),
        EventKind::FtTransfer {
            token,
            amount,
            from,
            to,
        } => is_ft_transfer(second, token, *amount, from, to),
        EventKind::FtBurn {
            token,
            amount,
            from,
        } => is_ft_burn(second, token, *amount, from),
        EventKind::NftMint { token, id, to } => is_nft_mint(second, token, id, to),
        EventKind::NftTransfer {
            token,
            id,
            from,
            to,
        } => is_nft_transfer(second, token, id, from, to),
        EventKind::NftBurn { token, id, from } => is_nft_burn(second, token, id, from),
        EventKind::StxTransfer { amount, from, to } => is_stx_transfer(second, *amount, from, to),
        EventKind::StxBurn { amount, from } => is_stx_burn(second, *amount, from),
    }
}

impl Compared for Event {
    fn equals(&self, other: &Event) -> bool {
        self.contract == other.contract && equal_kinds(&self.kind, &other.kind)
    }
}
