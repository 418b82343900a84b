//! The acts on ledgers that events tell of.
ghost use Rattle.std.specs.Prelude.{◌≡◌, IfOk, IsSome, Some, Ok};
ghost use Rattle.cl_values.specs.Wire.{wire};
ghost use Rattle.cl_events.specs.State.{holder};
ghost use Rattle.cl_tokens.specs.declared.act.Act.{Act};
ghost use Rattle.cl_tokens.specs.declared.act.Act.TheVariants.{Mint, Transfer, Burn};
ghost use Rattle.cl_tokens.specs.declared.act.AssetAct.TheVariants as asset;
ghost use Rattle.cl_tables.specs.declared.deed.Deed.TheVariants.{OnStx, OnFungible, OnAsset};
ghost use Rattle.cl_events.specs.declared.event.Asset.TheVariants.{Nft};
ghost use Rattle.cl_tables.specs.Deeds.{place_of, deed, is_empty_burn, move_in, IsSoundDeed};
ghost use Rattle.cl_values.specs.Valid.{IsPrincipal, IsVal};

use crate::keys::{holder_key, wire_key};
use crate::place::Place;
use cl_c32::Principal;
use cl_events::{Asset, EventKind, Move};
use cl_tokens::{Act, AssetAct, Key};
use cl_types::{Name, NoMemory};
use cl_values::Val;
use std::alloc::Global;

/// An act on the ledger of STX, of a fungible token, or on an asset of a non-fungible one.
#[derive(Drop)]
pub enum Deed {
    OnStx(Act),
    OnFungible(Place, Act),
    OnAsset(Place, Key, AssetAct),
}

fn ft_mint(alloc: Global, at: Place, amount: u128, to: &Principal) -> Result<Deed, NoMemory>
    ensures made { IfOk result (λ d. d ≡ OnFungible at (Mint amount (holder to.now))) }
    ensures ranges { IfOk result (λ _. IsPrincipal to.now) }
{
    let to = holder_key(alloc, to)?;
    Ok(Deed::OnFungible(at, Act::Mint { amount, to }))
}

fn transfer(alloc: Global, amount: u128, from: &Principal, to: &Principal) -> Result<Act, NoMemory>
    ensures made { IfOk result (λ act. act ≡ Transfer amount (holder from.now) (holder to.now)) }
    ensures from { IfOk result (λ _. IsPrincipal from.now) }
    ensures to { IfOk result (λ _. IsPrincipal to.now) }
{
    let from = holder_key(alloc, from)?;
    let to = holder_key(alloc, to)?;
    Ok(Act::Transfer { amount, from, to })
}

fn burn(alloc: Global, amount: u128, from: &Principal) -> Result<Act, NoMemory>
    ensures made { IfOk result (λ act. act ≡ Burn amount (holder from.now)) }
    ensures ranges { IfOk result (λ _. IsPrincipal from.now) }
{
    let from = holder_key(alloc, from)?;
    Ok(Act::Burn { amount, from })
}

fn on_fungible(at: Place, act: Result<Act, NoMemory>) -> Result<Deed, NoMemory>
    ensures { IfOk result (λ d. (a : Act) × (act ≡ Ok a) × (d ≡ OnFungible at a)) }
{
    match act {
        Ok(act) => Ok(Deed::OnFungible(at, act)),
        Err(none) => Err(none),
    }
}

fn on_stx(act: Result<Act, NoMemory>) -> Result<Deed, NoMemory>
    ensures { IfOk result (λ d. (a : Act) × (act ≡ Ok a) × (d ≡ OnStx a)) }
{
    match act {
        Ok(act) => Ok(Deed::OnStx(act)),
        Err(none) => Err(none),
    }
}

fn nft_mint(alloc: Global, at: Place, id: &Val, to: &Principal) -> Result<Deed, NoMemory>
    ensures made { IfOk result (λ d. d ≡ OnAsset at (wire id.now) (asset.Mint (holder to.now))) }
    ensures asset { IfOk result (λ _. IsVal id.now) }
    ensures ranges { IfOk result (λ _. IsPrincipal to.now) }
{
    let id = wire_key(alloc, id)?;
    let to = holder_key(alloc, to)?;
    Ok(Deed::OnAsset(at, id, AssetAct::Mint { to }))
}

fn nft_transfer(
    alloc: Global,
    at: Place,
    id: &Val,
    from: &Principal,
    to: &Principal,
) -> Result<Deed, NoMemory>
    ensures made { IfOk result (λ d. d ≡ OnAsset at (wire id.now) (asset.Transfer (holder from.now) (holder to.now))) }
    ensures asset { IfOk result (λ _. IsVal id.now) }
    ensures ranges { IfOk result (λ _. IsPrincipal to.now) }
{
    let id = wire_key(alloc, id)?;
    let from = holder_key(alloc, from)?;
    let to = holder_key(alloc, to)?;
    Ok(Deed::OnAsset(at, id, AssetAct::Transfer { from, to }))
}

fn nft_burn(alloc: Global, at: Place, id: &Val, from: &Principal) -> Result<Deed, NoMemory>
    ensures made { IfOk result (λ d. d ≡ OnAsset at (wire id.now) (asset.Burn (holder from.now))) }
    ensures asset { IfOk result (λ _. IsVal id.now) }
{
    let id = wire_key(alloc, id)?;
    let from = holder_key(alloc, from)?;
    Ok(Deed::OnAsset(at, id, AssetAct::Burn { from }))
}

pub(crate) fn place_of(contract: &Principal, token: &Name) -> Place
    ensures { result ≡ place_of contract.now token.now }
{
    Place {
        contract: *contract,
        name: *token,
    }
}

/// The act that an event tells of.
pub fn deed_of(alloc: Global, contract: &Principal, kind: &EventKind) -> Result<Deed, NoMemory>
    requires { IsSome (deed contract.now kind.now) }
    ensures made { IfOk result (λ d. deed contract.now kind.now ≡ Some d) }
    ensures sound { IfOk result (λ d. IsSoundDeed d) }
{
    match kind {
        EventKind::Print(_) => unreachable!(),
        EventKind::FtMint { token, amount, to } => {
            ft_mint(alloc, place_of(contract, token), *amount, to)
        }
        EventKind::FtTransfer {
            token,
            amount,
            from,
            to,
        } => on_fungible(
            place_of(contract, token),
            transfer(alloc, *amount, from, to),
        ),
        EventKind::FtBurn {
            token,
            amount,
            from,
        } => on_fungible(place_of(contract, token), burn(alloc, *amount, from)),
        EventKind::NftMint { token, id, to } => {
            nft_mint(alloc, place_of(contract, token), id, to)
        }
        EventKind::NftTransfer {
            token,
            id,
            from,
            to,
        } => nft_transfer(alloc, place_of(contract, token), id, from, to),
        EventKind::NftBurn { token, id, from } => {
            nft_burn(alloc, place_of(contract, token), id, from)
        }
        EventKind::StxTransfer { amount, from, to } => {
            on_stx(transfer(alloc, *amount, from, to))
        }
        EventKind::StxBurn { amount, from } => on_stx(burn(alloc, *amount, from)),
    }
}

/// Whether this is a burn of no STX.
pub fn is_empty_burn(kind: &EventKind) -> bool
    ensures { result ≡ is_empty_burn kind.now }
{
    match kind {
        EventKind::StxBurn { amount, from: _ } => *amount == 0,
        _ => false,
    }
}

fn moved(from: &Principal, asset: Asset, amount: u128) -> Option<Move>
    ensures { result ≡ Some (record { from = from.now; asset = asset; amount = amount }) }
{
    Some(Move {
        from: *from,
        asset,
        amount,
    })
}

fn nft_moved(
    alloc: Global,
    contract: &Principal,
    token: &Name,
    id: &Val,
    from: &Principal,
) -> Result<Option<Move>, NoMemory>
    ensures { IfOk result (λ m. m ≡ Some (record { from = from.now; asset = Nft contract.now token.now id.now; amount = 1 })) }
{
    let id = id.copy(alloc)?;
    Ok(moved(from, Asset::Nft(*contract, *token, id), 1))
}

/// What an event moves.
pub fn move_in(
    alloc: Global,
    contract: &Principal,
    kind: &EventKind,
) -> Result<Option<Move>, NoMemory>
    ensures { IfOk result (λ m. m ≡ move_in contract.now kind.now) }
{
    match kind {
        EventKind::FtTransfer {
            token,
            amount,
            from,
            to: _,
        }
        | EventKind::FtBurn {
            token,
            amount,
            from,
        } => Ok(moved(from, Asset::Ft(*contract, *token), *amount)),
        EventKind::NftTransfer {
            token,
            id,
            from,
            to: _,
        }
        | EventKind::NftBurn { token, id, from } => nft_moved(alloc, contract, token, id, from),
        EventKind::StxTransfer {
            amount,
            from,
            to: _,
        }
        | EventKind::StxBurn { amount, from } => Ok(moved(from, Asset::Stx, *amount)),
        EventKind::Print(_) | EventKind::FtMint { .. } | EventKind::NftMint { .. } => Ok(None),
    }
}
