//! Copies of the ledgers of tokens, which stay as they are when the tokens change.
ghost use Rattle.std.specs.Prelude.{IfOk};
ghost use Rattle.cl_tokens.specs.Table.{HasRoom};

use cl_tokens::{Fungible, Key, NonFungible};
use std::alloc::Global;
use std::test::Fail;

fn key(alloc: Global, bytes: &[u8]) -> Result<Key, Fail> {
    Ok(Key::new(bytes.to_vec(alloc)?))
}

// A token of which a holder has 30.
fn coin(alloc: Global, holder: &Key) -> Result<Fungible, Fail>
    ensures { IfOk result (λ coin. HasRoom coin.room holder.now) }
{
    let mut coin = Fungible::new(alloc, Some(100));
    coin.reserve(holder.copy()?)?;
    coin.mint(30, holder).ok().ok_or("a mint")?;
    Ok(coin)
}

fn copies_balances(alloc: Global) -> Result<bool, Fail> {
    let holder = key(alloc, &[7])?;
    let mut coin = coin(alloc, &holder)?;
    let copy = coin.copy()?;
    let is_burnt = coin.burn(30, &holder).is_ok();
    Ok(is_burnt && coin.supply() == 0 && copy.balance(&holder) == 30 && copy.supply() == 30)
}

// The copy has the cap of 100.
fn copies_a_cap(alloc: Global) -> Result<bool, Fail> {
    let holder = key(alloc, &[7])?;
    let mut copy = coin(alloc, &holder)?.copy()?;
    let is_refused = copy.mint(71, &holder).is_err();
    Ok(is_refused && copy.mint(70, &holder).is_ok() && copy.supply() == 100)
}

fn is_owned_by(badge: &NonFungible, asset: &Key, owner: &Key) -> bool {
    match badge.owner(asset) {
        Some(found) => found.bytes() == owner.bytes(),
        None => false,
    }
}

fn copies_owners(alloc: Global) -> Result<bool, Fail> {
    let asset = key(alloc, &[1, 2])?;
    let owner = key(alloc, &[7])?;
    let mut badge = NonFungible::new(alloc);
    badge.reserve(asset.copy()?)?;
    badge.mint(&asset, owner.copy()?).ok().ok_or("a mint")?;
    let copy = badge.copy()?;
    let is_burnt = badge.burn(&asset, &owner).is_ok();
    Ok(is_burnt && badge.owner(&asset).is_none() && is_owned_by(&copy, &asset, &owner))
}

#[test]
fn copies_of_ledgers(rt: HostRuntime) -> Result<(), Fail> {
    assert!(rt; copies_balances(rt.alloc())?);
    assert!(rt; copies_a_cap(rt.alloc())?);
    assert!(rt; copies_owners(rt.alloc())?);
    Ok(())
}
