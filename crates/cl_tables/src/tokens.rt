//! Tokens by place, in the order in which they were defined.
ghost use Rattle.std.specs.Prelude.{◌≡◌, ◌<◌, ◌++◌, ◌∷◌, [], Ok, OnOk, OnErr, IfOk, length, option_copied};
ghost use Rattle.cl_tokens.specs.Table.{HasRoom};
ghost use Rattle.cl_tokens.specs.Deeds.{done, undone, HasGiver};
ghost use Rattle.cl_tokens.specs.AssetDeeds.{done as asset_done};
ghost use Rattle.cl_maps.specs.Maps.{get, with_value};
ghost use Rattle.indexmap.specs.Layout.{set_value_at};
ghost use Rattle.cl_tables.specs.declared.place.Place.{Place};
ghost use Rattle.cl_tables.specs.Variables.{IsPlace, key_of};
ghost use Rattle.cl_tables.specs.Numbered.{by_place, value_at, IsNumbered, IsNowhere, ArePlaced, ledgers_of, owners_of, no_ledger, no_owners};
ghost use Rattle.cl_tables.specs.Notes.{IsRefusedBy, Keeps};

use crate::place::Place;
use cl_keyed::HashKey;
use cl_tokens::{Act, AssetAct, Fungible, Key, NonFungible, TokenRefusal};
use cl_types::{Fault, NoMemory};
use indexmap::IndexMap;

/// From the first number to before the end: of tokens on which there were acts since the last commit.
#[derive(Clone, Copy)]
pub(crate) struct Touched {
    first: usize,
    end: usize,
}

impl Touched {
    pub(crate) fn none() -> Touched {
        Touched {
            first: usize::MAX,
            end: 0,
        }
    }

    pub(crate) fn with(self, number: usize) -> Touched {
        Touched {
            first: self.first.min(number),
            end: self.end.max(number.saturating_add(1)),
        }
    }
}

/// A law of each place: it is valid.
pub(crate) fn is_valid(at: &Place)
    ensures { IsPlace at.now }
{
    let _version = at.contract.address.version;
    if let Some(name) = &at.contract.contract {
        let _bytes = name.bytes();
    }
    let _name = at.name.bytes();
}

/// The number of the token that has a place.
pub(crate) fn number_of<L>(tokens: &IndexMap<Place, L, HashKey>, at: &Place) -> Option<usize>
    requires { ArePlaced tokens.now.entries }
    ensures { IsNumbered (key_of at.now) tokens.now.entries result }
{
    is_valid(at);
    tokens.get_index_of(at)
}

/// The token that has a place.
pub(crate) fn token_at<'a, L>(tokens: &'a IndexMap<Place, L, HashKey>, at: &Place) -> Option<&'a L>
    requires { ArePlaced tokens.now.entries }
    ensures { option_copied result ≡ get (key_of at.now) (by_place tokens.now.entries) }
{
    is_valid(at);
    tokens.get(at)
}

/// Puts a token behind the others.
pub(crate) fn define<L: Drop>(
    tokens: &mut IndexMap<Place, L, HashKey>,
    at: &Place,
    token: L,
) -> Result<(), NoMemory>
    requires placed { ArePlaced tokens.old.entries }
    requires new { IsNowhere (key_of at.now) tokens.old.entries }
    ensures done { OnOk result (tokens.new.entries ≡ tokens.old.entries ++ (at.now, token) ∷ []) }
    ensures valid { OnOk result (IsPlace at.now) }
    ensures refused { OnErr result (tokens.new.entries ≡ tokens.old.entries) }
{
    is_valid(at);
    tokens.insert(*at, token)?;
    Ok(())
}

/// Takes the last token away.
pub(crate) fn undefine<L: Drop>(tokens: &mut IndexMap<Place, L, HashKey>)
    requires { 0 < length tokens.old.entries }
    ensures { (e : Place × L) × (tokens.old.entries ≡ tokens.new.entries ++ e ∷ []) }
{
    let Some(_last) = tokens.pop() else {
        unreachable!();
    };
}

/// Does an act on a ledger.
pub(crate) fn perform(ledger: &mut Fungible, act: &Act) -> Result<(), Fault<TokenRefusal>>
    ensures done { OnOk result (done act.now ledger.old.ledger ≡ Ok ledger.new.ledger) }
    ensures refused { IsRefusedBy (done act.now ledger.old.ledger) result }
    ensures unchanged { OnErr result (ledger.new.ledger ≡ ledger.old.ledger) }
    ensures back { OnOk result (undone act.now ledger.new.ledger ≡ ledger.old.ledger) }
    ensures giver { OnOk result (HasGiver ledger.new.room act.now) }
    ensures keeps { Keeps ledger.old.room ledger.new.room }
{
    ledger.make_ready(act)?;
    match ledger.perform(act) {
        Ok(()) => Ok(()),
        Err(refusal) => Err(Fault::Refused(refusal)),
    }
}

/// Does an act on the ledger of this number.
pub(crate) fn perform_at(
    tokens: &mut IndexMap<Place, Fungible, HashKey>,
    number: usize,
    act: &Act,
) -> Result<(), Fault<TokenRefusal>>
    requires { number < length tokens.old.entries }
    ensures done { OnOk result (done act.now (value_at no_ledger tokens.old.entries number).ledger ≡ Ok (value_at no_ledger tokens.new.entries number).ledger) }
    ensures refused { IsRefusedBy (done act.now (value_at no_ledger tokens.old.entries number).ledger) result }
    ensures unchanged { OnErr result ((value_at no_ledger tokens.new.entries number).ledger ≡ (value_at no_ledger tokens.old.entries number).ledger) }
    ensures back { OnOk result (undone act.now (value_at no_ledger tokens.new.entries number).ledger ≡ (value_at no_ledger tokens.old.entries number).ledger) }
    ensures giver { OnOk result (HasGiver (value_at no_ledger tokens.new.entries number).room act.now) }
    ensures keeps { Keeps (value_at no_ledger tokens.old.entries number).room (value_at no_ledger tokens.new.entries number).room }
    ensures others { tokens.new.entries ≡ set_value_at tokens.old.entries number (value_at no_ledger tokens.new.entries number) }
{
    let Some(ledger) = tokens.get_index_mut(number) else {
        unreachable!();
    };
    perform(ledger, act)
}

/// Takes an act on the ledger of this number back.
pub(crate) fn undo_at(tokens: &mut IndexMap<Place, Fungible, HashKey>, number: usize, act: &Act)
    requires within { number < length tokens.old.entries }
    requires ready { HasGiver (value_at no_ledger tokens.old.entries number).room act.now }
    ensures ledger { (value_at no_ledger tokens.new.entries number).ledger ≡ undone act.now (value_at no_ledger tokens.old.entries number).ledger }
    ensures room { (value_at no_ledger tokens.new.entries number).room ≡ (value_at no_ledger tokens.old.entries number).room }
    ensures others { tokens.new.entries ≡ set_value_at tokens.old.entries number (value_at no_ledger tokens.new.entries number) }
{
    let Some(ledger) = tokens.get_index_mut(number) else {
        unreachable!();
    };
    ledger.undo(act);
}

/// Does an act on an asset, and gives who owned it before.
fn transfer(
    owners: &mut NonFungible,
    asset: &Key,
    act: AssetAct,
) -> Result<Option<Key>, Fault<TokenRefusal>>
    ensures done { OnOk result (asset_done asset.now act owners.old.owners ≡ Ok owners.new.owners) }
    ensures refused { IsRefusedBy (asset_done asset.now act owners.old.owners) result }
    ensures unchanged { OnErr result (owners.new.owners ≡ owners.old.owners) }
    ensures back { IfOk result (λ owner. with_value asset.now owner owners.new.owners ≡ owners.old.owners) }
    ensures ready { OnOk result (HasRoom owners.new.room asset.now) }
    ensures keeps { Keeps owners.old.room owners.new.room }
{
    owners.make_ready(asset)?;
    match owners.perform(asset, act) {
        Ok(owner) => Ok(owner),
        Err(refusal) => Err(Fault::Refused(refusal)),
    }
}

/// Does an act on an asset of the token of this number, and gives who owned it before.
pub(crate) fn transfer_at(
    tokens: &mut IndexMap<Place, NonFungible, HashKey>,
    number: usize,
    asset: &Key,
    act: AssetAct,
) -> Result<Option<Key>, Fault<TokenRefusal>>
    requires { number < length tokens.old.entries }
    ensures done { OnOk result (asset_done asset.now act (value_at no_owners tokens.old.entries number).owners ≡ Ok (value_at no_owners tokens.new.entries number).owners) }
    ensures refused { IsRefusedBy (asset_done asset.now act (value_at no_owners tokens.old.entries number).owners) result }
    ensures unchanged { OnErr result ((value_at no_owners tokens.new.entries number).owners ≡ (value_at no_owners tokens.old.entries number).owners) }
    ensures back { IfOk result (λ owner. with_value asset.now owner (value_at no_owners tokens.new.entries number).owners ≡ (value_at no_owners tokens.old.entries number).owners) }
    ensures ready { OnOk result (HasRoom (value_at no_owners tokens.new.entries number).room asset.now) }
    ensures keeps { Keeps (value_at no_owners tokens.old.entries number).room (value_at no_owners tokens.new.entries number).room }
    ensures others { tokens.new.entries ≡ set_value_at tokens.old.entries number (value_at no_owners tokens.new.entries number) }
{
    let Some(owners) = tokens.get_index_mut(number) else {
        unreachable!();
    };
    transfer(owners, asset, act)
}

/// Gives an asset of the token of this number back to who owned it, or to nobody.
pub(crate) fn restore_at(
    tokens: &mut IndexMap<Place, NonFungible, HashKey>,
    number: usize,
    asset: &Key,
    owner: Option<Key>,
)
    requires within { number < length tokens.old.entries }
    requires ready { HasRoom (value_at no_owners tokens.old.entries number).room asset.now }
    ensures owners { (value_at no_owners tokens.new.entries number).owners ≡ with_value asset.now owner (value_at no_owners tokens.old.entries number).owners }
    ensures room { (value_at no_owners tokens.new.entries number).room ≡ (value_at no_owners tokens.old.entries number).room }
    ensures others { tokens.new.entries ≡ set_value_at tokens.old.entries number (value_at no_owners tokens.new.entries number) }
{
    let Some(owners) = tokens.get_index_mut(number) else {
        unreachable!();
    };
    owners.restore(asset, owner);
}

fn tidy_ledger(tokens: &mut IndexMap<Place, Fungible, HashKey>, number: usize)
    ensures { ledgers_of tokens.new.entries ≡ ledgers_of tokens.old.entries }
{
    if let Some(ledger) = tokens.get_index_mut(number) {
        ledger.tidy();
    }
}

/// Takes away the slots of those who hold nothing, where these may outnumber the others. Takes no memory.
pub(crate) fn tidy_ledgers(tokens: &mut IndexMap<Place, Fungible, HashKey>, touched: Touched)
    ensures { ledgers_of tokens.new.entries ≡ ledgers_of tokens.old.entries }
{
    let mut number = touched.first;
    while number < touched.end {
        tidy_ledger(tokens, number);
        number += 1;
    }
}

fn tidy_assets(tokens: &mut IndexMap<Place, NonFungible, HashKey>, number: usize)
    ensures { owners_of tokens.new.entries ≡ owners_of tokens.old.entries }
{
    if let Some(owners) = tokens.get_index_mut(number) {
        owners.tidy();
    }
}

/// Takes away the slots of assets that nobody owns, where these may outnumber the others. Takes no memory.
pub(crate) fn tidy_owners(tokens: &mut IndexMap<Place, NonFungible, HashKey>, touched: Touched)
    ensures { owners_of tokens.new.entries ≡ owners_of tokens.old.entries }
{
    let mut number = touched.first;
    while number < touched.end {
        tidy_assets(tokens, number);
        number += 1;
    }
}
