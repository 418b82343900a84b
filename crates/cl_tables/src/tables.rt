//! What contracts keep, in one table for each kind of thing. A change gives the note by which it is undone.
ghost use Rattle.std.specs.Prelude.{◌≡◌, ℕ, List, None, Ok, false, not, IfOk, OnOk, OnErr, OnSome, IfSome, IsSome, is_some, option_copied};
ghost use Rattle.std.specs.Option.{option_map};
ghost use Rattle.cl_values.specs.Tree.{PrincipalV};
ghost use Rattle.cl_values.specs.Reading.{decoded};
ghost use Rattle.cl_tables.specs.StateRows.{IsRow, AreRows};
ghost use Rattle.cl_tables.specs.RowParts.{Adds};
ghost use Rattle.cl_maps.specs.Maps.{get, put, without};
ghost use Rattle.cl_events.specs.State.{genesis, holder, holdings, or_as_before, place, spot, with_variables, with_entries, with_fungibles, with_nonfungibles};
ghost use Rattle.cl_tokens.specs.Ledger.{minted, no_tokens};
ghost use Rattle.cl_maps.specs.Maps.{empty};
ghost use Rattle.cl_tokens.specs.Table.{HasRoom};
ghost use Rattle.cl_tables.specs.Variables.{key_of};
ghost use Rattle.cl_values.specs.Valid.{IsPrincipal};
ghost use Rattle.cl_tables.specs.Spelled.{IsAsset, AreHeld};
ghost use Rattle.cl_tables.specs.declared.deed.Deed.TheVariants.{OnStx, OnFungible, OnAsset};
ghost use Rattle.cl_tables.specs.Deeds.{deed_done, AreHolders, GivesToHolder, IsSoundDeed};
ghost use Rattle.cl_tables.specs.Amounts.{balance_in, owner_in, one_if, key_amount};
ghost use Rattle.cl_tables.specs.Notes.{state_of, undone, IsReady, Serves, Gives, IsSound, fungibles_in, nonfungibles_in};
ghost use Rattle.cl_tables.specs.Tables.{held_in, rooms_in, Changes, Stays};

use crate::deed::{Deed, place_of};
use crate::held::HeldValue;
use crate::keys::{holder_key, place_key, spot_key, wire_key};
use crate::listing::{add_entries, add_fungibles, add_holdings, add_nonfungibles, add_variables};
use crate::note::Note;
use crate::place::Place;
use crate::reading::principal_of;
use crate::row::StateRow;
use crate::tokens;
use crate::tokens::Touched;
use cl_c32::Principal;
use cl_events::Asset;
use cl_keyed::HashKey;
use cl_tokens::{Act, AssetAct, Fungible, Key, NonFungible, Stored, Table, TokenRefusal};
use cl_types::{Fault, NoMemory};
use cl_values::Val;
use indexmap::IndexMap;
use std::alloc::Global;

/// Variables, map entries, tokens and STX.
pub struct Tables {
    pub(crate) variables: Table<HeldValue>,
    pub(crate) entries: Table<HeldValue>,
    pub(crate) fungibles: IndexMap<Place, Fungible, HashKey>,
    pub(crate) nonfungibles: IndexMap<Place, NonFungible, HashKey>,
    pub(crate) stx: Fungible,
    pub(crate) fungibles_touched: Touched,
    pub(crate) nonfungibles_touched: Touched,
}

impl Drop for Tables {
    fn drop(self) {
        let Tables {
            variables,
            entries,
            fungibles,
            nonfungibles,
            stx,
            fungibles_touched: _,
            nonfungibles_touched: _,
        } = self;
        drop(variables);
        drop(entries);
        drop(fungibles);
        drop(nonfungibles);
        drop(stx);
    }
}

// mints the STX that a holder has from the start, where that is more than 0
fn pay(alloc: Global, stx: &mut Fungible, who: &Principal, amount: u128) -> Result<(), NoMemory>
    ensures paid { OnOk result (stx.new.ledger ≡ or_as_before stx.old.ledger (minted amount (holder who.now) stx.old.ledger)) }
    ensures ranges { OnOk result (IsPrincipal who.now) }
{
    let key = holder_key(alloc, who)?;
    stx.reserve(key.copy()?)?;
    match stx.mint(amount, &key) {
        Ok(()) => {}
        Err(_) => {}
    }
    Ok(())
}

fn paid(
    alloc: Global,
    hash_key: HashKey,
    holders: &[(Principal, u128)],
) -> Result<Fungible, NoMemory>
    ensures paid { IfOk result (λ stx. stx.ledger ≡ holdings holders.now) }
    ensures held { IfOk result (λ stx. AreHeld stx.ledger) }
{
    let mut stx = Fungible::with_hash_key(alloc, hash_key, None);
    let mut i = holders.len();
    while i > 0 {
        i -= 1;
        let holder = &holders[i];
        pay(alloc, &mut stx, &holder.0, holder.1)?;
    }
    Ok(stx)
}

impl Tables {
    /// The first tables of a node, which hash by this key.
    pub fn genesis(
        alloc: Global,
        hash_key: HashKey,
        holders: &[(Principal, u128)],
    ) -> Result<Tables, NoMemory>
        ensures state { IfOk result (λ t. state_of (held_in t) ≡ genesis holders.now) }
        ensures sound { IfOk result (λ t. IsSound (held_in t)) }
    {
        let stx = paid(alloc, hash_key, holders)?;
        Ok(Tables {
            variables: Table::new(alloc, hash_key),
            entries: Table::new(alloc, hash_key),
            fungibles: IndexMap::with_hasher(alloc, hash_key),
            nonfungibles: IndexMap::with_hasher(alloc, hash_key),
            stx,
            fungibles_touched: Touched::none(),
            nonfungibles_touched: Touched::none(),
        })
    }

    /// The key by which the tables hash.
    pub fn hash_key(&self) -> HashKey {
        self.entries.hash_key()
    }

    /// What a variable of this key holds.
    pub fn variable(&self, key: &Key) -> Result<Option<Val>, NoMemory>
        ensures { IfOk result (λ found. found ≡ get key.now (state_of (held_in self.now)).variables) }
    {
        copy_found(self.variables.get(key))
    }

    fn add_rows(&self, alloc: Global, out: &mut Vec<StateRow>) -> Result<(), NoMemory>
        requires { IsSound (held_in self.now) }
        ensures { OnOk result (Adds (IsRow (state_of (held_in self.now))) out.old.items out.new.items) }
    {
        add_variables(out, alloc, &self.variables)?;
        add_entries(out, alloc, &self.entries)?;
        add_fungibles(out, alloc, &self.fungibles)?;
        add_nonfungibles(out, alloc, &self.nonfungibles)?;
        add_holdings(out, alloc, None, &self.stx)
    }

    /// The rows of what is held. Each value is copied once.
    pub fn rows(&self, alloc: Global) -> Result<Vec<StateRow>, NoMemory>
        requires { IsSound (held_in self.now) }
        ensures { IfOk result (λ rows. AreRows rows.items (state_of (held_in self.now))) }
    {
        let mut rows = Vec::new(alloc);
        self.add_rows(alloc, &mut rows)?;
        Ok(rows)
    }

    /// The fungible token at a place.
    pub fn fungible(&self, at: &Place) -> Option<&Fungible>
        requires { IsSound (held_in self.now) }
        ensures { option_map (λ l. l.now.ledger) result ≡ get (key_of at.now) (state_of (held_in self.now)).fungibles }
    {
        tokens::token_at(&self.fungibles, at)
    }

    /// The non-fungible token at a place.
    pub fn nonfungible(&self, at: &Place) -> Option<&NonFungible>
        requires { IsSound (held_in self.now) }
        ensures { option_map (λ l. l.now.owners) result ≡ get (key_of at.now) (state_of (held_in self.now)).nonfungibles }
    {
        tokens::token_at(&self.nonfungibles, at)
    }

    /// How much of an asset a holder has.
    pub fn balance(&self, alloc: Global, asset: &Asset, who: &Key) -> Result<u128, NoMemory>
        requires { IsSound (held_in self.now) }
        ensures { IfOk result (λ amount. amount ≡ key_amount asset.now who.now (state_of (held_in self.now))) }
    {
        match asset {
            Asset::Stx => Ok(self.stx.balance(who)),
            Asset::Ft(contract, token) => {
                Ok(balance_in(self.fungible(&place_of(contract, token)), who))
            }
            Asset::Nft(contract, token, id) => {
                let id = wire_key(alloc, id)?;
                Ok(one_if(
                    owner_in(self.nonfungible(&place_of(contract, token)), &id),
                    who,
                ))
            }
        }
    }

    /// Who owns an asset of a non-fungible token.
    pub fn owner(&self, alloc: Global, at: &Place, id: &Key) -> Result<Option<Principal>, NoMemory>
        requires { IsSound (held_in self.now) }
        ensures spelled { IfOk result (λ owner. option_map (λ p. holder p) owner ≡ owner_in id.now (get (key_of at.now) (state_of (held_in self.now)).nonfungibles)) }
        ensures read { IfOk result (λ owner. IfSome owner (λ p. decoded (holder p) ≡ Ok (PrincipalV p))) }
    {
        match owner_in(self.nonfungible(at), id) {
            Some(owner) => Ok(Some(principal_of(alloc, owner.bytes())?)),
            None => Ok(None),
        }
    }

    /// What stands under this key of a map.
    pub fn entry(&self, spot: &Key) -> Result<Option<Val>, NoMemory>
        ensures { IfOk result (λ found. found ≡ get spot.now (state_of (held_in self.now)).entries) }
    {
        copy_found(self.entries.get(spot))
    }

    /// Makes a variable hold a value.
    pub fn put_variable(&mut self, alloc: Global, at: &Place, value: Val) -> Result<Note, NoMemory>
        requires { IsSound (held_in self.old) }
        ensures state { OnOk result (state_of (held_in self.new) ≡ with_variables (put (place at.now.contract at.now.name) value (state_of (held_in self.old)).variables) (state_of (held_in self.old))) }
        ensures noted { IfOk result (λ note. Changes note self.old self.new) }
        ensures refused { OnErr result (Stays self.old self.new) }
    {
        let key = place_key(alloc, at)?;
        let before = put_value(&mut self.variables, &key, HeldValue::new(alloc, value))?;
        Ok(Note::Variable(key, before))
    }

    /// None where there is no such variable; else it holds the value.
    pub fn set_variable(
        &mut self,
        alloc: Global,
        at: &Place,
        value: Val,
    ) -> Result<Option<Note>, NoMemory>
        requires { IsSound (held_in self.old) }
        ensures found { IfOk result (λ o. is_some o ≡ is_some (get (place at.now.contract at.now.name) (state_of (held_in self.old)).variables)) }
        ensures state { IfOk result (λ o. OnSome o (state_of (held_in self.new) ≡ with_variables (put (place at.now.contract at.now.name) value (state_of (held_in self.old)).variables) (state_of (held_in self.old)))) }
        ensures noted { IfOk result (λ o. IfSome o (λ note. Changes note self.old self.new)) }
        ensures absent { IfOk result (λ o. is_some o ≡ false → Stays self.old self.new) }
        ensures refused { OnErr result (Stays self.old self.new) }
    {
        let key = place_key(alloc, at)?;
        match set_value(&mut self.variables, &key, HeldValue::new(alloc, value)) {
            Some(before) => Ok(Some(Note::Variable(key, Some(before)))),
            None => Ok(None),
        }
    }

    /// Puts a value under a key of a map.
    pub fn put_entry(
        &mut self,
        alloc: Global,
        at: &Place,
        key: &Val,
        value: Val,
    ) -> Result<Note, NoMemory>
        requires { IsSound (held_in self.old) }
        ensures state { OnOk result (state_of (held_in self.new) ≡ with_entries (put (spot at.now.contract at.now.name key.now) value (state_of (held_in self.old)).entries) (state_of (held_in self.old))) }
        ensures noted { IfOk result (λ note. Changes note self.old self.new) }
        ensures refused { OnErr result (Stays self.old self.new) }
    {
        let spot = spot_key(alloc, at, key)?;
        let before = put_value(&mut self.entries, &spot, HeldValue::new(alloc, value))?;
        Ok(Note::Entry(spot, before))
    }

    /// None where there is an entry already; else the value is put there.
    pub fn insert_entry(
        &mut self,
        alloc: Global,
        at: &Place,
        key: &Val,
        value: Val,
    ) -> Result<Option<Note>, NoMemory>
        requires { IsSound (held_in self.old) }
        ensures found { IfOk result (λ o. not (is_some o) ≡ is_some (get (spot at.now.contract at.now.name key.now) (state_of (held_in self.old)).entries)) }
        ensures state { IfOk result (λ o. OnSome o (state_of (held_in self.new) ≡ with_entries (put (spot at.now.contract at.now.name key.now) value (state_of (held_in self.old)).entries) (state_of (held_in self.old)))) }
        ensures noted { IfOk result (λ o. IfSome o (λ note. Changes note self.old self.new)) }
        ensures there { IfOk result (λ o. is_some o ≡ false → Stays self.old self.new) }
        ensures refused { OnErr result (Stays self.old self.new) }
    {
        let spot = spot_key(alloc, at, key)?;
        if self.entries.get(&spot).is_some() {
            return Ok(None);
        }
        let before = put_value(&mut self.entries, &spot, HeldValue::new(alloc, value))?;
        Ok(Some(Note::Entry(spot, before)))
    }

    /// None where there was no entry; else it is taken away.
    pub fn remove_entry(
        &mut self,
        alloc: Global,
        at: &Place,
        key: &Val,
    ) -> Result<Option<Note>, NoMemory>
        requires { IsSound (held_in self.old) }
        ensures found { IfOk result (λ o. is_some o ≡ is_some (get (spot at.now.contract at.now.name key.now) (state_of (held_in self.old)).entries)) }
        ensures state { IfOk result (λ o. OnSome o (state_of (held_in self.new) ≡ with_entries (without (spot at.now.contract at.now.name key.now) (state_of (held_in self.old)).entries) (state_of (held_in self.old)))) }
        ensures noted { IfOk result (λ o. IfSome o (λ note. Changes note self.old self.new)) }
        ensures absent { IfOk result (λ o. is_some o ≡ false → Stays self.old self.new) }
        ensures refused { OnErr result (Stays self.old self.new) }
    {
        let spot = spot_key(alloc, at, key)?;
        match take_value(&mut self.entries, &spot) {
            Some(before) => Ok(Some(Note::Entry(spot, Some(before)))),
            None => Ok(None),
        }
    }

    /// Defines a fungible token that nobody holds.
    pub fn define_fungible(
        &mut self,
        alloc: Global,
        at: &Place,
        cap: Option<u128>,
    ) -> Result<Note, NoMemory>
        requires sound { IsSound (held_in self.old) }
        requires new { get (key_of at.now) (state_of (held_in self.old)).fungibles ≡ None }
        ensures state { OnOk result (state_of (held_in self.new) ≡ with_fungibles (put (key_of at.now) (no_tokens cap) (state_of (held_in self.old)).fungibles) (state_of (held_in self.old))) }
        ensures noted { IfOk result (λ note. Changes note self.old self.new) }
        ensures refused { OnErr result (Stays self.old self.new) }
    {
        let token = Fungible::with_hash_key(alloc, self.hash_key(), cap);
        tokens::define(&mut self.fungibles, at, token)?;
        Ok(Note::FungibleDefined)
    }

    /// Defines a non-fungible token without assets.
    pub fn define_nonfungible(&mut self, alloc: Global, at: &Place) -> Result<Note, NoMemory>
        requires sound { IsSound (held_in self.old) }
        requires new { get (key_of at.now) (state_of (held_in self.old)).nonfungibles ≡ None }
        ensures state { OnOk result (state_of (held_in self.new) ≡ with_nonfungibles (put (key_of at.now) empty (state_of (held_in self.old)).nonfungibles) (state_of (held_in self.old))) }
        ensures noted { IfOk result (λ note. Changes note self.old self.new) }
        ensures refused { OnErr result (Stays self.old self.new) }
    {
        let token = NonFungible::with_hash_key(alloc, self.hash_key());
        tokens::define(&mut self.nonfungibles, at, token)?;
        Ok(Note::NonFungibleDefined)
    }

    /// Does an act on a ledger.
    pub fn act(&mut self, deed: Deed) -> Result<Note, Fault<TokenRefusal>>
        requires sound { IsSound (held_in self.old) }
        requires deed { IsSoundDeed deed }
        requires defined { IsSome (deed_done deed (state_of (held_in self.old))) }
        ensures gives { Gives (deed_done deed (state_of (held_in self.old))) result (state_of (held_in self.new)) }
        ensures noted { IfOk result (λ note. Changes note self.old self.new) }
        ensures refused { OnErr result (Stays self.old self.new) }
    {
        match deed {
            Deed::OnStx(act) => self.act_on_stx(act),
            Deed::OnFungible(at, act) => self.act_on_fungible(&at, act),
            Deed::OnAsset(at, id, act) => self.act_on_asset(&at, id, act),
        }
    }

    fn act_on_stx(&mut self, act: Act) -> Result<Note, Fault<TokenRefusal>>
        requires sound { IsSound (held_in self.old) }
        requires deed { AreHolders act }
        ensures gives { Gives (deed_done (OnStx act) (state_of (held_in self.old))) result (state_of (held_in self.new)) }
        ensures noted { IfOk result (λ note. Changes note self.old self.new) }
        ensures refused { OnErr result (Stays self.old self.new) }
    {
        tokens::perform(&mut self.stx, &act)?;
        Ok(Note::Stx(act))
    }

    fn act_on_fungible(&mut self, at: &Place, act: Act) -> Result<Note, Fault<TokenRefusal>>
        requires sound { IsSound (held_in self.old) }
        requires deed { AreHolders act }
        requires defined { IsSome (get (key_of at.now) (state_of (held_in self.old)).fungibles) }
        ensures gives { Gives (deed_done (OnFungible at.now act) (state_of (held_in self.old))) result (state_of (held_in self.new)) }
        ensures noted { IfOk result (λ note. Changes note self.old self.new) }
        ensures refused { OnErr result (Stays self.old self.new) }
    {
        let Some(number) = tokens::number_of(&self.fungibles, at) else {
            unreachable!();
        };
        self.fungibles_touched = self.fungibles_touched.with(number);
        tokens::perform_at(&mut self.fungibles, number, &act)?;
        Ok(Note::Fungible(number, act))
    }

    fn act_on_asset(
        &mut self,
        at: &Place,
        id: Key,
        act: AssetAct,
    ) -> Result<Note, Fault<TokenRefusal>>
        requires sound { IsSound (held_in self.old) }
        requires asset { IsAsset id }
        requires deed { GivesToHolder act }
        requires defined { IsSome (get (key_of at.now) (state_of (held_in self.old)).nonfungibles) }
        ensures gives { Gives (deed_done (OnAsset at.now id act) (state_of (held_in self.old))) result (state_of (held_in self.new)) }
        ensures noted { IfOk result (λ note. Changes note self.old self.new) }
        ensures refused { OnErr result (Stays self.old self.new) }
    {
        let Some(number) = tokens::number_of(&self.nonfungibles, at) else {
            unreachable!();
        };
        self.nonfungibles_touched = self.nonfungibles_touched.with(number);
        let owner = tokens::transfer_at(&mut self.nonfungibles, number, &id, act)?;
        Ok(Note::Asset(number, id, owner))
    }

    /// Undoes a change. Takes no memory.
    pub fn undo(&mut self, note: Note)
        requires { IsReady (rooms_in self.old) 0 0 note }
        ensures held { held_in self.new ≡ undone note (held_in self.old) }
        ensures rooms { Serves (fungibles_in note) (nonfungibles_in note) 0 0 (rooms_in self.old) (rooms_in self.new) }
    {
        match note {
            Note::Variable(key, before) => self.variables.write(&key, before),
            Note::Entry(key, before) => self.entries.write(&key, before),
            Note::Stx(act) => self.stx.undo(&act),
            Note::Fungible(number, act) => tokens::undo_at(&mut self.fungibles, number, &act),
            Note::Asset(number, asset, owner) => {
                tokens::restore_at(&mut self.nonfungibles, number, &asset, owner);
            }
            Note::FungibleDefined => tokens::undefine(&mut self.fungibles),
            Note::NonFungibleDefined => tokens::undefine(&mut self.nonfungibles),
        }
    }

    /// Takes away the vacant slots, where these may outnumber the others. Takes no memory.
    pub fn tidy(&mut self)
        ensures { held_in self.new ≡ held_in self.old }
    {
        self.variables.tidy();
        self.entries.tidy();
        self.stx.tidy();
        tokens::tidy_ledgers(&mut self.fungibles, self.fungibles_touched);
        tokens::tidy_owners(&mut self.nonfungibles, self.nonfungibles_touched);
        self.fungibles_touched = Touched::none();
        self.nonfungibles_touched = Touched::none();
    }
}

// of a ledger that may not be there
fn balance_in(ledger: Option<&Fungible>, who: &Key) -> u128
    ensures { result ≡ balance_in who.now (option_map (λ l. l.now.ledger) ledger.entry) }
{
    match ledger {
        Some(ledger) => ledger.balance(who),
        None => 0,
    }
}

fn owner_in<'a>(owners: Option<&'a NonFungible>, asset: &Key) -> Option<&'a Key>
    ensures { option_copied result ≡ owner_in asset.now (option_map (λ l. l.now.owners) owners.entry) }
{
    match owners {
        Some(owners) => owners.owner(asset),
        None => None,
    }
}

fn one_if(owner: Option<&Key>, who: &Key) -> u128
    ensures { result ≡ one_if who.now (option_copied owner.entry) }
{
    let Some(owner) = owner else {
        return 0;
    };
    if owner == who { 1 } else { 0 }
}

fn copy_found(found: Option<&HeldValue>) -> Result<Option<Val>, NoMemory>
    ensures { IfOk result (λ copy. copy ≡ option_copied found.entry) }
{
    match found {
        Some(held) => Ok(Some(held.copy_out()?)),
        None => Ok(None),
    }
}

// gives what was there before
fn put_value<V: Stored>(table: &mut Table<V>, key: &Key, value: V) -> Result<Option<V>, NoMemory>
    ensures before { IfOk result (λ before. before ≡ get key.now table.old.content) }
    ensures done { OnOk result (table.new.content ≡ put key.now value table.old.content) }
    ensures ready { OnOk result (HasRoom table.new.room key.now) }
    ensures refused { OnErr result (table.new.content ≡ table.old.content) }
    ensures keeps { (q : List ℕ) → HasRoom table.old.room q → HasRoom table.new.room q }
{
    table.make_slot(key)?;
    Ok(table.replace(key, Some(value)))
}

// what there was under a key, in whose place the value is put then
fn set_value(table: &mut Table<HeldValue>, key: &Key, value: HeldValue) -> Option<HeldValue>
    ensures before { result ≡ get key.now table.old.content }
    ensures set { OnSome result (table.new.content ≡ put key.now value table.old.content) }
    ensures absent { is_some result ≡ false → table.new.content ≡ table.old.content }
    ensures room { table.new.room ≡ table.old.room }
    ensures ready { OnSome result (HasRoom table.new.room key.now) }
{
    let Some(_value) = table.get(key) else {
        return None;
    };
    table.replace(key, Some(value))
}

// what there was under a key, which is then taken away
fn take_value(table: &mut Table<HeldValue>, key: &Key) -> Option<HeldValue>
    ensures before { result ≡ get key.now table.old.content }
    ensures content { table.new.content ≡ without key.now table.old.content }
    ensures room { table.new.room ≡ table.old.room }
    ensures ready { OnSome result (HasRoom table.new.room key.now) }
{
    let Some(_value) = table.get(key) else {
        return None;
    };
    table.replace(key, None)
}
