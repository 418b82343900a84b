//! Copies of tables, and tables in which some spots are those of other tables.
ghost use Rattle.std.specs.Prelude.{◌≡◌, ◌||◌, ◌∷◌, ℕ, List, [], IfOk, OnOk, if◌then◌else◌, option_copied};
ghost use Rattle.cl_tables.specs.Variables.{key_of};
ghost use Rattle.cl_tables.specs.Numbered.{by_place, ArePlaced};
ghost use Rattle.cl_tables.specs.Notes.{state_of, IsSound};
ghost use Rattle.cl_tables.specs.Tables.{held_in};
ghost use Rattle.cl_tables.specs.Spots.{begins, begins_so};
ghost use Rattle.cl_tables.specs.Spots.{is_variable_at, is_entry_at, is_token_at, is_stx};
ghost use Rattle.cl_tables.specs.Spots.{names_variable, names_entry, names_token, names_stx};
ghost use Rattle.cl_tables.specs.Spots.{is_wanted, joined, grafted, with_rows, with_tokens};

use crate::held::HeldValue;
use crate::keys::place_key;
use crate::place::Place;
use crate::spot::Spot;
use crate::tables::Tables;
use crate::tokens::{Touched, is_valid};
use cl_keyed::HashKey;
use cl_tokens::{Fungible, Key, NonFungible, Stored, Table};
use cl_types::NoMemory;
use indexmap::IndexMap;
use std::alloc::Global;

/// What is kept of a token.
pub(crate) trait Token: Drop {
    /// A second, equal token.
    fn duplicate(&self) -> Result<Self, NoMemory>
        ensures { IfOk result (λ copy. copy ≡ self.now) };
}

impl Token for Fungible {
    fn duplicate(&self) -> Result<Fungible, NoMemory> {
        self.copy()
    }
}

impl Token for NonFungible {
    fn duplicate(&self) -> Result<NonFungible, NoMemory> {
        self.copy()
    }
}

// ------------------------------------------------------------ variables

fn copy_held(found: Option<&HeldValue>) -> Result<Option<HeldValue>, NoMemory>
    ensures { IfOk result (λ copy. copy ≡ option_copied found.entry) }
{
    match found {
        Some(held) => Ok(Some(held.duplicate()?)),
        None => Ok(None),
    }
}

// where the spot is a variable
fn graft_variable(
    alloc: Global,
    table: &mut Table<HeldValue>,
    from: &Table<HeldValue>,
    spot: &Spot,
) -> Result<(), NoMemory>
    ensures { OnOk result
        (table.new.content ≡ joined (λ key. is_variable_at key spot.now)
        from.now.content table.old.content) }
{
    let Spot::Variable(at) = spot else {
        return Ok(());
    };
    let key = place_key(alloc, at)?;
    let value = copy_held(from.get(&key))?;
    table.make_slot(&key)?;
    table.write(&key, value);
    Ok(())
}

/// The variables of one table, at the spots those of another.
pub(crate) fn graft_variables(
    alloc: Global,
    old: &Table<HeldValue>,
    from: &Table<HeldValue>,
    spots: &[Spot],
) -> Result<Table<HeldValue>, NoMemory>
    ensures { IfOk result
        (λ t. t.content ≡ joined (names_variable spots.now) from.now.content old.now.content) }
{
    let mut table = old.copy()?;
    let mut i = 0;
    while i < spots.len() {
        graft_variable(alloc, &mut table, from, &spots[i])?;
        i += 1;
    }
    Ok(table)
}

// ------------------------------------------------------------ entries

// where the spot is a map, the bytes with which the keys of its entries begin
fn add_front(alloc: Global, fronts: &mut Vec<Key>, spot: &Spot) -> Result<(), NoMemory>
    ensures { OnOk result
        ((key : List ℕ) → begins_so fronts.new.items key
        ≡ (begins_so fronts.old.items key || is_entry_at key spot.now)) }
{
    if let Spot::MapOf(at) = spot {
        let front = place_key(alloc, at)?;
        fronts.push(front)?;
    }
    Ok(())
}

fn fronts_of(alloc: Global, spots: &[Spot]) -> Result<Vec<Key>, NoMemory>
    ensures { IfOk result
        (λ fronts. (key : List ℕ) → begins_so fronts.items key ≡ names_entry spots.now key) }
{
    let mut fronts = Vec::new(alloc);
    let mut i = 0;
    while i < spots.len() {
        add_front(alloc, &mut fronts, &spots[i])?;
        i += 1;
    }
    Ok(fronts)
}

fn begins(front: &Key, key: &Key) -> bool
    ensures { result ≡ begins front.now key.now }
{
    key.bytes().starts_with(front.bytes())
}

fn begins_so(fronts: &[Key], key: &Key) -> bool
    ensures { result ≡ begins_so fronts.now key.now }
{
    fronts.iter().any(|front| begins(front, key))
}

// puts the rows in whose keys it is as wanted whether they begin with one of the fronts
fn put_row(
    table: &mut Table<HeldValue>,
    fronts: &[Key],
    wanted: bool,
    key: &Key,
    value: HeldValue,
) -> Result<(), NoMemory>
    ensures { OnOk result
        (table.new.content ≡ with_rows (is_wanted wanted (begins_so fronts.now))
        ((key.now, value) ∷ []) table.old.content) }
{
    if begins_so(fronts, key) == wanted {
        table.make_slot(key)?;
        table.write(key, Some(value));
    }
    Ok(())
}

fn put_rows(
    table: &mut Table<HeldValue>,
    fronts: &[Key],
    wanted: bool,
    rows: Vec<(Key, HeldValue)>,
) -> Result<(), NoMemory>
    ensures { OnOk result
        (table.new.content ≡ with_rows (is_wanted wanted (begins_so fronts.now))
        rows.items table.old.content) }
{
    for (key, value) in rows {
        put_row(table, fronts, wanted, &key, value)?;
    }
    Ok(())
}

/// The entries of one table, at the spots those of another.
pub(crate) fn graft_entries(
    alloc: Global,
    old: &Table<HeldValue>,
    from: &Table<HeldValue>,
    spots: &[Spot],
) -> Result<Table<HeldValue>, NoMemory>
    ensures { IfOk result
        (λ t. t.content ≡ joined (names_entry spots.now) from.now.content old.now.content) }
{
    let fronts = fronts_of(alloc, spots)?;
    let mut table = Table::new(alloc, old.hash_key());
    put_rows(&mut table, fronts.as_slice(), false, old.rows()?)?;
    put_rows(&mut table, fronts.as_slice(), true, from.rows()?)?;
    Ok(table)
}

// ------------------------------------------------------------ tokens

fn is_token_at(at: &Place, spot: &Spot) -> bool
    ensures { result ≡ is_token_at (key_of at.now) spot.now }
{
    match spot {
        Spot::Token(place) => {
            is_valid(at);
            is_valid(place);
            place == at
        }
        _ => false,
    }
}

fn is_token_in(at: &Place, spots: &[Spot]) -> bool
    ensures { result ≡ names_token spots.now (key_of at.now) }
{
    spots.iter().any(|spot| is_token_at(at, spot))
}

// puts a token at a place, where it is as wanted whether the place is a spot
fn put_token<L: Token>(
    tokens: &mut IndexMap<Place, L, HashKey>,
    spots: &[Spot],
    wanted: bool,
    at: &Place,
    token: &L,
) -> Result<(), NoMemory>
    requires { ArePlaced tokens.old.entries }
    ensures placed { OnOk result (ArePlaced tokens.new.entries) }
    ensures put { OnOk result
        (by_place tokens.new.entries ≡ with_tokens (is_wanted wanted (names_token spots.now))
        ((at.now, token.now) ∷ []) (by_place tokens.old.entries)) }
{
    if is_token_in(at, spots) == wanted {
        is_valid(at);
        let token = token.duplicate()?;
        tokens.insert(*at, token)?;
    }
    Ok(())
}

// the last first, since of tokens at one place the first counts
fn put_tokens<L: Token>(
    tokens: &mut IndexMap<Place, L, HashKey>,
    spots: &[Spot],
    wanted: bool,
    source: &IndexMap<Place, L, HashKey>,
) -> Result<(), NoMemory>
    requires { ArePlaced tokens.old.entries }
    ensures placed { OnOk result (ArePlaced tokens.new.entries) }
    ensures put { OnOk result
        (by_place tokens.new.entries ≡ with_tokens (is_wanted wanted (names_token spots.now))
        source.now.entries (by_place tokens.old.entries)) }
{
    let mut i = source.len();
    while i > 0 {
        i -= 1;
        let Some((at, token)) = source.get_index(i) else {
            unreachable!();
        };
        put_token(tokens, spots, wanted, at, token)?;
    }
    Ok(())
}

/// The tokens of one table, at the spots those of another.
pub(crate) fn graft_tokens<L: Token>(
    alloc: Global,
    old: &IndexMap<Place, L, HashKey>,
    from: &IndexMap<Place, L, HashKey>,
    spots: &[Spot],
) -> Result<IndexMap<Place, L, HashKey>, NoMemory>
    ensures placed { IfOk result (λ t. ArePlaced t.entries) }
    ensures joined { IfOk result
        (λ t. by_place t.entries ≡ joined (names_token spots.now)
        (by_place from.now.entries) (by_place old.now.entries)) }
{
    let mut tokens = IndexMap::with_hasher(alloc, *old.hasher());
    put_tokens(&mut tokens, spots, false, old)?;
    put_tokens(&mut tokens, spots, true, from)?;
    Ok(tokens)
}

/// A copy of the tokens.
pub(crate) fn copy_tokens<L: Token>(
    alloc: Global,
    old: &IndexMap<Place, L, HashKey>,
) -> Result<IndexMap<Place, L, HashKey>, NoMemory>
    ensures placed { IfOk result (λ t. ArePlaced t.entries) }
    ensures same { IfOk result (λ t. by_place t.entries ≡ by_place old.now.entries) }
{
    let mut tokens = IndexMap::with_hasher(alloc, *old.hasher());
    put_tokens(&mut tokens, &[], false, old)?;
    Ok(tokens)
}

// ------------------------------------------------------------ STX

fn is_stx(spot: &Spot) -> bool
    ensures { result ≡ is_stx spot.now }
{
    match spot {
        Spot::Stx => true,
        _ => false,
    }
}

fn has_stx(spots: &[Spot]) -> bool
    ensures { result ≡ names_stx spots.now }
{
    spots.iter().any(|spot| is_stx(spot))
}

/// STX of one ledger or another.
pub(crate) fn graft_stx(
    old: &Fungible,
    from: &Fungible,
    spots: &[Spot],
) -> Result<Fungible, NoMemory>
    ensures { IfOk result
        (λ stx. stx.ledger ≡ (if names_stx spots.now then from.now.ledger else old.now.ledger)) }
{
    if has_stx(spots) {
        from.copy()
    } else {
        old.copy()
    }
}

// ------------------------------------------------------------ all tables

impl Tables {
    /// A second, equal state of what is held.
    pub fn copy(&self, alloc: Global) -> Result<Tables, NoMemory>
        requires { IsSound (held_in self.now) }
        ensures state { IfOk result (λ t. state_of (held_in t) ≡ state_of (held_in self.now)) }
        ensures sound { IfOk result (λ t. IsSound (held_in t)) }
    {
        Ok(Tables {
            variables: self.variables.copy()?,
            entries: self.entries.copy()?,
            fungibles: copy_tokens(alloc, &self.fungibles)?,
            nonfungibles: copy_tokens(alloc, &self.nonfungibles)?,
            stx: self.stx.copy()?,
            fungibles_touched: Touched::none(),
            nonfungibles_touched: Touched::none(),
        })
    }

    /// Tables that hold at the spots what `from` holds there, and elsewhere what these hold.
    pub fn grafted(&self, alloc: Global, from: &Tables, spots: &[Spot]) -> Result<Tables, NoMemory>
        requires own { IsSound (held_in self.now) }
        requires from { IsSound (held_in from.now) }
        ensures state { IfOk result
            (λ t. state_of (held_in t)
            ≡ grafted spots.now (state_of (held_in from.now)) (state_of (held_in self.now))) }
        ensures sound { IfOk result (λ t. IsSound (held_in t)) }
    {
        Ok(Tables {
            variables: graft_variables(alloc, &self.variables, &from.variables, spots)?,
            entries: graft_entries(alloc, &self.entries, &from.entries, spots)?,
            fungibles: graft_tokens(alloc, &self.fungibles, &from.fungibles, spots)?,
            nonfungibles: graft_tokens(alloc, &self.nonfungibles, &from.nonfungibles, spots)?,
            stx: graft_stx(&self.stx, &from.stx, spots)?,
            fungibles_touched: Touched::none(),
            nonfungibles_touched: Touched::none(),
        })
    }
}
