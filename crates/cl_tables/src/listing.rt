//! The rows of what tables hold, put behind one another.
ghost use Rattle.std.specs.Prelude.{◌≡◌, OnOk, IfOk, option_copied};
ghost use Rattle.std.specs.List.{AllByRecursion};
ghost use Rattle.cl_values.specs.Tree.{UintV};
ghost use Rattle.cl_tables.specs.Variables.{IsPlaceKey};
ghost use Rattle.cl_tables.specs.Spelled.{IsHolder, IsSpot, IsAsset, Each, AreHeld, AreOwned};
ghost use Rattle.cl_tables.specs.Numbered.{by_place, ledgers_of, owners_of, ArePlaced};
ghost use Rattle.cl_tables.specs.StateRows.{placed_row};
ghost use Rattle.cl_tables.specs.RowParts.{holding_row, IsVariableRow, IsEntryRow, IsHolding, IsOwnerRow, Lists, Adds, OfVariables, OfEntries, OfHoldings, OfFungible, OfNonFungible, OfPlaced};

use crate::held::HeldValue;
use crate::place::Place;
use crate::reading::{place_of, spot_of, value_of};
use crate::row::{RowKind, StateRow};
use cl_keyed::HashKey;
use cl_tokens::{Fungible, Key, NonFungible, Table};
use cl_types::NoMemory;
use cl_values::{Kind, Val, Value, one_spelling, read_back};
use indexmap::IndexMap;
use std::alloc::Global;

fn uint_value(number: u128) -> Val
    ensures { result ≡ UintV number }
{
    let kind = Kind::Uint(number);
    Val::measured(Value { kind }, 17, 1)
}

fn placed_row(kind: RowKind, at: &Place, key: Option<Val>, value: Val) -> StateRow
    ensures { result ≡ placed_row kind at.now key value }
{
    StateRow {
        kind,
        contract: Some(at.contract),
        name: Some(at.name),
        key,
        value,
    }
}

fn variable_row(alloc: Global, key: &Key, value: Val) -> Result<StateRow, NoMemory>
    requires { IsPlaceKey key.now }
    ensures { IfOk result (λ row. IsVariableRow (key.now, value) row) }
{
    let at = place_of(alloc, key.bytes())?;
    Ok(placed_row(RowKind::Variable, &at, None, value))
}

fn entry_row(alloc: Global, key: &Key, value: Val) -> Result<StateRow, NoMemory>
    requires { IsSpot key.now }
    ensures { IfOk result (λ row. IsEntryRow (key.now, value) row) }
{
    let (at, key) = spot_of(alloc, key.bytes())?;
    Ok(placed_row(RowKind::MapEntry, &at, Some(key), value))
}

// of a token, or of STX
fn holding_row(
    alloc: Global,
    of: Option<&Place>,
    who: &Key,
    amount: u128,
) -> Result<StateRow, NoMemory>
    requires { IsHolder who.now }
    ensures { IfOk result (λ row. IsHolding (option_copied of.entry) (who.now, amount) row) }
{
    read_back();
    let who = Some(value_of(alloc, who.bytes())?);
    let value = uint_value(amount);
    match of {
        Some(at) => Ok(placed_row(RowKind::Balance, at, who, value)),
        None => Ok(StateRow {
            kind: RowKind::StxBalance,
            contract: None,
            name: None,
            key: who,
            value,
        }),
    }
}

fn owner_row(alloc: Global, at: &Place, asset: &Key, owner: &Key) -> Result<StateRow, NoMemory>
    requires asset { IsAsset asset.now }
    requires owner { IsHolder owner.now }
    ensures { IfOk result (λ row. IsOwnerRow at.now (asset.now, owner.now) row) }
{
    read_back();
    let id = value_of(alloc, asset.bytes())?;
    let owner = value_of(alloc, owner.bytes())?;
    Ok(placed_row(RowKind::Owner, at, Some(id), owner))
}

fn list_variables(
    out: &mut Vec<StateRow>,
    alloc: Global,
    rows: Vec<(Key, HeldValue)>,
) -> Result<(), NoMemory>
    requires { AllByRecursion (λ e. IsPlaceKey e.0) rows.items }
    ensures { OnOk result (Lists IsVariableRow rows.items out.old.items out.new.items) }
{
    for (key, held) in rows {
        let row = variable_row(alloc, &key, held.into_value())?;
        out.push(row)?;
    }
    Ok(())
}

fn list_entries(
    out: &mut Vec<StateRow>,
    alloc: Global,
    rows: Vec<(Key, HeldValue)>,
) -> Result<(), NoMemory>
    requires { AllByRecursion (λ e. IsSpot e.0) rows.items }
    ensures { OnOk result (Lists IsEntryRow rows.items out.old.items out.new.items) }
{
    for (key, held) in rows {
        let row = entry_row(alloc, &key, held.into_value())?;
        out.push(row)?;
    }
    Ok(())
}

fn list_holdings(
    out: &mut Vec<StateRow>,
    alloc: Global,
    of: Option<&Place>,
    holders: &[(Key, u128)],
) -> Result<(), NoMemory>
    requires { AllByRecursion (λ e. IsHolder e.0) holders.now }
    ensures { OnOk result (Lists (IsHolding (option_copied of.entry)) holders.now out.old.items out.new.items) }
{
    for holder in holders {
        let row = holding_row(alloc, of, &holder.0, holder.1)?;
        out.push(row)?;
    }
    Ok(())
}

fn list_owners(
    out: &mut Vec<StateRow>,
    alloc: Global,
    at: &Place,
    assets: &[(Key, Key)],
) -> Result<(), NoMemory>
    requires assets { AllByRecursion (λ e. IsAsset e.0) assets.now }
    requires owners { AllByRecursion (λ e. IsHolder e.1) assets.now }
    ensures { OnOk result (Lists (IsOwnerRow at.now) assets.now out.old.items out.new.items) }
{
    for asset in assets {
        let row = owner_row(alloc, at, &asset.0, &asset.1)?;
        out.push(row)?;
    }
    Ok(())
}

/// Adds the rows of variables.
pub(crate) fn add_variables(
    out: &mut Vec<StateRow>,
    alloc: Global,
    variables: &Table<HeldValue>,
) -> Result<(), NoMemory>
    requires { Each (λ key v. IsPlaceKey key) variables.now.content }
    ensures { OnOk result (Adds (OfVariables variables.now.content) out.old.items out.new.items) }
{
    list_variables(out, alloc, variables.rows()?)
}

/// Adds the rows of the entries of maps.
pub(crate) fn add_entries(
    out: &mut Vec<StateRow>,
    alloc: Global,
    entries: &Table<HeldValue>,
) -> Result<(), NoMemory>
    requires { Each (λ key v. IsSpot key) entries.now.content }
    ensures { OnOk result (Adds (OfEntries entries.now.content) out.old.items out.new.items) }
{
    one_spelling();
    read_back();
    list_entries(out, alloc, entries.rows()?)
}

/// Adds the rows of the balances of a token, or of STX.
pub(crate) fn add_holdings(
    out: &mut Vec<StateRow>,
    alloc: Global,
    of: Option<&Place>,
    ledger: &Fungible,
) -> Result<(), NoMemory>
    requires { AreHeld ledger.now.ledger }
    ensures { OnOk result (Adds (OfHoldings (option_copied of.entry) ledger.now.ledger.balances) out.old.items out.new.items) }
{
    one_spelling();
    let _supply = ledger.supply();
    let holders = ledger.holders()?;
    list_holdings(out, alloc, of, &holders)
}

fn add_fungible(
    out: &mut Vec<StateRow>,
    alloc: Global,
    at: &Place,
    ledger: &Fungible,
) -> Result<(), NoMemory>
    requires { AreHeld ledger.now.ledger }
    ensures { OnOk result (Adds (OfFungible at.now ledger.now.ledger) out.old.items out.new.items) }
{
    let supply = uint_value(ledger.supply());
    out.push(placed_row(RowKind::Supply, at, None, supply))?;
    add_holdings(out, alloc, Some(at), ledger)
}

fn add_nonfungible(
    out: &mut Vec<StateRow>,
    alloc: Global,
    at: &Place,
    owners: &NonFungible,
) -> Result<(), NoMemory>
    requires { AreOwned owners.now.owners }
    ensures { OnOk result (Adds (OfNonFungible at.now owners.now.owners) out.old.items out.new.items) }
{
    one_spelling();
    let assets = owners.assets()?;
    list_owners(out, alloc, at, &assets)
}

/// Adds the rows of fungible tokens.
pub(crate) fn add_fungibles(
    out: &mut Vec<StateRow>,
    alloc: Global,
    tokens: &IndexMap<Place, Fungible, HashKey>,
) -> Result<(), NoMemory>
    requires placed { ArePlaced (ledgers_of tokens.now.entries) }
    requires held { Each (λ key l. AreHeld l) (by_place (ledgers_of tokens.now.entries)) }
    ensures { OnOk result (Adds (OfPlaced OfFungible (by_place (ledgers_of tokens.now.entries))) out.old.items out.new.items) }
{
    let mut i = tokens.len();
    while i > 0 {
        i -= 1;
        let Some((at, ledger)) = tokens.get_index(i) else {
            unreachable!();
        };
        add_fungible(out, alloc, at, ledger)?;
    }
    Ok(())
}

/// Adds the rows of non-fungible tokens.
pub(crate) fn add_nonfungibles(
    out: &mut Vec<StateRow>,
    alloc: Global,
    tokens: &IndexMap<Place, NonFungible, HashKey>,
) -> Result<(), NoMemory>
    requires placed { ArePlaced (owners_of tokens.now.entries) }
    requires owned { Each (λ key m. AreOwned m) (by_place (owners_of tokens.now.entries)) }
    ensures { OnOk result (Adds (OfPlaced OfNonFungible (by_place (owners_of tokens.now.entries))) out.old.items out.new.items) }
{
    let mut i = tokens.len();
    while i > 0 {
        i -= 1;
        let Some((at, owners)) = tokens.get_index(i) else {
            unreachable!();
        };
        add_nonfungible(out, alloc, at, owners)?;
    }
    Ok(())
}
