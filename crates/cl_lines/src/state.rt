//! The lines of a state.
ghost use Rattle.std.specs.Prelude.{◌≡◌, ◌++◌, IfOk, codes, map};
ghost use Rattle.cl_lines.specs.StateLines.{IsStateText, with_line_feeds};
ghost use Rattle.cl_lines.specs.RowLines.{row_word, contract_part, name_part, key_part, row_line};
ghost use Rattle.cl_lines.specs.LineSets.{IsSetOf};

use crate::addresses::AddressCache;
use crate::events::{write_name, write_value, write_who};
use cl_c32::Principal;
use cl_state::World;
use cl_tables::{RowKind, StateRow};
use cl_types::{Name, NoMemory};
use cl_values::Val;
use std::alloc::Global;

#[tactic(auto, unfolding(crate::specs::RowLines::row_word))]
fn row_word(kind: RowKind) -> &'static str
    ensures { result.now ≡ row_word kind }
{
    match kind {
        RowKind::Variable => "var",
        RowKind::MapEntry => "map",
        RowKind::Balance => "ft",
        RowKind::Supply => "supply",
        RowKind::Owner => "nft",
        RowKind::StxBalance => "stx",
    }
}

fn write_contract(
    out: &mut Vec<u8>,
    addresses: &mut AddressCache,
    contract: &Option<Principal>,
) -> Result<(), NoMemory>
    ensures { IfOk result (λ _. out.new.items ≡ out.old.items ++ contract_part contract.now) }
{
    match contract {
        Some(contract) => write_who(out, addresses, contract),
        None => Ok(()),
    }
}

fn write_name_part(out: &mut Vec<u8>, name: &Option<Name>) -> Result<(), NoMemory>
    ensures { IfOk result (λ _. out.new.items ≡ out.old.items ++ name_part name.now) }
{
    match name {
        Some(name) => write_name(out, name),
        None => Ok(()),
    }
}

fn write_key(out: &mut Vec<u8>, alloc: Global, key: &Option<Val>) -> Result<(), NoMemory>
    ensures { IfOk result (λ _. out.new.items ≡ out.old.items ++ key_part key.now) }
{
    match key {
        Some(key) => write_value(out, alloc, key),
        None => Ok(()),
    }
}

#[tactic(auto, unfolding(crate::specs::RowLines::row_line))]
fn row_line(
    alloc: Global,
    addresses: &mut AddressCache,
    row: &StateRow,
) -> Result<Vec<u8>, NoMemory>
    ensures { IfOk result (λ line. line.items ≡ row_line row.now) }
{
    let mut line = Vec::from_slice(alloc, row_word(row.kind).as_bytes())?;
    write_contract(&mut line, addresses, &row.contract)?;
    write_name_part(&mut line, &row.name)?;
    write_key(&mut line, alloc, &row.key)?;
    write_value(&mut line, alloc, &row.value)?;
    Ok(line)
}

fn lines_with(
    alloc: Global,
    addresses: &mut AddressCache,
    rows: &[StateRow],
) -> Result<Vec<Vec<u8>>, NoMemory>
    ensures { IfOk result (λ lines. map (λ line. line.items) lines.items
        ≡ map (λ r. row_line r) rows.now) }
{
    let mut lines = Vec::with_capacity(alloc, rows.len())?;
    for row in rows {
        let line = row_line(alloc, addresses, row)?;
        lines.push(line)?;
    }
    Ok(lines)
}

/// The lines of rows, in their order, without their LFs.
pub fn row_lines(alloc: Global, rows: &[StateRow]) -> Result<Vec<Vec<u8>>, NoMemory>
    ensures { IfOk result (λ lines. map (λ line. line.items) lines.items
        ≡ map (λ r. row_line r) rows.now) }
{
    let mut addresses = AddressCache::new(alloc)?;
    lines_with(alloc, &mut addresses, rows)
}

/// The lines rising, each once.
fn rising(mut lines: Vec<Vec<u8>>) -> Result<Vec<Vec<u8>>, NoMemory>
    ensures { IfOk result (λ set. IsSetOf (map (λ line. line.items) lines.items)
        (map (λ line. line.items) set.items)) }
{
    lines.sort()?;
    lines.dedup();
    Ok(lines)
}

fn with_line_feeds(alloc: Global, lines: &[Vec<u8>]) -> Result<Vec<u8>, NoMemory>
    ensures { IfOk result (λ text. text.items
        ≡ with_line_feeds (map (λ line. line.items) lines.now)) }
{
    let mut text = Vec::new(alloc);
    for line in lines {
        text.extend_from_slice(line)?;
        text.push(b'\n')?;
    }
    Ok(text)
}

/// The line of a row of a state, with its LF. The text of a state (`state_lines`) is made of just these lines of its rows.
pub fn state_line(alloc: Global, row: &StateRow) -> Result<Vec<u8>, NoMemory>
    ensures { IfOk result (λ line. line.items ≡ row_line row.now ++ codes "\n") }
{
    let mut addresses = AddressCache::without_slots(alloc);
    let mut line = row_line(alloc, &mut addresses, row)?;
    line.push(b'\n')?;
    Ok(line)
}

/// The lines of the top state of a world: rising bytewise, each followed by an LF.
pub fn state_lines(alloc: Global, world: &World) -> Result<Vec<u8>, NoMemory>
    ensures { IfOk result (λ text. IsStateText world.now.stack.top text.items) }
{
    let rows = world.rows()?;
    let lines = row_lines(alloc, &rows)?;
    let set = rising(lines)?;
    with_line_feeds(alloc, &set)
}
