//! The lines of an entry.
ghost use Rattle.std.specs.Prelude.{◌≡◌, ◌++◌, IfOk, codes, decimal};
ghost use Rattle.std.specs.List.{flat_map};
ghost use Rattle.cl_text.specs.Printed.{printed};
ghost use Rattle.cl_lines.specs.Events.{event_line};
ghost use Rattle.cl_report.specs.Lines.{outcome_text, entry_text, entry_line, event_lines, lines_of};

use cl_c32::Principal;
use cl_events::Event;
use cl_lines::{
    AddressCache, stop_text, write_bounds, write_cost, write_entry_refusal, write_event,
    write_rebounds,
};
use cl_text::print_value;
use cl_tx::{Entry, Outcome, TxResult};
use cl_types::NoMemory;
use cl_values::Val;
use itoa::Buffer;
use std::alloc::Global;

// A word and a value behind it.
fn write_value(out: &mut Vec<u8>, alloc: Global, word: &str, value: &Val) -> Result<(), NoMemory>
    ensures { IfOk result (λ _. out.new.items ≡ out.old.items ++ (word.now ++ printed value.now)) }
{
    out.extend_from_slice(word.as_bytes())?;
    let text = print_value(alloc, value)?;
    out.extend_from_slice(&text)?;
    Ok(())
}

#[tactic(auto, unfolding(crate::specs::Lines::outcome_text))]
fn write_outcome(out: &mut Vec<u8>, alloc: Global, outcome: &Outcome) -> Result<(), NoMemory>
    ensures { IfOk result (λ _. out.new.items ≡ out.old.items ++ outcome_text outcome.now) }
{
    match outcome {
        Outcome::Moved => {}
        Outcome::Done => out.extend_from_slice(b"done")?,
        Outcome::Good(value) => write_value(out, alloc, "ok ", value)?,
        Outcome::Bad(value) => write_value(out, alloc, "err ", value)?,
        Outcome::Plain(value) => write_value(out, alloc, "value ", value)?,
        Outcome::Aborted(stop) => {
            let text = stop_text(alloc, *stop)?;
            out.extend_from_slice(b"aborted ")?;
            out.extend_from_slice(text.as_bytes())?;
        }
        Outcome::Refused(refusal) => {
            out.extend_from_slice(b"refused ")?;
            write_entry_refusal(out, alloc, refusal)?;
        }
    }
    Ok(())
}

fn write_height(out: &mut Vec<u8>, height: u64) -> Result<(), NoMemory>
    ensures { IfOk result (λ _. out.new.items
        ≡ out.old.items ++ (codes " block " ++ decimal height)) }
{
    out.extend_from_slice(b" block ")?;
    out.extend_from_slice(Buffer::new().format(height).as_bytes())?;
    Ok(())
}

#[tactic(auto, unfolding(crate::specs::Lines::entry_text))]
fn write_entry(
    out: &mut Vec<u8>,
    alloc: Global,
    addresses: &mut AddressCache,
    entry: &Entry,
) -> Result<(), NoMemory>
    ensures { IfOk result (λ _. out.new.items ≡ out.old.items ++ entry_text entry.now) }
{
    match entry {
        Entry::Deploy { common, name, .. } => {
            let contract = Principal {
                address: common.sender,
                contract: Some(*name),
            };
            out.extend_from_slice(b" deploy ")?;
            addresses.write_principal(out, &contract)?;
            out.extend_from_slice(b" ")?;
        }
        Entry::Call {
            contract,
            function,
            ..
        } => {
            out.extend_from_slice(b" call ")?;
            addresses.write_principal(out, contract)?;
            out.extend_from_slice(b" ")?;
            out.extend_from_slice(function.as_slice())?;
            out.extend_from_slice(b" ")?;
        }
        Entry::Block { height } => write_height(out, *height)?,
    }
    Ok(())
}

#[tactic(auto, unfolding(crate::specs::Lines::entry_line))]
fn write_first(
    out: &mut Vec<u8>,
    alloc: Global,
    addresses: &mut AddressCache,
    number: u32,
    entry: &Entry,
    outcome: &Outcome,
) -> Result<(), NoMemory>
    ensures { IfOk result (λ _. out.new.items
        ≡ out.old.items ++ entry_line number entry.now outcome.now) }
{
    out.extend_from_slice(Buffer::new().format(number).as_bytes())?;
    write_entry(out, alloc, addresses, entry)?;
    write_outcome(out, alloc, outcome)?;
    out.extend_from_slice(b"\n")?;
    Ok(())
}

fn write_each(
    out: &mut Vec<u8>,
    alloc: Global,
    addresses: &mut AddressCache,
    events: &[Event],
) -> Result<(), NoMemory>
    ensures { IfOk result (λ _. out.new.items ≡ out.old.items ++ flat_map event_line events.now) }
{
    for event in events {
        write_event(out, alloc, addresses, event)?;
    }
    Ok(())
}

// The events of an entry that was committed.
fn write_events(
    out: &mut Vec<u8>,
    alloc: Global,
    addresses: &mut AddressCache,
    outcome: &Outcome,
    events: &[Event],
) -> Result<(), NoMemory>
    ensures { IfOk result (λ _. out.new.items
        ≡ out.old.items ++ event_lines outcome.now events.now) }
{
    match outcome {
        Outcome::Done | Outcome::Good(_) | Outcome::Plain(_) => {
            write_each(out, alloc, addresses, events)
        }
        Outcome::Moved | Outcome::Bad(_) | Outcome::Aborted(_) | Outcome::Refused(_) => Ok(()),
    }
}

/// The lines of an entry with its number, counted from 0, and its result: what became of it, what
/// it cost, the bounds of a contract that was accepted, and the events of what was committed; of a
/// block the height, and the bounds that change with it. Each line ends with LF.
pub fn lines(
    alloc: Global,
    number: u32,
    entry: &Entry,
    given: &TxResult,
) -> Result<Vec<u8>, NoMemory>
    ensures { IfOk result (λ text. text.items ≡ lines_of number entry.now given.now) }
{
    let mut addresses = AddressCache::without_slots(alloc);
    lines_with(alloc, &mut addresses, number, entry, given)
}

/// As many bytes as the lines of most entries take.
const FEW: usize = 192;

/// The same lines as those of `lines`, by the texts of addresses that are kept from entry to entry.
#[tactic(auto, unfolding(crate::specs::Lines::lines_of))]
pub fn lines_with(
    alloc: Global,
    addresses: &mut AddressCache,
    number: u32,
    entry: &Entry,
    given: &TxResult,
) -> Result<Vec<u8>, NoMemory>
    ensures { IfOk result (λ text. text.items ≡ lines_of number entry.now given.now) }
{
    let mut out = Vec::with_capacity(alloc, FEW)?;
    write_first(&mut out, alloc, addresses, number, entry, &given.outcome)?;
    write_cost(&mut out, &given.cost)?;
    write_bounds(&mut out, alloc, &given.bounds, given.types.as_slice())?;
    write_events(
        &mut out,
        alloc,
        addresses,
        &given.outcome,
        given.events.as_slice(),
    )?;
    write_rebounds(&mut out, alloc, addresses, given.rebounds.as_slice())?;
    Ok(out)
}
