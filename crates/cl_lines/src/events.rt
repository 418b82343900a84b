//! How events print.
ghost use Rattle.std.specs.Prelude.{◌≡◌, ◌++◌, IfOk};
ghost use Rattle.cl_lines.specs.Events.{amount_text, name_text, value_text, who_text, word_of, details, event_line};

use crate::addresses::AddressCache;
use cl_c32::Principal;
use cl_events::{Event, EventKind};
use cl_text::print_value;
use cl_types::{Name, NoMemory};
use cl_values::Val;
use itoa::Buffer;
use std::alloc::Global;

#[tactic(auto, unfolding(crate::specs::Events::amount_text))]
fn write_amount(out: &mut Vec<u8>, amount: u128) -> Result<(), NoMemory>
    ensures { IfOk result (λ _. out.new.items ≡ out.old.items ++ amount_text amount) }
{
    out.extend_from_slice(b" u")?;
    out.extend_from_slice(Buffer::new().format(amount).as_bytes())?;
    Ok(())
}

pub(crate) fn write_name(out: &mut Vec<u8>, name: &Name) -> Result<(), NoMemory>
    ensures { IfOk result (λ _. out.new.items ≡ out.old.items ++ name_text name.now) }
{
    out.extend_from_slice(b" ")?;
    out.extend_from_slice(name.bytes())?;
    Ok(())
}

pub(crate) fn write_value(out: &mut Vec<u8>, alloc: Global, value: &Val) -> Result<(), NoMemory>
    ensures { IfOk result (λ _. out.new.items ≡ out.old.items ++ value_text value.now) }
{
    out.extend_from_slice(b" ")?;
    let text = print_value(alloc, value)?;
    out.extend_from_slice(&text)?;
    Ok(())
}

pub(crate) fn write_who(
    out: &mut Vec<u8>,
    addresses: &mut AddressCache,
    who: &Principal,
) -> Result<(), NoMemory>
    ensures { IfOk result (λ _. out.new.items ≡ out.old.items ++ who_text who.now) }
{
    out.extend_from_slice(b" ")?;
    addresses.write_principal(out, who)
}

fn write_two(
    out: &mut Vec<u8>,
    addresses: &mut AddressCache,
    from: &Principal,
    to: &Principal,
) -> Result<(), NoMemory>
    ensures { IfOk result (λ _. out.new.items
        ≡ out.old.items ++ (who_text from.now ++ who_text to.now)) }
{
    write_who(out, addresses, from)?;
    write_who(out, addresses, to)
}

fn write_token(out: &mut Vec<u8>, token: &Name, amount: u128) -> Result<(), NoMemory>
    ensures { IfOk result (λ _. out.new.items
        ≡ out.old.items ++ (name_text token.now ++ amount_text amount)) }
{
    write_name(out, token)?;
    write_amount(out, amount)
}

fn write_asset(out: &mut Vec<u8>, alloc: Global, token: &Name, id: &Val) -> Result<(), NoMemory>
    ensures { IfOk result (λ _. out.new.items
        ≡ out.old.items ++ (name_text token.now ++ value_text id.now)) }
{
    write_name(out, token)?;
    write_value(out, alloc, id)
}

#[tactic(auto, unfolding(crate::specs::Events::word_of))]
fn word_of(kind: &EventKind) -> &'static str
    ensures { result.now ≡ word_of kind.now }
{
    match kind {
        EventKind::Print(_) => "  event print",
        EventKind::FtMint { .. } => "  event ft-mint",
        EventKind::FtTransfer { .. } => "  event ft-transfer",
        EventKind::FtBurn { .. } => "  event ft-burn",
        EventKind::NftMint { .. } => "  event nft-mint",
        EventKind::NftTransfer { .. } => "  event nft-transfer",
        EventKind::NftBurn { .. } => "  event nft-burn",
        EventKind::StxTransfer { .. } => "  event stx-transfer",
        EventKind::StxBurn { .. } => "  event stx-burn",
    }
}

#[tactic(auto, unfolding(crate::specs::Events::details))]
fn write_details(
    out: &mut Vec<u8>,
    alloc: Global,
    addresses: &mut AddressCache,
    kind: &EventKind,
) -> Result<(), NoMemory>
    ensures { IfOk result (λ _. out.new.items ≡ out.old.items ++ details kind.now) }
{
    match kind {
        EventKind::Print(value) => write_value(out, alloc, value),
        EventKind::FtMint { token, amount, to } => {
            write_token(out, token, *amount)?;
            write_who(out, addresses, to)
        }
        EventKind::FtTransfer {
            token,
            amount,
            from,
            to,
        } => {
            write_token(out, token, *amount)?;
            write_two(out, addresses, from, to)
        }
        EventKind::FtBurn {
            token,
            amount,
            from,
        } => {
            write_token(out, token, *amount)?;
            write_who(out, addresses, from)
        }
        EventKind::NftMint { token, id, to } => {
            write_asset(out, alloc, token, id)?;
            write_who(out, addresses, to)
        }
        EventKind::NftTransfer {
            token,
            id,
            from,
            to,
        } => {
            write_asset(out, alloc, token, id)?;
            write_two(out, addresses, from, to)
        }
        EventKind::NftBurn { token, id, from } => {
            write_asset(out, alloc, token, id)?;
            write_who(out, addresses, from)
        }
        EventKind::StxTransfer { amount, from, to } => {
            write_amount(out, *amount)?;
            write_two(out, addresses, from, to)
        }
        EventKind::StxBurn { amount, from } => {
            write_amount(out, *amount)?;
            write_who(out, addresses, from)
        }
    }
}

/// Writes the line of an event.
#[tactic(auto, unfolding(crate::specs::Events::event_line))]
pub fn write_event(
    out: &mut Vec<u8>,
    alloc: Global,
    addresses: &mut AddressCache,
    event: &Event,
) -> Result<(), NoMemory>
    ensures { IfOk result (λ _. out.new.items ≡ out.old.items ++ event_line event.now) }
{
    out.extend_from_slice(word_of(&event.kind).as_bytes())?;
    write_who(out, addresses, &event.contract)?;
    write_details(out, alloc, addresses, &event.kind)?;
    out.extend_from_slice(b"\n")?;
    Ok(())
}

/// The line of an event, with the two spaces before it and the LF behind it.
pub fn event_line(alloc: Global, event: &Event) -> Result<Vec<u8>, NoMemory>
    ensures { IfOk result (λ line. line.items ≡ event_line event.now) }
{
    let mut addresses = AddressCache::without_slots(alloc);
    event_line_with(alloc, &mut addresses, event)
}

/// The same line as that of `event_line`, by the texts of addresses that are kept from event to
/// event.
pub fn event_line_with(
    alloc: Global,
    addresses: &mut AddressCache,
    event: &Event,
) -> Result<Vec<u8>, NoMemory>
    ensures { IfOk result (λ line. line.items ≡ event_line event.now) }
{
    let mut line = Vec::new(alloc);
    write_event(&mut line, alloc, addresses, event)?;
    Ok(line)
}
