//! Reading the wire form.
ghost use Rattle.std.specs.Prelude.{◌≡◌, ◌∷◌, IfOk, Ok, Err, Option, Some, None, List};
ghost use Rattle.cl_types.specs.Fault.{IfRefused};
ghost use Rattle.cl_values.specs.Tree.{items_of, entries_of};
ghost use Rattle.cl_values.specs.Reading.{decoded, place, read_value, read_if_prefix, prefix_at, read_some, read_response, read_list, read_items, read_tuple, read_entries};
ghost use Rattle.cl_values.specs.View.{tree_of};
ghost use Rattle.cl_codec.specs.Entry.{read_entry};

use crate::leaves::{
    read_ascii, read_buff, read_contract, read_int, read_standard, read_uint, read_utf8,
};
use crate::parts::{place, read_count, read_key, split_first};
use cl_types::{Fault, Name};
use cl_values::{DecodeRefusal, Kind, Val, Value, reads_only_spellings};
use std::alloc::Global;

/// The value that bytes spell (SIP-005), or the first fault with its place. Time and memory are linear
/// in the number of bytes: nothing is taken for entries that aren't there.
pub fn decode(alloc: Global, bytes: &[u8]) -> Result<Val, Fault<DecodeRefusal>>
    ensures found { IfOk result (λ v. decoded bytes.now ≡ Ok v) }
    ensures broken { IfRefused result (λ fault. decoded bytes.now ≡ Err fault) }
{
    if bytes.len() > Val::MOST_SIZE as usize {
        return Err(Fault::Refused(DecodeRefusal::TooLong));
    }
    let total = bytes.len() as u32;
    match read_value(alloc, Val::MOST_DEPTH, total, bytes) {
        Err(fault) => Err(fault),
        Ok((value, rest)) => {
            if !rest.is_empty() {
                let at = place(total, rest);
                return Err(Fault::Refused(DecodeRefusal::Extra { at }));
            }
            // What was read is within the limits, so nothing is refused here.
            reads_only_spellings();
            match Val::make(value) {
                Ok(value) => Ok(value),
                Err(_) => unreachable!(),
            }
        }
    }
}

/// A value of at most so many levels.
#[cycle(read)]
fn read_value(
    alloc: Global,
    levels: u32,
    total: u32,
    bytes: &[u8],
) -> Result<(Value, &[u8]), Fault<DecodeRefusal>>
    ensures found { IfOk result (λ p. read_value levels total bytes.now ≡ Ok (p.0, p.1.now)) }
    ensures broken { IfRefused result (λ fault. read_value levels total bytes.now ≡ Err fault) }
{
    let (prefix, rest) = split_first(total, bytes)?;
    let at = place(total, bytes);
    if levels == 0 {
        return Err(Fault::Refused(DecodeRefusal::TooDeep { at }));
    }
    match read_kind(alloc, levels - 1, total, at, prefix, rest) {
        Err(fault) => Err(fault),
        Ok((kind, rest)) => Ok((Value { kind }, rest)),
    }
}

/// What stands behind the byte `prefix`, which stands at `at`, with values of at most so many levels inside.
#[cycle(read)]
fn read_kind(
    alloc: Global,
    levels: u32,
    total: u32,
    at: u32,
    prefix: u8,
    bytes: &[u8],
) -> Result<(Kind, &[u8]), Fault<DecodeRefusal>>
    requires { at ≡ place total (prefix ∷ bytes.now) }
    ensures found { IfOk result (λ p. read_if_prefix (read_value levels total) total prefix (prefix_at prefix) bytes.now ≡ Ok (tree_of p.0, p.1.now)) }
    ensures broken { IfRefused result (λ fault. read_if_prefix (read_value levels total) total prefix (prefix_at prefix) bytes.now ≡ Err fault) }
{
    match prefix {
        0 => read_int(total, bytes),
        1 => read_uint(total, bytes),
        2 => read_buff(alloc, total, bytes),
        3 => Ok((Kind::Bool(true), bytes)),
        4 => Ok((Kind::Bool(false), bytes)),
        5 => read_standard(total, bytes),
        6 => read_contract(total, bytes),
        7 => read_response(alloc, true, levels, total, bytes),
        8 => read_response(alloc, false, levels, total, bytes),
        9 => Ok((Kind::Optional(None), bytes)),
        10 => read_some(alloc, levels, total, bytes),
        11 => read_list(alloc, levels, total, bytes),
        12 => read_tuple(alloc, levels, total, bytes),
        13 => read_ascii(alloc, total, bytes),
        14 => read_utf8(alloc, total, bytes),
        _ => Err(Fault::Refused(DecodeRefusal::BadPrefix { at })),
    }
}

#[cycle(read)]
fn read_some(
    alloc: Global,
    levels: u32,
    total: u32,
    bytes: &[u8],
) -> Result<(Kind, &[u8]), Fault<DecodeRefusal>>
    ensures found { IfOk result (λ p. read_some (read_value levels total bytes.now) ≡ Ok (tree_of p.0, p.1.now)) }
    ensures broken { IfRefused result (λ fault. read_some (read_value levels total bytes.now) ≡ Err fault) }
{
    match read_value(alloc, levels, total, bytes) {
        Err(fault) => Err(fault),
        Ok((value, rest)) => {
            let inner = Box::new(alloc, value)?;
            Ok((Kind::Optional(Some(inner)), rest))
        }
    }
}

#[cycle(read)]
fn read_response(
    alloc: Global,
    good: bool,
    levels: u32,
    total: u32,
    bytes: &[u8],
) -> Result<(Kind, &[u8]), Fault<DecodeRefusal>>
    ensures found { IfOk result (λ p. read_response good (read_value levels total bytes.now) ≡ Ok (tree_of p.0, p.1.now)) }
    ensures broken { IfRefused result (λ fault. read_response good (read_value levels total bytes.now) ≡ Err fault) }
{
    match read_value(alloc, levels, total, bytes) {
        Err(fault) => Err(fault),
        Ok((value, rest)) => {
            let inner = Box::new(alloc, value)?;
            Ok((Kind::Response { good, inner }, rest))
        }
    }
}

#[cycle(read)]
fn read_list(
    alloc: Global,
    levels: u32,
    total: u32,
    bytes: &[u8],
) -> Result<(Kind, &[u8]), Fault<DecodeRefusal>>
    ensures found { IfOk result (λ p. read_list (read_value levels total) total bytes.now ≡ Ok (tree_of p.0, p.1.now)) }
    ensures broken { IfRefused result (λ fault. read_list (read_value levels total) total bytes.now ≡ Err fault) }
{
    let (count, more) = read_count(total, bytes)?;
    match read_items(alloc, levels, total, count, more) {
        Err(fault) => Err(fault),
        Ok((values, rest)) => Ok((Kind::List(values), rest)),
    }
}

/// So many values. The row grows with each value that is there.
#[cycle(read)]
fn read_items(
    alloc: Global,
    levels: u32,
    total: u32,
    count: u32,
    bytes: &[u8],
) -> Result<(Vec<Value>, &[u8]), Fault<DecodeRefusal>>
    ensures found { IfOk result (λ p. read_items (read_value levels total) count bytes.now ≡ Ok (items_of p.0.items, p.1.now)) }
    ensures broken { IfRefused result (λ fault. read_items (read_value levels total) count bytes.now ≡ Err fault) }
{
    let mut values = Vec::new(alloc);
    let mut left = count;
    let mut rest = bytes;
    while left > 0 {
        match read_value(alloc, levels, total, rest) {
            Err(fault) => return Err(fault),
            Ok((value, more)) => {
                values.push(value)?;
                rest = more;
                left -= 1;
            }
        }
    }
    Ok((values, rest))
}

#[cycle(read)]
fn read_tuple(
    alloc: Global,
    levels: u32,
    total: u32,
    bytes: &[u8],
) -> Result<(Kind, &[u8]), Fault<DecodeRefusal>>
    ensures found { IfOk result (λ p. read_tuple (read_value levels total) total bytes.now ≡ Ok (tree_of p.0, p.1.now)) }
    ensures broken { IfRefused result (λ fault. read_tuple (read_value levels total) total bytes.now ≡ Err fault) }
{
    let (count, more) = read_count(total, bytes)?;
    if count == 0 {
        let at = place(total, bytes);
        return Err(Fault::Refused(DecodeRefusal::NoKeys { at }));
    }
    match read_entries(alloc, levels, total, count, more) {
        Err(fault) => Err(fault),
        Ok((entries, rest)) => Ok((Kind::Tuple(entries), rest)),
    }
}

/// So many entries. The row grows with each entry that is there.
#[cycle(read)]
fn read_entries(
    alloc: Global,
    levels: u32,
    total: u32,
    count: u32,
    bytes: &[u8],
) -> Result<(Vec<(Name, Value)>, &[u8]), Fault<DecodeRefusal>>
    ensures found { IfOk result (λ p. read_entries (read_value levels total) total None count bytes.now ≡ Ok (entries_of p.0.items, p.1.now)) }
    ensures broken { IfRefused result (λ fault. read_entries (read_value levels total) total None count bytes.now ≡ Err fault) }
{
    let mut entries = Vec::new(alloc);
    let mut last = None;
    let mut left = count;
    let mut rest = bytes;
    while left > 0 {
        match read_entry(alloc, levels, total, &last, rest) {
            Err(fault) => return Err(fault),
            Ok((entry, more)) => {
                last = Some(entry.0);
                entries.push(entry)?;
                rest = more;
                left -= 1;
            }
        }
    }
    Ok((entries, rest))
}

/// A key above the last one, with its value.
#[cycle(read)]
fn read_entry<'a>(
    alloc: Global,
    levels: u32,
    total: u32,
    last: &Option<Name>,
    bytes: &'a [u8],
) -> Result<((Name, Value), &'a [u8]), Fault<DecodeRefusal>>
    ensures found { IfOk result (λ p. read_entry (read_value levels total) total last.now bytes.now ≡ Ok (p.0, p.1.now)) }
    ensures broken { IfRefused result (λ fault. read_entry (read_value levels total) total last.now bytes.now ≡ Err fault) }
{
    match read_key(total, last, bytes) {
        Err(fault) => Err(fault),
        Ok((key, behind)) => match read_value(alloc, levels, total, behind) {
            Err(fault) => Err(fault),
            Ok((value, rest)) => Ok(((key, value), rest)),
        },
    }
}
