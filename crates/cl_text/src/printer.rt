//! Writing values and principals as text.
ghost use Rattle.std.specs.Prelude.{◌≡◌, ◌++◌, IfOk, Some, codes, decimal};
ghost use Rattle.std.specs.Fmt.{signed_decimal};
ghost use Rattle.std.specs.List.{flat_map};
ghost use Rattle.hex.specs.Hex.{encode_lower};
ghost use Rattle.cl_values.specs.Tree.{BoolV, items_of, entries_of};
ghost use Rattle.cl_text.specs.Printed.{escape_letter, ascii_text, code_text, unicode_text, quoted, contract_text, principal_text, entry_text, printed, items_text, entries_text, more_text};

use cl_c32::{ContractName, Principal, encode};
use cl_types::{Name, NoMemory};
use cl_values::{Kind, Val, Value};
use itoa::Buffer;
use std::alloc::Global;

/// The text of a value: a literal that stands for it. It is ASCII whatever the value holds.
pub fn print_value(alloc: Global, v: &Val) -> Result<Vec<u8>, NoMemory>
    ensures { IfOk result (λ text. text.items ≡ printed v.now) }
{
    let mut out = Vec::new(alloc);
    write_value(&mut out, alloc, v.value())?;
    Ok(out)
}

/// The text of a principal: `'`, its address in c32check, and for a contract `.` and its name.
pub fn print_principal(alloc: Global, p: &Principal) -> Result<Vec<u8>, NoMemory>
    ensures { IfOk result (λ text. text.items ≡ principal_text p.now) }
{
    let mut out = Vec::new(alloc);
    write_principal(&mut out, p)?;
    Ok(out)
}

/// Some bytes more.
pub(crate) fn write_bytes(out: &mut Vec<u8>, bytes: &[u8]) -> Result<(), NoMemory>
    ensures { IfOk result (λ _. out.new.items ≡ out.old.items ++ bytes.now) }
{
    out.extend_from_slice(bytes)?;
    Ok(())
}

fn write_int(out: &mut Vec<u8>, number: i128) -> Result<(), NoMemory>
    ensures { IfOk result (λ _. out.new.items ≡ out.old.items ++ signed_decimal number) }
{
    let mut digits = Buffer::new();
    write_bytes(out, digits.format(number).as_bytes())
}

fn write_uint(out: &mut Vec<u8>, number: u128) -> Result<(), NoMemory>
    ensures { IfOk result (λ _. out.new.items ≡ out.old.items ++ (codes "u" ++ decimal number)) }
{
    write_bytes(out, b"u")?;
    write_bytes(out, Buffer::new().format(number).as_bytes())
}

fn write_buff(out: &mut Vec<u8>, alloc: Global, bytes: &[u8]) -> Result<(), NoMemory>
    ensures { IfOk result (λ _. out.new.items
        ≡ out.old.items ++ (codes "0x" ++ encode_lower bytes.now)) }
{
    let digits = hex::encode(alloc, bytes)?;
    write_bytes(out, b"0x")?;
    write_bytes(out, digits.as_bytes())
}

// The letter that stands for a character behind a `\`.
fn escape_letter(code: u32) -> Option<u8>
    ensures { result ≡ escape_letter code }
{
    match code {
        34 => Some(b'"'),
        92 => Some(b'\\'),
        10 => Some(b'n'),
        13 => Some(b'r'),
        9 => Some(b't'),
        0 => Some(b'0'),
        _ => None,
    }
}

fn write_ascii_byte(out: &mut Vec<u8>, byte: u8) -> Result<(), NoMemory>
    ensures { IfOk result (λ _. out.new.items ≡ out.old.items ++ ascii_text byte) }
{
    match escape_letter(u32::from(byte)) {
        Some(letter) => write_bytes(out, &[b'\\', letter]),
        None => write_bytes(out, &[byte]),
    }
}

fn write_ascii_bytes(out: &mut Vec<u8>, bytes: &[u8]) -> Result<(), NoMemory>
    ensures { IfOk result (λ _. out.new.items ≡ out.old.items ++ flat_map ascii_text bytes.now) }
{
    for byte in bytes {
        write_ascii_byte(out, *byte)?;
    }
    Ok(())
}

fn write_ascii(out: &mut Vec<u8>, bytes: &[u8]) -> Result<(), NoMemory>
    ensures { IfOk result (λ _. out.new.items
        ≡ out.old.items ++ quoted (flat_map ascii_text bytes.now)) }
{
    write_bytes(out, b"\"")?;
    write_ascii_bytes(out, bytes)?;
    write_bytes(out, b"\"")
}

fn write_code(out: &mut Vec<u8>, alloc: Global, code: u32) -> Result<(), NoMemory>
    ensures { IfOk result (λ _. out.new.items ≡ out.old.items ++ code_text code) }
{
    let text = format!(in alloc; "\\u{{{code:x}}}")?;
    write_bytes(out, text.as_bytes())
}

fn write_character(out: &mut Vec<u8>, alloc: Global, character: char) -> Result<(), NoMemory>
    ensures { IfOk result (λ _. out.new.items ≡ out.old.items ++ unicode_text character) }
{
    let code = u32::from(character);
    match escape_letter(code) {
        Some(letter) => write_bytes(out, &[b'\\', letter]),
        None => {
            if 32 <= code && code <= 126 {
                write_bytes(out, &[code as u8])
            } else {
                write_code(out, alloc, code)
            }
        }
    }
}

fn write_characters(out: &mut Vec<u8>, alloc: Global, characters: &[char]) -> Result<(), NoMemory>
    ensures { IfOk result (λ _. out.new.items ≡ out.old.items ++ flat_map unicode_text characters.now) }
{
    for character in characters {
        write_character(out, alloc, *character)?;
    }
    Ok(())
}

fn write_utf8(out: &mut Vec<u8>, alloc: Global, characters: &[char]) -> Result<(), NoMemory>
    ensures { IfOk result (λ _. out.new.items
        ≡ out.old.items ++ (codes "u" ++ quoted (flat_map unicode_text characters.now))) }
{
    write_bytes(out, b"u\"")?;
    write_characters(out, alloc, characters)?;
    write_bytes(out, b"\"")
}

/// Writes the part of a principal behind its address: for a contract `.` and its name.
pub fn write_contract(out: &mut Vec<u8>, contract: &Option<ContractName>) -> Result<(), NoMemory>
    ensures { IfOk result (λ _. out.new.items ≡ out.old.items ++ contract_text contract.now) }
{
    match contract {
        None => Ok(()),
        Some(name) => {
            write_bytes(out, b".")?;
            write_bytes(out, name.bytes())
        }
    }
}

fn write_principal(out: &mut Vec<u8>, principal: &Principal) -> Result<(), NoMemory>
    ensures { IfOk result (λ _. out.new.items ≡ out.old.items ++ principal_text principal.now) }
{
    write_bytes(out, b"'")?;
    write_bytes(out, encode(&principal.address).bytes())?;
    write_contract(out, &principal.contract)
}

fn write_word(out: &mut Vec<u8>, truth: bool) -> Result<(), NoMemory>
    ensures { IfOk result (λ _. out.new.items ≡ out.old.items ++ printed (BoolV truth)) }
{
    if truth {
        write_bytes(out, b"true")
    } else {
        write_bytes(out, b"false")
    }
}

#[cycle(write)]
fn write_value(out: &mut Vec<u8>, alloc: Global, value: &Value) -> Result<(), NoMemory>
    ensures { IfOk result (λ _. out.new.items ≡ out.old.items ++ printed value.now) }
{
    match &value.kind {
        Kind::Int(number) => write_int(out, *number),
        Kind::Uint(number) => write_uint(out, *number),
        Kind::Bool(truth) => write_word(out, *truth),
        Kind::Buff(bytes) => write_buff(out, alloc, bytes),
        Kind::Ascii(bytes) => write_ascii(out, bytes),
        Kind::Utf8(characters) => write_utf8(out, alloc, characters),
        Kind::Principal(principal) => write_principal(out, principal),
        Kind::List(values) => write_list(out, alloc, values),
        Kind::Tuple(entries) => write_tuple(out, alloc, entries),
        Kind::Optional(None) => write_bytes(out, b"none"),
        Kind::Optional(Some(inner)) => write_wrapped(out, alloc, b"(some ", inner),
        Kind::Response { good: true, inner } => write_wrapped(out, alloc, b"(ok ", inner),
        Kind::Response { good: false, inner } => write_wrapped(out, alloc, b"(err ", inner),
    }
}

#[cycle(write)]
fn write_wrapped(
    out: &mut Vec<u8>,
    alloc: Global,
    front: &[u8],
    value: &Value,
) -> Result<(), NoMemory>
    ensures { IfOk result (λ _. out.new.items
        ≡ out.old.items ++ (front.now ++ (printed value.now ++ codes ")"))) }
{
    write_bytes(out, front)?;
    write_value(out, alloc, value)?;
    write_bytes(out, b")")
}

#[cycle(write)]
fn write_list(out: &mut Vec<u8>, alloc: Global, values: &[Value]) -> Result<(), NoMemory>
    ensures { IfOk result (λ _. out.new.items
        ≡ out.old.items ++ (codes "(list" ++ (items_text (items_of values.now) ++ codes ")"))) }
{
    write_bytes(out, b"(list")?;
    write_items(out, alloc, values)?;
    write_bytes(out, b")")
}

#[cycle(write)]
fn write_items(out: &mut Vec<u8>, alloc: Global, values: &[Value]) -> Result<(), NoMemory>
    ensures { IfOk result (λ _. out.new.items ≡ out.old.items ++ items_text (items_of values.now)) }
{
    for value in values {
        write_bytes(out, b" ")?;
        write_value(out, alloc, value)?;
    }
    Ok(())
}

#[cycle(write)]
fn write_tuple(out: &mut Vec<u8>, alloc: Global, entries: &[(Name, Value)]) -> Result<(), NoMemory>
    ensures { IfOk result (λ _. out.new.items
        ≡ out.old.items ++ (codes "{"
        ++ (entries_text (entries_of entries.now) ++ codes "}"))) }
{
    write_bytes(out, b"{")?;
    write_entries(out, alloc, entries)?;
    write_bytes(out, b"}")
}

#[cycle(write)]
fn write_entries(
    out: &mut Vec<u8>,
    alloc: Global,
    entries: &[(Name, Value)],
) -> Result<(), NoMemory>
    ensures { IfOk result (λ _. out.new.items
        ≡ out.old.items ++ entries_text (entries_of entries.now)) }
{
    match entries.split_first() {
        None => Ok(()),
        Some((first, others)) => {
            write_entry(out, alloc, first)?;
            write_more(out, alloc, others)
        }
    }
}

// The entries behind another, a comma in front of each.
#[cycle(write)]
fn write_more(out: &mut Vec<u8>, alloc: Global, entries: &[(Name, Value)]) -> Result<(), NoMemory>
    ensures { IfOk result (λ _. out.new.items ≡ out.old.items ++ more_text (entries_of entries.now)) }
{
    for entry in entries {
        write_bytes(out, b", ")?;
        write_entry(out, alloc, entry)?;
    }
    Ok(())
}

#[cycle(write)]
fn write_entry(out: &mut Vec<u8>, alloc: Global, entry: &(Name, Value)) -> Result<(), NoMemory>
    ensures { IfOk result (λ _. out.new.items
        ≡ out.old.items ++ entry_text entry.now.0 (printed entry.now.1)) }
{
    write_bytes(out, entry.0.bytes())?;
    write_bytes(out, b": ")?;
    write_value(out, alloc, &entry.1)
}
