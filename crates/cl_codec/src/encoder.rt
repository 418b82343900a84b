//! Writing the wire form.
ghost use Rattle.std.specs.Prelude.{◌≡◌, ◌≤◌, ◌<◌, ◌+◌, ◌^◌, ◌++◌, ◌∷◌, IfOk, length, encode_utf8, encode_utf8_all};
ghost use Rattle.std.specs.Int.{w128, cast_unsigned};
ghost use Rattle.cl_values.specs.Tree.{items_of, entries_of, items_count, entries_count};
ghost use Rattle.cl_values.specs.Wire.{wire, body_of, counted, four_bytes, sixteen_bytes, name_wire, contract_wire, items_wire, entries_wire, size_of, items_size, entries_size};

use cl_c32::{ContractName, Principal};
use cl_types::{Name, NoMemory};
use cl_values::{Kind, Val, Value, characters_size, prefix_of};
use std::alloc::Global;

/// The wire form of a value (SIP-005).
pub fn encode(alloc: Global, v: &Val) -> Result<Vec<u8>, NoMemory>
    ensures { IfOk result (λ bytes. bytes.items ≡ wire v.now) }
{
    let mut out = Vec::with_capacity(alloc, v.size() as usize)?;
    write_value(&mut out, v.value())?;
    Ok(out)
}

fn write_bytes(out: &mut Vec<u8>, bytes: &[u8]) -> Result<(), NoMemory>
    ensures { IfOk result (λ _. out.new.items ≡ out.old.items ++ bytes.now) }
{
    out.extend_from_slice(bytes)?;
    Ok(())
}

fn write_int(out: &mut Vec<u8>, number: i128) -> Result<(), NoMemory>
    ensures { IfOk result (λ _. out.new.items ≡ out.old.items ++ sixteen_bytes (cast_unsigned w128 number)) }
{
    write_uint(out, number.cast_unsigned())
}

fn write_uint(out: &mut Vec<u8>, number: u128) -> Result<(), NoMemory>
    ensures { IfOk result (λ _. out.new.items ≡ out.old.items ++ sixteen_bytes number) }
{
    write_bytes(out, &number.to_be_bytes())
}

fn write_count(out: &mut Vec<u8>, count: usize) -> Result<(), NoMemory>
    requires { count < 2 ^ 32 }
    ensures { IfOk result (λ _. out.new.items ≡ out.old.items ++ four_bytes count) }
{
    write_bytes(out, &(count as u32).to_be_bytes())
}

fn write_counted(out: &mut Vec<u8>, bytes: &[u8]) -> Result<(), NoMemory>
    requires { length bytes.now < 2 ^ 32 }
    ensures { IfOk result (λ _. out.new.items ≡ out.old.items ++ counted bytes.now) }
{
    write_count(out, bytes.len())?;
    write_bytes(out, bytes)
}

fn write_character(out: &mut Vec<u8>, character: char) -> Result<(), NoMemory>
    ensures { IfOk result (λ _. out.new.items ≡ out.old.items ++ encode_utf8 character) }
{
    let mut cells = [0; 4];
    let text = character.encode_utf8(&mut cells);
    write_bytes(out, text.as_bytes())
}

fn write_text(out: &mut Vec<u8>, characters: &[char]) -> Result<(), NoMemory>
    ensures { IfOk result (λ _. out.new.items ≡ out.old.items ++ encode_utf8_all characters.now) }
{
    for character in characters {
        write_character(out, *character)?;
    }
    Ok(())
}

fn write_characters(out: &mut Vec<u8>, characters: &[char]) -> Result<(), NoMemory>
    requires { 5 + length (encode_utf8_all characters.now) ≤ 1048576 }
    ensures { IfOk result (λ _. out.new.items ≡ out.old.items ++ counted (encode_utf8_all characters.now)) }
{
    let size = characters_size(characters) - 5;
    write_count(out, size as usize)?;
    write_text(out, characters)
}

fn write_name(out: &mut Vec<u8>, name: &[u8]) -> Result<(), NoMemory>
    requires { length name.now ≤ 255 }
    ensures { IfOk result (λ _. out.new.items ≡ out.old.items ++ name_wire name.now) }
{
    out.push(name.len() as u8)?;
    write_bytes(out, name)
}

fn write_contract(out: &mut Vec<u8>, contract: &Option<ContractName>) -> Result<(), NoMemory>
    ensures { IfOk result (λ _. out.new.items ≡ out.old.items ++ contract_wire contract.now) }
{
    match contract {
        None => Ok(()),
        Some(name) => write_name(out, name.bytes()),
    }
}

fn write_principal(out: &mut Vec<u8>, principal: &Principal) -> Result<(), NoMemory>
    ensures { IfOk result (λ _. out.new.items ≡ out.old.items ++ principal.now.address.version ∷ principal.now.address.hash ++ contract_wire principal.now.contract) }
{
    let address = &principal.address;
    out.push(address.version)?;
    write_bytes(out, &address.hash)?;
    write_contract(out, &principal.contract)
}

#[tactic(auto, using(cl_values::specs::Rows::items_length))]
fn write_item_count(out: &mut Vec<u8>, values: &[Value]) -> Result<(), NoMemory>
    requires { 5 + items_size (items_of values.now) ≤ 1048576 }
    ensures { IfOk result (λ _. out.new.items ≡ out.old.items ++ four_bytes (items_count (items_of values.now))) }
{
    write_count(out, values.len())
}

#[tactic(auto, using(cl_values::specs::Rows::entries_length))]
fn write_entry_count(out: &mut Vec<u8>, entries: &[(Name, Value)]) -> Result<(), NoMemory>
    requires { 5 + entries_size (entries_of entries.now) ≤ 1048576 }
    ensures { IfOk result (λ _. out.new.items ≡ out.old.items ++ four_bytes (entries_count (entries_of entries.now))) }
{
    write_count(out, entries.len())
}

#[cycle(write)]
fn write_value(out: &mut Vec<u8>, value: &Value) -> Result<(), NoMemory>
    requires { size_of value.now ≤ 1048576 }
    ensures { IfOk result (λ _. out.new.items ≡ out.old.items ++ wire value.now) }
{
    out.push(prefix_of(value))?;
    write_body(out, value)
}

/// What follows the prefix.
#[cycle(write)]
fn write_body(out: &mut Vec<u8>, value: &Value) -> Result<(), NoMemory>
    requires { size_of value.now ≤ 1048576 }
    ensures { IfOk result (λ _. out.new.items ≡ out.old.items ++ body_of value.now) }
{
    match &value.kind {
        Kind::Int(number) => write_int(out, *number),
        Kind::Uint(number) => write_uint(out, *number),
        Kind::Bool(_) | Kind::Optional(None) => Ok(()),
        Kind::Buff(bytes) | Kind::Ascii(bytes) => write_counted(out, bytes),
        Kind::Utf8(characters) => write_characters(out, characters),
        Kind::Principal(principal) => write_principal(out, principal),
        Kind::Optional(Some(inner)) => write_value(out, inner),
        Kind::Response { good: _, inner } => write_value(out, inner),
        Kind::List(values) => write_list(out, values),
        Kind::Tuple(entries) => write_tuple(out, entries),
    }
}

#[cycle(write)]
fn write_list(out: &mut Vec<u8>, values: &[Value]) -> Result<(), NoMemory>
    requires { 5 + items_size (items_of values.now) ≤ 1048576 }
    ensures { IfOk result (λ _. out.new.items ≡ out.old.items ++ (four_bytes (items_count (items_of values.now)) ++ items_wire (items_of values.now))) }
{
    write_item_count(out, values)?;
    write_values(out, values)
}

#[cycle(write)]
fn write_values(out: &mut Vec<u8>, values: &[Value]) -> Result<(), NoMemory>
    requires { items_size (items_of values.now) ≤ 1048576 }
    ensures { IfOk result (λ _. out.new.items ≡ out.old.items ++ items_wire (items_of values.now)) }
{
    for value in values {
        write_value(out, value)?;
    }
    Ok(())
}

#[cycle(write)]
fn write_tuple(out: &mut Vec<u8>, entries: &[(Name, Value)]) -> Result<(), NoMemory>
    requires { 5 + entries_size (entries_of entries.now) ≤ 1048576 }
    ensures { IfOk result (λ _. out.new.items ≡ out.old.items ++ (four_bytes (entries_count (entries_of entries.now)) ++ entries_wire (entries_of entries.now))) }
{
    write_entry_count(out, entries)?;
    write_entries(out, entries)
}

#[cycle(write)]
fn write_entries(out: &mut Vec<u8>, entries: &[(Name, Value)]) -> Result<(), NoMemory>
    requires { entries_size (entries_of entries.now) ≤ 1048576 }
    ensures { IfOk result (λ _. out.new.items ≡ out.old.items ++ entries_wire (entries_of entries.now)) }
{
    for entry in entries {
        write_entry(out, entry)?;
    }
    Ok(())
}

#[cycle(write)]
fn write_entry(out: &mut Vec<u8>, entry: &(Name, Value)) -> Result<(), NoMemory>
    requires { size_of entry.now.1 ≤ 1048576 }
    ensures { IfOk result (λ _. out.new.items ≡ out.old.items ++ (name_wire entry.now.0 ++ wire entry.now.1)) }
{
    write_name(out, entry.0.bytes())?;
    write_value(out, &entry.1)
}
