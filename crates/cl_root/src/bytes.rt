//! The bytes of rows.
ghost use Rattle.std.specs.Prelude.{◌≡◌, ◌≤◌, ◌++◌, IfOk, length};
ghost use Rattle.cl_values.specs.Wire.{name_wire};
ghost use Rattle.cl_root.specs.RowBytes.{kind_byte, contract_part, name_part, key_part, key_bytes, value_bytes};

use cl_c32::Principal;
use cl_codec::encode;
use cl_tables::{RowKind, StateRow, holder_key};
use cl_types::{Name, NoMemory};
use cl_values::Val;
use std::alloc::Global;

fn kind_byte(kind: RowKind) -> u8
    ensures { result ≡ kind_byte kind }
{
    match kind {
        RowKind::Variable => 0,
        RowKind::MapEntry => 1,
        RowKind::Balance => 2,
        RowKind::Supply => 3,
        RowKind::Owner => 4,
        RowKind::StxBalance => 5,
    }
}

/// Appends bytes.
fn add_bytes(out: &mut Vec<u8>, bytes: &[u8]) -> Result<(), NoMemory>
    ensures { IfOk result (λ _. out.new.items ≡ out.old.items ++ bytes.now) }
{
    out.extend_from_slice(bytes)?;
    Ok(())
}

/// Appends the wire form of the contract, where the row has one.
fn add_contract(
    out: &mut Vec<u8>,
    alloc: Global,
    contract: &Option<Principal>,
) -> Result<(), NoMemory>
    ensures { IfOk result (λ _. out.new.items ≡ out.old.items ++ contract_part contract.now) }
{
    match contract {
        None => Ok(()),
        Some(contract) => {
            let key = holder_key(alloc, contract)?;
            add_bytes(out, key.bytes())
        }
    }
}

/// Appends the length as one byte, and then the bytes.
fn add_counted(out: &mut Vec<u8>, bytes: &[u8]) -> Result<(), NoMemory>
    requires { length bytes.now ≤ 255 }
    ensures { IfOk result (λ _. out.new.items ≡ out.old.items ++ name_wire bytes.now) }
{
    out.push(bytes.len() as u8)?;
    add_bytes(out, bytes)
}

/// Appends the name with its length, where the row has one.
fn add_name(out: &mut Vec<u8>, name: &Option<Name>) -> Result<(), NoMemory>
    ensures { IfOk result (λ _. out.new.items ≡ out.old.items ++ name_part name.now) }
{
    match name {
        None => Ok(()),
        Some(name) => add_counted(out, name.bytes()),
    }
}

/// Appends the wire form of the key, where the row has one.
fn add_key(out: &mut Vec<u8>, alloc: Global, key: &Option<Val>) -> Result<(), NoMemory>
    ensures { IfOk result (λ _. out.new.items ≡ out.old.items ++ key_part key.now) }
{
    match key {
        None => Ok(()),
        Some(key) => {
            let spelled = encode(alloc, key)?;
            add_bytes(out, spelled.as_slice())
        }
    }
}

#[tactic(auto, unfolding(crate::specs::RowBytes::key_bytes))]
fn key_bytes(alloc: Global, row: &StateRow) -> Result<Vec<u8>, NoMemory>
    ensures { IfOk result (λ key. key.items ≡ key_bytes row.now) }
{
    let mut key = Vec::new(alloc);
    key.push(kind_byte(row.kind))?;
    add_contract(&mut key, alloc, &row.contract)?;
    add_name(&mut key, &row.name)?;
    add_key(&mut key, alloc, &row.key)?;
    Ok(key)
}

/// The key bytes and the value bytes of a row. The key bytes, which no other row of a state has, are one byte for the kind,
/// then, where the row has them, the wire form of the contract (SIP-005), the name after one byte for its length, and the
/// wire form of the key. The value bytes are the wire form of the value.
pub fn row_bytes(alloc: Global, row: &StateRow) -> Result<(Vec<u8>, Vec<u8>), NoMemory>
    ensures key { IfOk result (λ bytes. bytes.0.items ≡ key_bytes row.now) }
    ensures value { IfOk result (λ bytes. bytes.1.items ≡ value_bytes row.now) }
{
    let key = key_bytes(alloc, row)?;
    let value = encode(alloc, &row.value)?;
    Ok((key, value))
}
