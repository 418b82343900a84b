//! The keys of tables: wire forms (SIP-005) behind one another.
ghost use Rattle.std.specs.Prelude.{◌≡◌, ◌≤◌, ◌++◌, IfOk, length};
ghost use Rattle.cl_values.specs.Tree.{PrincipalV};
ghost use Rattle.cl_values.specs.Wire.{wire, name_wire, contract_wire, principal_prefix};
ghost use Rattle.cl_values.specs.Valid.{IsContractPart, IsPrincipal, IsVal};
ghost use Rattle.cl_events.specs.State.{holder, place, spot};
ghost use Rattle.cl_tables.specs.Variables.{IsPlace};

use crate::place::Place;
use cl_c32::{ContractName, Principal};
use cl_codec::encode;
use cl_tokens::Key;
use cl_types::NoMemory;
use cl_values::Val;
use std::alloc::Global;

fn principal_prefix(contract: &Option<ContractName>) -> u8
    ensures { result ≡ principal_prefix contract.now }
{
    match contract {
        None => 5,
        Some(_) => 6,
    }
}

fn add_bytes(out: &mut Vec<u8>, bytes: &[u8]) -> Result<(), NoMemory>
    ensures { IfOk result (λ _. out.new.items ≡ out.old.items ++ bytes.now) }
{
    out.extend_from_slice(bytes)?;
    Ok(())
}

fn add_name(out: &mut Vec<u8>, name: &[u8]) -> Result<(), NoMemory>
    requires { length name.now ≤ 255 }
    ensures { IfOk result (λ _. out.new.items ≡ out.old.items ++ name_wire name.now) }
{
    out.push(name.len() as u8)?;
    add_bytes(out, name)
}

fn add_contract(out: &mut Vec<u8>, contract: &Option<ContractName>) -> Result<(), NoMemory>
    ensures added { IfOk result (λ _. out.new.items ≡ out.old.items ++ contract_wire contract.now) }
    ensures ranges { IfOk result (λ _. IsContractPart contract.now) }
{
    match contract {
        None => Ok(()),
        Some(name) => add_name(out, name.bytes()),
    }
}

fn add_principal(out: &mut Vec<u8>, who: &Principal) -> Result<(), NoMemory>
    ensures added { IfOk result (λ _. out.new.items ≡ out.old.items ++ wire (PrincipalV who.now)) }
    ensures ranges { IfOk result (λ _. IsPrincipal who.now) }
{
    out.push(principal_prefix(&who.contract))?;
    out.push(who.address.version)?;
    add_bytes(out, &who.address.hash)?;
    add_contract(out, &who.contract)
}

/// The key of a holder.
pub fn holder_key(alloc: Global, who: &Principal) -> Result<Key, NoMemory>
    ensures spelled { IfOk result (λ key. key ≡ holder who.now) }
    ensures ranges { IfOk result (λ _. IsPrincipal who.now) }
{
    let mut bytes = Vec::new(alloc);
    add_principal(&mut bytes, who)?;
    Ok(Key::new(bytes))
}

fn place_bytes(alloc: Global, at: &Place) -> Result<Vec<u8>, NoMemory>
    ensures spelled { IfOk result (λ bytes. bytes.items ≡ place at.now.contract at.now.name) }
    ensures ranges { IfOk result (λ _. IsPlace at.now) }
{
    let mut bytes = Vec::new(alloc);
    add_principal(&mut bytes, &at.contract)?;
    add_name(&mut bytes, at.name.bytes())?;
    Ok(bytes)
}

/// The key of what a contract has under a name.
pub fn place_key(alloc: Global, at: &Place) -> Result<Key, NoMemory>
    ensures spelled { IfOk result (λ key. key ≡ place at.now.contract at.now.name) }
    ensures ranges { IfOk result (λ _. IsPlace at.now) }
{
    Ok(Key::new(place_bytes(alloc, at)?))
}

/// The key of an asset.
pub fn wire_key(alloc: Global, value: &Val) -> Result<Key, NoMemory>
    ensures spelled { IfOk result (λ key. key ≡ wire value.now) }
    ensures valid { IfOk result (λ _. IsVal value.now) }
{
    let _tree = value.value();
    Ok(Key::new(encode(alloc, value)?))
}

/// The key of an entry of a contract's map.
pub fn spot_key(alloc: Global, at: &Place, key: &Val) -> Result<Key, NoMemory>
    ensures spelled { IfOk result (λ spelled. spelled ≡ spot at.now.contract at.now.name key.now) }
    ensures place { IfOk result (λ _. IsPlace at.now) }
    ensures valid { IfOk result (λ _. IsVal key.now) }
{
    let _tree = key.value();
    let mut bytes = place_bytes(alloc, at)?;
    let spelled = encode(alloc, key)?;
    add_bytes(&mut bytes, spelled.as_slice())?;
    Ok(Key::new(bytes))
}
