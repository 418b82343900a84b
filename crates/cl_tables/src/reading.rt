//! What the keys of tables spell, read back.
ghost use Rattle.std.specs.Prelude.{◌≡◌, ◌++◌, ℕ, List, Ok, IfOk};
ghost use Rattle.cl_c32.specs.declared.principal.Principal.{Principal};
ghost use Rattle.cl_types.specs.Name.{IsName};
ghost use Rattle.cl_values.specs.Tree.{PrincipalV};
ghost use Rattle.cl_values.specs.Reading.{decoded};
ghost use Rattle.cl_values.specs.Valid.{IsPrincipal, IsVal};
ghost use Rattle.cl_values.specs.Wire.{name_wire};
ghost use Rattle.cl_events.specs.State.{holder, spot};
ghost use Rattle.cl_tables.specs.Spelled.{IsHolder, IsSpot};
ghost use Rattle.cl_tables.specs.Variables.{IsPlace, IsPlaceKey, key_of};
ghost use Rattle.cl_tables.specs.RowParts.{IsSpelling, BeginsWithPrincipal, BeginsWithName, principal_size};

use crate::place::Place;
use cl_c32::Principal;
use cl_codec::decode;
use cl_types::{Fault, Name, NoMemory};
use cl_values::{Kind, Val, read_back};
use std::alloc::Global;

/// The value that bytes spell.
pub(crate) fn value_of(alloc: Global, bytes: &[u8]) -> Result<Val, NoMemory>
    requires { IsSpelling bytes.now }
    ensures { IfOk result (λ v. decoded bytes.now ≡ Ok v) }
{
    read_back();
    match decode(alloc, bytes) {
        Ok(value) => Ok(value),
        Err(Fault::NoMemory) => Err(NoMemory),
        Err(Fault::Refused(_)) => unreachable!(),
    }
}

/// The principal that bytes spell.
pub(crate) fn principal_of(alloc: Global, bytes: &[u8]) -> Result<Principal, NoMemory>
    requires { IsHolder bytes.now }
    ensures spelled { IfOk result (λ who. holder who ≡ bytes.now) }
    ensures valid { IfOk result (λ who. IsPrincipal who) }
    ensures read { IfOk result (λ who. decoded (holder who) ≡ Ok (PrincipalV who)) }
{
    read_back();
    let value = value_of(alloc, bytes)?;
    match &value.value().kind {
        Kind::Principal(who) => Ok(*who),
        _ => unreachable!(),
    }
}

// how many of the bytes spell the principal with which they begin: an address behind the prefix 5, or behind another one an
// address and the name of a contract, whose length stands in front of it (SIP-005)
#[tactic(auto, unfolding(crate::specs::RowParts::principal_size))]
fn principal_size(bytes: &[u8]) -> usize
    requires { BeginsWithPrincipal bytes.now }
    ensures { result ≡ principal_size bytes.now }
{
    if bytes[0] == 5 {
        22
    } else {
        23 + bytes[22] as usize
    }
}

// the bytes of a principal, and those behind it
fn cut_principal(bytes: &[u8]) -> (&[u8], &[u8])
    requires { BeginsWithPrincipal bytes.now }
    ensures { (who : Principal) (rest : List ℕ) → IsPrincipal who → bytes.now ≡ holder who ++ rest → (result.0.now ≡ holder who) × (result.1.now ≡ rest) }
{
    bytes.split_at(principal_size(bytes))
}

// the bytes of a name, and those behind it
fn cut_name(bytes: &[u8]) -> (&[u8], &[u8])
    requires { BeginsWithName bytes.now }
    ensures { (name rest : List ℕ) → bytes.now ≡ name_wire name ++ rest → (result.0.now ≡ name) × (result.1.now ≡ rest) }
{
    bytes[1..].split_at(bytes[0] as usize)
}

// of the contract and the name that bytes spell
fn place_from(alloc: Global, contract: &[u8], name: &[u8]) -> Result<Place, NoMemory>
    requires contract { IsHolder contract.now }
    requires name { IsName name.now }
    ensures place { IfOk result (λ at. IsPlace at) }
    ensures spelled { IfOk result (λ at. key_of at ≡ contract.now ++ name_wire name.now) }
{
    let Some(name) = Name::make(name) else {
        unreachable!();
    };
    let contract = principal_of(alloc, contract)?;
    Ok(Place { contract, name })
}

/// The place that bytes spell.
pub(crate) fn place_of(alloc: Global, bytes: &[u8]) -> Result<Place, NoMemory>
    requires { IsPlaceKey bytes.now }
    ensures place { IfOk result (λ at. IsPlace at) }
    ensures spelled { IfOk result (λ at. bytes.now ≡ key_of at) }
{
    let (contract, behind) = cut_principal(bytes);
    let (name, _end) = cut_name(behind);
    place_from(alloc, contract, name)
}

/// The map and the key in it that bytes spell.
pub(crate) fn spot_of(alloc: Global, bytes: &[u8]) -> Result<(Place, Val), NoMemory>
    requires { IsSpot bytes.now }
    ensures place { IfOk result (λ r. IsPlace r.0) }
    ensures valid { IfOk result (λ r. IsVal r.1) }
    ensures spelled { IfOk result (λ r. bytes.now ≡ spot r.0.contract r.0.name r.1) }
{
    read_back();
    let (contract, behind) = cut_principal(bytes);
    let (name, key) = cut_name(behind);
    let at = place_from(alloc, contract, name)?;
    let key = value_of(alloc, key)?;
    Ok((at, key))
}
