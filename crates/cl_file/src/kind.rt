//! Kinds of members.
ghost use Rattle.std.specs.Prelude.{◌≡◌, Option, Some, IfOk, Ok, Err};
ghost use Rattle.serde_json.specs.View.{view};
ghost use Rattle.cl_types.specs.Fault.{IfRefused};
ghost use Rattle.cl_file.specs.Paths.{below, said};
ghost use Rattle.cl_file.specs.Objects.{Texts, Kind as AKind, plain};
ghost use Rattle.cl_file.specs.Kinds.{mode, clarity, code, five, address, deployed_name, whole, principal, contract, token, an_amount, a_literal, some_literals};
ghost use Rattle.serde_json.specs.Find.{as_bool, as_str};

use crate::Row;
use crate::addresses::Addresses;
use crate::literal::{amount, literal, literals};
use crate::path::{Read, bad_member};
use crate::spelling::{
    address, code, contract, deployed_name, five, mode, principal, token, version,
};
use cl_c32::{Address, ContractName, Principal};
use cl_forms::Version;
use cl_post::{Code5, Mode};
use cl_types::{Name, NoMemory};
use cl_values::Val;
use serde_json::Value;
use std::alloc::Global;

/// What a member's value reads as.
pub(crate) trait Kind: Sized + Drop {
    ghost reads: { AKind Self };

    /// Reads the value of the member with this name of the object at the path.
    fn read_at(
        alloc: Global,
        known: &mut Addresses,
        value: &Value,
        path: &str,
        name: &str,
    ) -> Read<Self>
        ensures found { (v : Texts) → IfOk result
            (λ t. reads v.of (below path.now name.now) (view value.now) ≡ Ok t) }
        ensures broken { (v : Texts) → IfRefused result
            (λ r. reads v.of (below path.now name.now) (view value.now) ≡ Err r) };
}

/// The principal of a contract.
#[derive(Clone, Copy)]
pub(crate) struct Contract {
    pub(crate) principal: Principal,
}

// What a value says, or the fault that it says nothing.
#[tactic(auto, unfolding(crate::specs::Paths::said))]
pub(crate) fn said<T: Drop>(alloc: Global, says: Option<T>, path: &str, name: &str) -> Read<T>
    ensures found { IfOk result (λ t. said (below path.now name.now) says ≡ Ok t) }
    ensures broken { IfRefused result (λ r. said (below path.now name.now) says ≡ Err r) }
    ensures some { IfOk result (λ t. says ≡ Some t) }
{
    match says {
        Some(t) => Ok(t),
        None => Err(bad_member(alloc, path, name)),
    }
}

impl Kind for u64 {
    ghost reads = { plain whole };

    fn read_at(
        alloc: Global,
        _known: &mut Addresses,
        value: &Value,
        path: &str,
        name: &str,
    ) -> Read<Self> {
        said(alloc, value.as_u64(), path, name)
    }
}

impl Kind for Mode {
    ghost reads = { plain mode };

    fn read_at(
        alloc: Global,
        _known: &mut Addresses,
        value: &Value,
        path: &str,
        name: &str,
    ) -> Read<Self> {
        said(alloc, mode(value), path, name)
    }
}

impl Kind for Version {
    ghost reads = { plain clarity };

    fn read_at(
        alloc: Global,
        _known: &mut Addresses,
        value: &Value,
        path: &str,
        name: &str,
    ) -> Read<Self> {
        said(alloc, version(value), path, name)
    }
}

impl Kind for Code5 {
    ghost reads = { plain code };

    fn read_at(
        alloc: Global,
        _known: &mut Addresses,
        value: &Value,
        path: &str,
        name: &str,
    ) -> Read<Self> {
        said(alloc, code(value), path, name)
    }
}

impl Kind for [u64; 5] {
    ghost reads = { plain five };

    fn read_at(
        alloc: Global,
        _known: &mut Addresses,
        value: &Value,
        path: &str,
        name: &str,
    ) -> Read<Self> {
        said(alloc, five(value), path, name)
    }
}

impl Kind for Address {
    ghost reads = { plain address };

    fn read_at(
        alloc: Global,
        known: &mut Addresses,
        value: &Value,
        path: &str,
        name: &str,
    ) -> Read<Self> {
        said(alloc, address(known, value), path, name)
    }
}

impl Kind for ContractName {
    ghost reads = { plain deployed_name };

    fn read_at(
        alloc: Global,
        _known: &mut Addresses,
        value: &Value,
        path: &str,
        name: &str,
    ) -> Read<Self> {
        said(alloc, deployed_name(value), path, name)
    }
}

impl Kind for Principal {
    ghost reads = { plain principal };

    fn read_at(
        alloc: Global,
        known: &mut Addresses,
        value: &Value,
        path: &str,
        name: &str,
    ) -> Read<Self> {
        said(alloc, principal(known, value), path, name)
    }
}

impl Kind for Contract {
    ghost reads = { plain contract };

    fn read_at(
        alloc: Global,
        known: &mut Addresses,
        value: &Value,
        path: &str,
        name: &str,
    ) -> Read<Self> {
        said(alloc, contract(known, value), path, name)
    }
}

impl Kind for Name {
    ghost reads = { plain token };

    fn read_at(
        alloc: Global,
        _known: &mut Addresses,
        value: &Value,
        path: &str,
        name: &str,
    ) -> Read<Self> {
        said(alloc, token(value), path, name)
    }
}

impl Kind for bool {
    ghost reads = { plain as_bool };

    fn read_at(
        alloc: Global,
        _known: &mut Addresses,
        value: &Value,
        path: &str,
        name: &str,
    ) -> Read<Self> {
        said(alloc, value.as_bool(), path, name)
    }
}

impl Kind for u128 {
    ghost reads = { an_amount };

    fn read_at(
        alloc: Global,
        _known: &mut Addresses,
        value: &Value,
        path: &str,
        name: &str,
    ) -> Read<Self> {
        let says = amount(alloc, value)?;
        said(alloc, says, path, name)
    }
}

impl Kind for Val {
    ghost reads = { a_literal };

    fn read_at(
        alloc: Global,
        _known: &mut Addresses,
        value: &Value,
        path: &str,
        name: &str,
    ) -> Read<Self> {
        let says = literal(alloc, value)?;
        said(alloc, says, path, name)
    }
}

impl Kind for Row<Val> {
    ghost reads = { some_literals };

    fn read_at(
        alloc: Global,
        _known: &mut Addresses,
        value: &Value,
        path: &str,
        name: &str,
    ) -> Read<Self> {
        let says = literals(alloc, value)?;
        said(alloc, says, path, name)
    }
}

fn text(alloc: Global, value: &Value) -> Result<Option<Row<u8>>, NoMemory>
    ensures { IfOk result (λ o. as_str (view value.now) ≡ o) }
{
    match value.as_str() {
        Some(text) => Ok(Some(Row::new(text.as_bytes().to_vec(alloc)?))),
        None => Ok(None),
    }
}

impl Kind for Row<u8> {
    ghost reads = { plain as_str };

    fn read_at(
        alloc: Global,
        _known: &mut Addresses,
        value: &Value,
        path: &str,
        name: &str,
    ) -> Read<Self> {
        let says = text(alloc, value)?;
        said(alloc, says, path, name)
    }
}
