//! Conditions.
ghost use Rattle.std.specs.Prelude.{◌≡◌, [], IfOk, Ok, Err};
ghost use Rattle.serde_json.specs.View.{view, items_view};
ghost use Rattle.cl_types.specs.Fault.{IfRefused};
ghost use Rattle.cl_file.specs.Paths.{each_from};
ghost use Rattle.cl_file.specs.Objects.{Texts};
ghost use Rattle.cl_file.specs.Conditions.{sent_test, stx, ft, nft, condition_by, condition, condition_at, post};

use crate::Conditions;
use crate::addresses::Addresses;
use crate::kind::{Contract, Kind};
use crate::names::{ConditionKind, Object, condition_kind};
use crate::object::{object, sole};
use crate::path::{Read, bad_member, bad_value, below, lone_field, place};
use cl_c32::Principal;
use cl_events::Asset;
use cl_post::{Code5, Condition, Test};
use cl_types::{Fault, Name};
use cl_values::Val;
use serde_json::Value;
use std::alloc::Global;

fn stx(alloc: Global, known: &mut Addresses, value: &Value, path: &str) -> Read<Condition>
    ensures found { (v : Texts) → IfOk result (λ c. stx v.of path.now (view value.now) ≡ Ok c) }
    ensures broken { (v : Texts) → IfRefused result
        (λ r. stx v.of path.now (view value.now) ≡ Err r) }
{
    let (principal, (code, (amount, ()))): (Principal, (Code5, (u128, ()))) = object(
        alloc,
        known,
        value,
        path,
        Object::Stx,
    )?;
    Ok(Condition {
        principal,
        asset: Asset::Stx,
        test: Test::Amount(code, amount),
    })
}

fn ft(alloc: Global, known: &mut Addresses, value: &Value, path: &str) -> Read<Condition>
    ensures found { (v : Texts) → IfOk result (λ c. ft v.of path.now (view value.now) ≡ Ok c) }
    ensures broken { (v : Texts) → IfRefused result
        (λ r. ft v.of path.now (view value.now) ≡ Err r) }
{
    let (principal, (contract, (token, (code, (amount, ()))))): (
        Principal,
        (Contract, (Name, (Code5, (u128, ())))),
    ) = object(alloc, known, value, path, Object::Ft)?;
    Ok(Condition {
        principal,
        asset: Asset::Ft(contract.principal, token),
        test: Test::Amount(code, amount),
    })
}

fn sent_test(sent: bool) -> Test
    ensures { result ≡ sent_test sent }
{
    if sent { Test::Sent } else { Test::NotSent }
}

fn nft(alloc: Global, known: &mut Addresses, value: &Value, path: &str) -> Read<Condition>
    ensures found { (v : Texts) → IfOk result (λ c. nft v.of path.now (view value.now) ≡ Ok c) }
    ensures broken { (v : Texts) → IfRefused result
        (λ r. nft v.of path.now (view value.now) ≡ Err r) }
{
    let (principal, (contract, (token, (id, (sent, ()))))): (
        Principal,
        (Contract, (Name, (Val, (bool, ())))),
    ) = object(alloc, known, value, path, Object::Nft)?;
    Ok(Condition {
        principal,
        asset: Asset::Nft(contract.principal, token, id),
        test: sent_test(sent),
    })
}

fn condition_by(
    alloc: Global,
    known: &mut Addresses,
    kind: Option<ConditionKind>,
    value: &Value,
    path: &str,
) -> Read<Condition>
    ensures found { (v : Texts) → IfOk result
        (λ c. condition_by kind v.of path.now (view value.now) ≡ Ok c) }
    ensures broken { (v : Texts) → IfRefused result
        (λ r. condition_by kind v.of path.now (view value.now) ≡ Err r) }
{
    match kind {
        Some(ConditionKind::Stx) => stx(alloc, known, value, path),
        Some(ConditionKind::Ft) => ft(alloc, known, value, path),
        Some(ConditionKind::Nft) => nft(alloc, known, value, path),
        None => Err(lone_field(alloc, path)),
    }
}

fn condition(alloc: Global, known: &mut Addresses, value: &Value, path: &str) -> Read<Condition>
    ensures found { (v : Texts) → IfOk result
        (λ c. condition v.of path.now (view value.now) ≡ Ok c) }
    ensures broken { (v : Texts) → IfRefused result
        (λ r. condition v.of path.now (view value.now) ≡ Err r) }
{
    let Some((name, value)) = sole(value) else {
        return Err(bad_value(alloc, path));
    };
    let path = below(alloc, path, name)?;
    condition_by(alloc, known, condition_kind(name), value, path.as_str())
}

/// The conditions of an array at the path.
pub(crate) fn conditions(
    alloc: Global,
    known: &mut Addresses,
    list: &[Value],
    path: &str,
) -> Read<Conditions>
    ensures found { (v : Texts) → IfOk result
        (λ cs. each_from (condition_at v.of) path.now [] 0 (items_view list.now) ≡ Ok cs) }
    ensures broken { (v : Texts) → IfRefused result
        (λ r. each_from (condition_at v.of) path.now [] 0 (items_view list.now) ≡ Err r) }
{
    let mut read = Vec::new(alloc);
    for i in 0..list.len() {
        let at = place(alloc, path, i)?;
        let next = condition(alloc, known, &list[i], at.as_str())?;
        read.push(next)?;
    }
    // There are never so many: a file has fewer bytes.
    if read.len() > u32::MAX as usize {
        return Err(Fault::NoMemory);
    }
    Ok(Conditions::new(read))
}

impl Kind for Conditions {
    ghost reads = { post };

    fn read_at(
        alloc: Global,
        known: &mut Addresses,
        value: &Value,
        path: &str,
        name: &str,
    ) -> Read<Self> {
        let Some(list) = value.as_array() else {
            return Err(bad_member(alloc, path, name));
        };
        let path = below(alloc, path, name)?;
        conditions(alloc, known, list.as_slice(), path.as_str())
    }
}
