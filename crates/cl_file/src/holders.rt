//! The holders of the first state.
ghost use Rattle.std.specs.Prelude.{◌≡◌, ◌<◌, ◌+◌, ◌^◌, nat_lt, ◌++◌, ◌∷◌, [], ℕ, false, codes, IfOk, IfSome, OnOk, Ok, Err};
ghost use Rattle.indexmap.specs.IndexMap.{spare};
ghost use Rattle.serde_json.specs.View.{view, items_view};
ghost use Rattle.cl_types.specs.Fault.{IfRefused};
ghost use Rattle.cl_file.specs.Paths.{each_from};
ghost use Rattle.cl_file.specs.Objects.{Texts, plain, needed};
ghost use Rattle.cl_file.specs.Files.{holds, AreOnce, new_holder, holder_at, total};
ghost use Rattle.cl_post.specs.Post.{fitting};

use crate::addresses::Addresses;
use crate::kind::said;
use crate::member::Member;
use crate::names::{Object, names_of};
use crate::object::only;
use crate::path::{Read, field, place};
use crate::spelling::principal;
use cl_c32::{Address, ContractName, Principal};
use cl_keyed::HashKey;
use cl_types::NoMemory;
use indexmap::IndexMap;
use serde_json::Value;
use std::alloc::Global;

type Holders = IndexMap<Principal, u128, HashKey>;

fn holds(holders: &Holders, principal: &Principal) -> bool
    ensures { result ≡ holds holders.now.entries principal.now }
{
    holders.contains_key(principal)
}

// A principal that holds nothing yet.
fn new_holder(known: &mut Addresses, holders: &Holders, value: &Value) -> Option<Principal>
    ensures value { result ≡ new_holder holders.now.entries (view value.now) }
    ensures new { IfSome result (λ p. holds holders.now.entries p ≡ false) }
{
    match principal(known, value) {
        Some(principal) => {
            if holds(holders, &principal) {
                None
            } else {
                Some(principal)
            }
        }
        None => None,
    }
}

fn holder_principal(
    alloc: Global,
    known: &mut Addresses,
    holders: &Holders,
    object: &Value,
    path: &str,
) -> Read<Principal>
    ensures found { (v : Texts) → IfOk result
        (λ p. needed (plain (new_holder holders.now.entries)) v.of path.now (codes "principal") (view object.now) ≡ Ok p) }
    ensures broken { (v : Texts) → IfRefused result
        (λ r. needed (plain (new_holder holders.now.entries)) v.of path.now (codes "principal") (view object.now) ≡ Err r) }
    ensures new { IfOk result (λ p. holds holders.now.entries p ≡ false) }
{
    match object.get("principal") {
        Some(value) => said(alloc, new_holder(known, holders, value), path, "principal"),
        None => Err(field(alloc, path, "principal")),
    }
}

fn holder(
    alloc: Global,
    known: &mut Addresses,
    holders: &Holders,
    value: &Value,
    path: &str,
) -> Read<(Principal, u128)>
    ensures found { (v : Texts) → IfOk result
        (λ h. holder_at v.of holders.now.entries path.now (view value.now) ≡ Ok h) }
    ensures broken { (v : Texts) → IfRefused result
        (λ r. holder_at v.of holders.now.entries path.now (view value.now) ≡ Err r) }
    ensures new { IfOk result (λ h. holds holders.now.entries h.0 ≡ false) }
{
    only(alloc, value, path, names_of(Object::Holder))?;
    let principal = holder_principal(alloc, known, holders, value, path)?;
    let amount: u128 = Member::read(alloc, known, value, path, "stx")?;
    Ok((principal, amount))
}

// A sum and an amount; None where it is above 2^128-1.
fn added(sum: Option<u128>, amount: u128) -> Option<u128>
    ensures { (n : ℕ) → sum ≡ fitting n → result ≡ fitting (n + amount) }
{
    match sum {
        Some(sum) => sum.checked_add(amount),
        None => None,
    }
}

// One more holder, who holds nothing yet, and for whom there is room. It takes the parts of a
// principal, since this kit can't prove an insertion into a map of numbers in a function whose
// signature doesn't name `ContractName`.
fn add(holders: &mut Holders, address: Address, contract: Option<ContractName>, amount: u128)
    requires room { 0 < spare holders.old }
    requires new { holds holders.old.entries (record { address = address; contract = contract })
        ≡ false }
    ensures { holders.new.entries
        ≡ holders.old.entries ++ (record { address = address; contract = contract }, amount) ∷ [] }
{
    match holders.insert(Principal { address, contract }, amount) {
        Ok(_) => {}
        Err(_) => unreachable!(),
    }
}

// One more holder, who holds nothing yet.
fn grow(holders: &mut Holders, principal: Principal, amount: u128) -> Result<(), NoMemory>
    requires { holds holders.old.entries principal ≡ false }
    ensures { OnOk result (holders.new.entries ≡ holders.old.entries ++ (principal, amount) ∷ []) }
{
    holders.reserve(1)?;
    add(holders, principal.address, principal.contract, amount);
    Ok(())
}

// Reads the holders of an array at the path, where none is held yet. The map is borrowed, so what
// stops the reading lets go of a path alone.
fn fill(
    alloc: Global,
    known: &mut Addresses,
    held: &mut Holders,
    list: &[Value],
    path: &str,
) -> Read<()>
    requires { held.old.entries ≡ [] }
    ensures found { (v : Texts) → OnOk result
        (each_from (holder_at v.of) path.now [] 0 (items_view list.now) ≡ Ok held.new.entries) }
    ensures broken { (v : Texts) → IfRefused result
        (λ r. each_from (holder_at v.of) path.now [] 0 (items_view list.now) ≡ Err r) }
    ensures once { OnOk result (AreOnce [] held.new.entries) }
{
    for i in 0..list.len() {
        let at = place(alloc, path, i)?;
        let (principal, amount) = holder(alloc, known, held, &list[i], at.as_str())?;
        grow(held, principal, amount)?;
    }
    Ok(())
}

/// The holders of an array at the path, in a table that hashes by the key.
pub(crate) fn holders(
    alloc: Global,
    hash_key: HashKey,
    known: &mut Addresses,
    list: &[Value],
    path: &str,
) -> Read<Holders>
    ensures found { (v : Texts) → IfOk result
        (λ h. each_from (holder_at v.of) path.now [] 0 (items_view list.now) ≡ Ok h.entries) }
    ensures broken { (v : Texts) → IfRefused result
        (λ r. each_from (holder_at v.of) path.now [] 0 (items_view list.now) ≡ Err r) }
    ensures once { IfOk result (λ h. AreOnce [] h.entries) }
{
    let mut held = IndexMap::with_hasher(alloc, hash_key);
    fill(alloc, known, &mut held, list, path)?;
    Ok(held)
}

// What holders have together; None where that is above 2^128-1.
fn total(holders: &Holders) -> Option<u128>
    ensures { result ≡ fitting (total holders.now.entries) }
{
    let mut sum = Some(0);
    for i in 0..holders.len() {
        let Some((_principal, amount)) = holders.get_index(i) else {
            unreachable!()
        };
        sum = added(sum, *amount);
    }
    sum
}

/// Whether what holders have together is below 2^128.
pub(crate) fn fits(holders: &Holders) -> bool
    ensures { result ≡ nat_lt (total holders.now.entries) (2 ^ 128) }
{
    total(holders).is_some()
}

/// The holders as a list.
pub(crate) fn listed(alloc: Global, holders: &Holders) -> Result<Vec<(Principal, u128)>, NoMemory>
    ensures { IfOk result (λ list. list.items ≡ holders.now.entries) }
{
    let mut list = Vec::new(alloc);
    for i in 0..holders.len() {
        let Some((principal, amount)) = holders.get_index(i) else {
            unreachable!()
        };
        list.push((*principal, *amount))?;
    }
    Ok(list)
}
