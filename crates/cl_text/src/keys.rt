//! The keys of tuples.
ghost use Rattle.std.specs.Prelude.{◌≡◌, IfOk};
ghost use Rattle.std.specs.Option.{option_map};
ghost use Rattle.cl_sexpr.specs.Tree.{forest, pairs};
ghost use Rattle.cl_text.specs.Literal.{are_distinct, are_tuple_keys, is_one, key_in_front, pair_key, pair_keys, keys_of, are_pairs};

use crate::word::name_of;
use cl_sexpr::{Node, Sexpr};
use cl_types::Name;
use std::alloc::{AllocError, Global};
use std::collections::BTreeSet;

fn are_distinct(alloc: Global, keys: &[Name]) -> Result<bool, AllocError>
    ensures { IfOk result (λ test. test ≡ are_distinct keys.now) }
{
    let mut behind = BTreeSet::new(alloc);
    for i in (0..keys.len()).rev() {
        if !behind.insert(keys[i])? {
            return Ok(false);
        }
    }
    Ok(true)
}

fn are_tuple_keys(alloc: Global, keys: &[Name]) -> Result<bool, AllocError>
    ensures { IfOk result (λ test. test ≡ are_tuple_keys keys.now) }
{
    if keys.is_empty() {
        return Ok(false);
    }
    are_distinct(alloc, keys)
}

fn keys_of(alloc: Global, parts: &[(Name, Sexpr)]) -> Result<Vec<Name>, AllocError>
    ensures { IfOk result (λ keys. keys.items ≡ keys_of (pairs parts.now)) }
{
    let mut keys = Vec::with_capacity(alloc, parts.len())?;
    for part in parts {
        keys.push(part.0)?;
    }
    Ok(keys)
}

/// Whether the keys of a tuple are some, and distinct.
pub(crate) fn has_tuple_keys(alloc: Global, parts: &[(Name, Sexpr)]) -> Result<bool, AllocError>
    ensures { IfOk result (λ test. test ≡ are_tuple_keys (keys_of (pairs parts.now))) }
{
    let keys = keys_of(alloc, parts)?;
    are_tuple_keys(alloc, &keys)
}

#[tactic(auto, using(crate::proofs::Rows::one_by_length))]
fn is_one(items: &[Sexpr]) -> bool
    ensures { result ≡ is_one (forest items.now) }
{
    items.len() == 1
}

fn key_in_front(items: &[Sexpr]) -> Option<Name>
    ensures { result ≡ key_in_front (forest items.now) }
{
    let (key, parts) = items.split_first()?;
    if is_one(parts) { name_of(key) } else { None }
}

fn pair_key(item: &Sexpr) -> Option<Name>
    ensures { result ≡ pair_key item.now }
{
    match &item.node {
        Node::List(items) => key_in_front(items),
        _ => None,
    }
}

fn pair_keys(alloc: Global, items: &[Sexpr]) -> Result<Option<Vec<Name>>, AllocError>
    ensures { IfOk result (λ keys. option_map (λ ks. ks.items) keys ≡ pair_keys (forest items.now)) }
{
    let mut keys = Vec::with_capacity(alloc, items.len())?;
    for item in items {
        match pair_key(item) {
            Some(key) => keys.push(key)?,
            None => return Ok(None),
        }
    }
    Ok(Some(keys))
}

/// Whether items are pairs of a key and an item, with keys of a tuple.
pub(crate) fn are_pairs(alloc: Global, items: &[Sexpr]) -> Result<bool, AllocError>
    ensures { IfOk result (λ test. test ≡ are_pairs (pair_keys (forest items.now))) }
{
    match pair_keys(alloc, items)? {
        Some(keys) => are_tuple_keys(alloc, &keys),
        None => Ok(false),
    }
}
