//! What value an item stands for.
ghost use Rattle.std.specs.Prelude.{◌≡◌, true, List, IfOk, Ok, Err};
ghost use Rattle.std.specs.Option.{ok_or};
ghost use Rattle.std.specs.Ordering.{nat_cmp};
ghost use Rattle.std.specs.Cmp.Lexicographic.{slice_cmp};
ghost use Rattle.std.specs.BTreeMap.{insert_entry};
ghost use Rattle.cl_types.specs.Fault.{IfRefused};
ghost use Rattle.cl_sexpr.specs.Tree.{Named, forest, pairs};
ghost use Rattle.cl_values.specs.Tree.{SomeV, ResponseV, ListV, TupleV, items_of, entries_of};
ghost use Rattle.cl_text.specs.Literal.{leaf_value, are_tuple_keys, are_pairs, pair_keys, keys_of, by_key, made_of, tuple_of, literal, list_literal, sole, literals, pair_entries, pair_entry, entry_in, entries};

use crate::keys::{are_pairs, has_tuple_keys};
use crate::word::{Word, name_of, word_in, word_of};
use cl_sexpr::{Node, Sexpr, Span};
use cl_types::{Fault, Name};
use cl_values::{Kind, Value};
use std::alloc::{AllocError, Global};
use std::collections::BTreeMap;

fn name_literal(span: Span, name: &Name) -> Result<Value, Fault<Span>>
    ensures found { IfOk result (λ v. ok_or (leaf_value (Named name.now)) span ≡ Ok v) }
    ensures broken { IfRefused result (λ part. ok_or (leaf_value (Named name.now)) span ≡ Err part) }
{
    let kind = match word_of(name) {
        Word::True => Kind::Bool(true),
        Word::False => Kind::Bool(false),
        Word::None => Kind::Optional(None),
        _ => return Err(Fault::Refused(span)),
    };
    Ok(Value { kind })
}

/// The value that an item stands for, or the first part of it that is no literal.
#[cycle(literal)]
pub(crate) fn literal(alloc: Global, item: &Sexpr) -> Result<Value, Fault<Span>>
    ensures found { IfOk result (λ v. literal item.now ≡ Ok v) }
    ensures broken { IfRefused result (λ part. literal item.now ≡ Err part) }
{
    let kind = match &item.node {
        Node::Atom(name) => return name_literal(item.span, name),
        Node::Int(number) => Kind::Int(*number),
        Node::Uint(number) => Kind::Uint(*number),
        Node::Buff(bytes) => Kind::Buff(bytes.to_vec(alloc)?),
        Node::Ascii(text) => Kind::Ascii(text.to_vec(alloc)?),
        Node::Utf8(text) => Kind::Utf8(text.to_vec(alloc)?),
        Node::Standing(principal) => Kind::Principal(*principal),
        Node::Local(_) => return Err(Fault::Refused(item.span)),
        Node::List(items) => return list_literal(alloc, item.span, items),
        Node::Tuple(parts) => return tuple_literal(alloc, item.span, parts),
    };
    Ok(Value { kind })
}

#[cycle(literal)]
fn list_literal(alloc: Global, span: Span, items: &[Sexpr]) -> Result<Value, Fault<Span>>
    ensures found { IfOk result (λ v. list_literal span (forest items.now) ≡ Ok v) }
    ensures broken { IfRefused result (λ part. list_literal span (forest items.now) ≡ Err part) }
{
    let Some((head, parts)) = items.split_first() else {
        return Err(Fault::Refused(span));
    };
    match word_in(head) {
        Word::Some => some_literal(alloc, span, parts),
        Word::Ok => response_literal(alloc, span, true, parts),
        Word::Err => response_literal(alloc, span, false, parts),
        Word::List => items_literal(alloc, parts),
        Word::Tuple => pairs_literal(alloc, span, parts),
        _ => Err(Fault::Refused(span)),
    }
}

#[cycle(literal)]
fn some_literal(alloc: Global, span: Span, parts: &[Sexpr]) -> Result<Value, Fault<Span>>
    ensures found { IfOk result (λ v. made_of SomeV (sole span (forest parts.now)) ≡ Ok v) }
    ensures broken { IfRefused result
        (λ part. made_of SomeV (sole span (forest parts.now)) ≡ Err part) }
{
    let inner = Box::new(alloc, sole(alloc, span, parts)?)?;
    Ok(Value {
        kind: Kind::Optional(Some(inner)),
    })
}

#[cycle(literal)]
fn response_literal(
    alloc: Global,
    span: Span,
    good: bool,
    parts: &[Sexpr],
) -> Result<Value, Fault<Span>>
    ensures found { IfOk result (λ v. made_of (ResponseV good) (sole span (forest parts.now)) ≡ Ok v) }
    ensures broken { IfRefused result
        (λ part. made_of (ResponseV good) (sole span (forest parts.now)) ≡ Err part) }
{
    let inner = Box::new(alloc, sole(alloc, span, parts)?)?;
    Ok(Value {
        kind: Kind::Response { good, inner },
    })
}

#[cycle(literal)]
fn sole(alloc: Global, span: Span, parts: &[Sexpr]) -> Result<Value, Fault<Span>>
    ensures found { IfOk result (λ v. sole span (forest parts.now) ≡ Ok v) }
    ensures broken { IfRefused result (λ part. sole span (forest parts.now) ≡ Err part) }
{
    let Some((item, others)) = parts.split_first() else {
        return Err(Fault::Refused(span));
    };
    if !others.is_empty() {
        return Err(Fault::Refused(span));
    }
    literal(alloc, item)
}

#[cycle(literal)]
fn items_literal(alloc: Global, items: &[Sexpr]) -> Result<Value, Fault<Span>>
    ensures found { IfOk result
        (λ v. made_of (λ vs. ListV (items_of vs)) (literals (forest items.now)) ≡ Ok v) }
    ensures broken { IfRefused result
        (λ part. made_of (λ vs. ListV (items_of vs)) (literals (forest items.now)) ≡ Err part) }
{
    let values = literals(alloc, items)?;
    Ok(Value {
        kind: Kind::List(values),
    })
}

#[cycle(literal)]
fn literals(alloc: Global, items: &[Sexpr]) -> Result<Vec<Value>, Fault<Span>>
    ensures found { IfOk result (λ vs. literals (forest items.now) ≡ Ok vs.items) }
    ensures broken { IfRefused result (λ part. literals (forest items.now) ≡ Err part) }
{
    let mut values = Vec::with_capacity(alloc, items.len())?;
    for item in items {
        values.push(literal(alloc, item)?)?;
    }
    Ok(values)
}

// A tuple's entries, in the order of their keys.
fn tuple_value(alloc: Global, sorted: BTreeMap<Name, Value>) -> Result<Value, AllocError>
    ensures { IfOk result (λ v. v ≡ TupleV (entries_of sorted.entries)) }
{
    let entries = sorted.into_iter().collect(alloc)?;
    Ok(Value {
        kind: Kind::Tuple(entries),
    })
}

// An entry goes into the map, and the value that it replaces is let go of.
fn put(sorted: &mut BTreeMap<Name, Value>, key: Name, value: Value) -> Result<(), AllocError>
    ensures { IfOk result (λ _. sorted.new.entries
        ≡ insert_entry (slice_cmp nat_cmp) sorted.old.entries key value) }
{
    sorted.insert(key, value)?;
    Ok(())
}

#[cycle(literal)]
fn pairs_literal(alloc: Global, span: Span, items: &[Sexpr]) -> Result<Value, Fault<Span>>
    ensures found { IfOk result
        (λ v. tuple_of span (are_pairs (pair_keys (forest items.now)))
        (pair_entries (forest items.now)) ≡ Ok v) }
    ensures broken { IfRefused result
        (λ part. tuple_of span (are_pairs (pair_keys (forest items.now)))
        (pair_entries (forest items.now)) ≡ Err part) }
{
    if !are_pairs(alloc, items)? {
        return Err(Fault::Refused(span));
    }
    let sorted = pair_entries(alloc, items)?;
    Ok(tuple_value(alloc, sorted)?)
}

#[cycle(literal)]
fn pair_entries(alloc: Global, items: &[Sexpr]) -> Result<BTreeMap<Name, Value>, Fault<Span>>
    ensures found { IfOk result
        (λ sorted. made_of by_key (pair_entries (forest items.now)) ≡ Ok sorted.entries) }
    ensures broken { IfRefused result
        (λ part. made_of by_key (pair_entries (forest items.now)) ≡ Err part) }
{
    let mut sorted = BTreeMap::new(alloc);
    for item in items {
        let (key, value) = pair_entry(alloc, item)?;
        put(&mut sorted, key, value)?;
    }
    Ok(sorted)
}

#[cycle(literal)]
fn pair_entry(alloc: Global, item: &Sexpr) -> Result<(Name, Value), Fault<Span>>
    ensures found { IfOk result (λ entry. pair_entry item.now ≡ Ok entry) }
    ensures broken { IfRefused result (λ part. pair_entry item.now ≡ Err part) }
{
    match &item.node {
        Node::List(items) => entry_in(alloc, item.span, items),
        _ => Err(Fault::Refused(item.span)),
    }
}

#[cycle(literal)]
fn entry_in(alloc: Global, span: Span, items: &[Sexpr]) -> Result<(Name, Value), Fault<Span>>
    ensures found { IfOk result (λ entry. entry_in span (forest items.now) ≡ Ok entry) }
    ensures broken { IfRefused result (λ part. entry_in span (forest items.now) ≡ Err part) }
{
    let Some((first, parts)) = items.split_first() else {
        return Err(Fault::Refused(span));
    };
    let Some(key) = name_of(first) else {
        return Err(Fault::Refused(span));
    };
    let value = sole(alloc, span, parts)?;
    Ok((key, value))
}

#[cycle(literal)]
fn tuple_literal(alloc: Global, span: Span, parts: &[(Name, Sexpr)]) -> Result<Value, Fault<Span>>
    ensures found { IfOk result
        (λ v. tuple_of span (are_tuple_keys (keys_of (pairs parts.now))) (entries (pairs parts.now))
        ≡ Ok v) }
    ensures broken { IfRefused result
        (λ part. tuple_of span (are_tuple_keys (keys_of (pairs parts.now)))
        (entries (pairs parts.now)) ≡ Err part) }
{
    if !has_tuple_keys(alloc, parts)? {
        return Err(Fault::Refused(span));
    }
    let sorted = entries(alloc, parts)?;
    Ok(tuple_value(alloc, sorted)?)
}

#[cycle(literal)]
fn entries(alloc: Global, parts: &[(Name, Sexpr)]) -> Result<BTreeMap<Name, Value>, Fault<Span>>
    ensures found { IfOk result
        (λ sorted. made_of by_key (entries (pairs parts.now)) ≡ Ok sorted.entries) }
    ensures broken { IfRefused result (λ part. made_of by_key (entries (pairs parts.now)) ≡ Err part) }
{
    let mut sorted = BTreeMap::new(alloc);
    for part in parts {
        let value = literal(alloc, &part.1)?;
        put(&mut sorted, part.0, value)?;
    }
    Ok(sorted)
}
