//! The calls on sequences and the order of values that ask for values at which there is an answer.
ghost use Rattle.std.specs.Prelude.{◌≡◌, ◌≤◌, IfOk, IsSome};
ghost use Rattle.cl_values.specs.Contents.{content_order};
ghost use Rattle.cl_values.specs.Tree.{BuffV, AsciiV, ListV, NoItem, depth_of};

use cl_seq::{append, concat, element_at, replace_at, slice, uint_value};
use cl_values::{Kind, Val, Value, content_order};
use std::alloc::Global;
use std::cmp::Ordering;
use std::test::Fail;

fn valid(value: Value) -> Result<Val, Fail>
    requires { depth_of value ≤ 128 }
    ensures { IfOk result (λ v. v ≡ value) }
{
    Ok(Val::make(value)?)
}

/// The bytes as a buffer.
pub fn buffer(alloc: Global, bytes: &[u8]) -> Result<Val, Fail>
    ensures { IfOk result (λ v. v ≡ BuffV bytes.now) }
{
    let kind = Kind::Buff(bytes.to_vec(alloc)?);
    valid(Value { kind })
}

fn text(alloc: Global, bytes: &[u8]) -> Result<Val, Fail>
    ensures { IfOk result (λ v. v ≡ AsciiV bytes.now) }
{
    let kind = Kind::Ascii(bytes.to_vec(alloc)?);
    valid(Value { kind })
}

fn empty_list(alloc: Global) -> Result<Val, Fail>
    ensures { IfOk result (λ v. v ≡ ListV NoItem) }
{
    let kind = Kind::List(Vec::new(alloc));
    valid(Value { kind })
}

fn is_buffer(value: &Value, wanted: &[u8]) -> bool {
    match &value.kind {
        Kind::Buff(bytes) => bytes.as_slice() == wanted,
        _ => false,
    }
}

fn has_a_part(alloc: Global) -> Result<bool, Fail> {
    let sequence = buffer(alloc, &[1, 2, 3, 4])?;
    match slice(sequence, 1, 3)? {
        Some(part) => Ok(is_buffer(part.value(), &[2, 3])),
        None => Ok(false),
    }
}

fn has_an_entry(alloc: Global) -> Result<bool, Fail> {
    let sequence = buffer(alloc, &[1, 2])?;
    match element_at(alloc, sequence, 1)? {
        Some(entry) => Ok(is_buffer(entry.value(), &[2])),
        None => Ok(false),
    }
}

fn has_an_entry_replaced(alloc: Global) -> Result<bool, Fail> {
    let item = buffer(alloc, &[0x44])?;
    let sequence = buffer(alloc, &[0x00, 0x11, 0x22, 0x33])?;
    let replaced = replace_at(alloc, sequence, 2, item)?;
    match &replaced.value().kind {
        Kind::Optional(Some(inner)) => Ok(is_buffer(inner, &[0x00, 0x11, 0x44, 0x33])),
        _ => Ok(false),
    }
}

fn has_one_entry_more(alloc: Global) -> Result<bool, Fail> {
    let list = append(empty_list(alloc)?, uint_value(7))?;
    match &list.value().kind {
        Kind::List(entries) => Ok(entries.len() == 1 && matches!(&entries[0].kind, Kind::Uint(7))),
        _ => Ok(false),
    }
}

fn is_joined(alloc: Global) -> Result<bool, Fail> {
    let first = buffer(alloc, &[1])?;
    let second = buffer(alloc, &[2, 3])?;
    let joined = concat(first, second)?;
    Ok(is_buffer(joined.value(), &[1, 2, 3]))
}

#[test]
fn sequences(rt: HostRuntime) -> Result<(), Fail> {
    assert!(rt; has_a_part(rt.alloc())?);
    assert!(rt; has_an_entry(rt.alloc())?);
    assert!(rt; has_an_entry_replaced(rt.alloc())?);
    assert!(rt; has_one_entry_more(rt.alloc())?);
    assert!(rt; is_joined(rt.alloc())?);
    Ok(())
}

fn is_before(first: &Val, second: &Val) -> bool
    requires { IsSome (content_order first.now second.now) }
{
    matches!(content_order(first, second), Ordering::Less)
}

fn texts_are_in_order(alloc: Global) -> Result<bool, Fail> {
    let first = text(alloc, b"a")?;
    let second = text(alloc, b"b")?;
    Ok(is_before(&first, &second))
}

// A proper prefix comes first.
fn buffers_are_in_order(alloc: Global) -> Result<bool, Fail> {
    let first = buffer(alloc, &[1])?;
    let second = buffer(alloc, &[1, 0])?;
    Ok(is_before(&first, &second))
}

#[test]
fn values_in_order(rt: HostRuntime) -> Result<(), Fail> {
    assert!(rt; texts_are_in_order(rt.alloc())?);
    assert!(rt; buffers_are_in_order(rt.alloc())?);
    Ok(())
}
