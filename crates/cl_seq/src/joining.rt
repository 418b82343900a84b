//! Sequences one behind another. What is owned is moved: the first's memory is kept.
ghost use Rattle.std.specs.Prelude.{◌≡◌, ◌∷◌, [], ◌++◌, ◌+◌, max, IfOk};
ghost use Rattle.cl_values.specs.Tree.{BuffV, AsciiV, Utf8V, ListV, items_of, depth_of};
ghost use Rattle.cl_values.specs.Wire.{size_of};
ghost use Rattle.cl_values.specs.Valid.{IsVal};
ghost use Rattle.cl_values.specs.Sequences.{append, concat};
ghost use Rattle.cl_values.specs.Applied.{Applied};

use crate::making::made;
use cl_types::Fault;
use cl_values::{Kind, NoValue, Val, Value};
use std::alloc::AllocError;

pub(crate) fn with_last<T: Drop>(mut entries: Vec<T>, last: T) -> Result<Vec<T>, AllocError>
    ensures { IfOk result (λ v. v.items ≡ entries.items ++ last ∷ []) }
{
    entries.push(last)?;
    Ok(entries)
}

fn with_all<T: Drop>(mut entries: Vec<T>, mut others: Vec<T>) -> Result<Vec<T>, AllocError>
    ensures { IfOk result (λ v. v.items ≡ entries.items ++ others.items) }
{
    entries.append(&mut others)?;
    Ok(entries)
}

/// A list with one more entry at its end.
pub fn try_append(list: Val, item: Val) -> Result<Val, Fault<NoValue>>
    ensures { Applied (append (list ∷ item ∷ [])) result }
{
    let size = list.size();
    let depth = list.depth();
    match list.into_value().kind {
        Kind::List(values) => append_to(values, size, depth, item),
        _ => Err(Fault::Refused(NoValue::Undefined)),
    }
}

fn append_to(values: Vec<Value>, size: u32, depth: u32, item: Val) -> Result<Val, Fault<NoValue>>
    requires valid { IsVal (ListV (items_of values.items)) }
    requires counted { size ≡ size_of (ListV (items_of values.items)) }
    requires measured { depth ≡ depth_of (ListV (items_of values.items)) }
    ensures { Applied (append (ListV (items_of values.items) ∷ item ∷ [])) result }
{
    let size = size + item.size();
    let depth = depth.max(item.depth() + 1);
    let values = with_last(values, item.into_value())?;
    let kind = Kind::List(values);
    made(Value { kind }, size, depth)
}

/// Two sequences of one kind, one behind the other.
pub fn try_concat(first: Val, second: Val) -> Result<Val, Fault<NoValue>>
    ensures { Applied (concat (first ∷ second ∷ [])) result }
{
    let size = first.size();
    let depth = first.depth();
    match first.into_value().kind {
        Kind::List(values) => concat_lists(values, size, depth, second),
        Kind::Buff(bytes) => concat_buffs(bytes, second),
        Kind::Ascii(bytes) => concat_texts(bytes, second),
        Kind::Utf8(characters) => concat_characters(characters, size, second),
        _ => Err(Fault::Refused(NoValue::Undefined)),
    }
}

fn concat_lists(
    values: Vec<Value>,
    size: u32,
    depth: u32,
    second: Val,
) -> Result<Val, Fault<NoValue>>
    requires valid { IsVal (ListV (items_of values.items)) }
    requires counted { size ≡ size_of (ListV (items_of values.items)) }
    requires measured { depth ≡ depth_of (ListV (items_of values.items)) }
    ensures { Applied (concat (ListV (items_of values.items) ∷ second ∷ [])) result }
{
    let size = size + second.size();
    let depth = depth.max(second.depth());
    match second.into_value().kind {
        Kind::List(others) => join_lists(values, others, size, depth),
        _ => Err(Fault::Refused(NoValue::Undefined)),
    }
}

/// Two lists as one; their sizes together, and the greater depth.
fn join_lists(
    values: Vec<Value>,
    others: Vec<Value>,
    sizes: u32,
    depth: u32,
) -> Result<Val, Fault<NoValue>>
    requires first { IsVal (ListV (items_of values.items)) }
    requires second { IsVal (ListV (items_of others.items)) }
    requires counted { sizes ≡ size_of (ListV (items_of values.items)) + size_of (ListV (items_of others.items)) }
    requires measured { depth ≡ max (depth_of (ListV (items_of values.items))) (depth_of (ListV (items_of others.items))) }
    ensures { Applied (concat (ListV (items_of values.items) ∷ ListV (items_of others.items) ∷ [])) result }
{
    let values = with_all(values, others)?;
    let kind = Kind::List(values);
    made(Value { kind }, sizes - 5, depth)
}

fn concat_buffs(bytes: Vec<u8>, second: Val) -> Result<Val, Fault<NoValue>>
    requires valid { IsVal (BuffV bytes.items) }
    ensures { Applied (concat (BuffV bytes.items ∷ second ∷ [])) result }
{
    match second.into_value().kind {
        Kind::Buff(others) => {
            let bytes = with_all(bytes, others)?;
            let size = 5 + bytes.len() as u32;
            let kind = Kind::Buff(bytes);
            made(Value { kind }, size, 1)
        }
        _ => Err(Fault::Refused(NoValue::Undefined)),
    }
}

fn concat_texts(bytes: Vec<u8>, second: Val) -> Result<Val, Fault<NoValue>>
    requires valid { IsVal (AsciiV bytes.items) }
    ensures { Applied (concat (AsciiV bytes.items ∷ second ∷ [])) result }
{
    match second.into_value().kind {
        Kind::Ascii(others) => {
            let bytes = with_all(bytes, others)?;
            let size = 5 + bytes.len() as u32;
            let kind = Kind::Ascii(bytes);
            made(Value { kind }, size, 1)
        }
        _ => Err(Fault::Refused(NoValue::Undefined)),
    }
}

fn concat_characters(characters: Vec<char>, size: u32, second: Val) -> Result<Val, Fault<NoValue>>
    requires valid { IsVal (Utf8V characters.items) }
    requires counted { size ≡ size_of (Utf8V characters.items) }
    ensures { Applied (concat (Utf8V characters.items ∷ second ∷ [])) result }
{
    let size = size + second.size();
    match second.into_value().kind {
        Kind::Utf8(others) => join_characters(characters, others, size),
        _ => Err(Fault::Refused(NoValue::Undefined)),
    }
}

/// Two strings as one; their sizes together.
fn join_characters(
    characters: Vec<char>,
    others: Vec<char>,
    sizes: u32,
) -> Result<Val, Fault<NoValue>>
    requires first { IsVal (Utf8V characters.items) }
    requires second { IsVal (Utf8V others.items) }
    requires counted { sizes ≡ size_of (Utf8V characters.items) + size_of (Utf8V others.items) }
    ensures { Applied (concat (Utf8V characters.items ∷ Utf8V others.items ∷ [])) result }
{
    let characters = with_all(characters, others)?;
    let kind = Kind::Utf8(characters);
    made(Value { kind }, sizes - 5, 1)
}
