//! Natives of the second version on the content of values.
ghost use Rattle.std.specs.Prelude.{◌≡◌, ◌∷◌, []};
ghost use Rattle.cl_values.specs.Applied.{Answered, Applied};
ghost use Rattle.cl_values.specs.Contents.{comes_before, comes_no_later, comes_after, comes_no_earlier, slice, replace_at, consensus_bytes};
ghost use Rattle.cl_values.specs.Tree.{UintV};

use crate::rows::found_value;
use cl_codec::encode;
use cl_seq::{bool_value, buff, some, try_replace_at, try_slice};
use cl_types::Fault;
use cl_values::{Kind, NoValue, Val, try_content_order};
use std::alloc::Global;

/// `<` by content
pub(crate) fn before(first: &Val, second: &Val) -> Result<Val, NoValue>
    ensures { Answered (comes_before (first.now ∷ second.now ∷ [])) result }
{
    match try_content_order(first, second) {
        Some(order) => Ok(bool_value(order.is_lt())),
        None => Err(NoValue::Undefined),
    }
}

/// `<=` by content
pub(crate) fn no_later(first: &Val, second: &Val) -> Result<Val, NoValue>
    ensures { Answered (comes_no_later (first.now ∷ second.now ∷ [])) result }
{
    match try_content_order(first, second) {
        Some(order) => Ok(bool_value(order.is_le())),
        None => Err(NoValue::Undefined),
    }
}

/// `>` by content
pub(crate) fn after(first: &Val, second: &Val) -> Result<Val, NoValue>
    ensures { Answered (comes_after (first.now ∷ second.now ∷ [])) result }
{
    match try_content_order(first, second) {
        Some(order) => Ok(bool_value(order.is_gt())),
        None => Err(NoValue::Undefined),
    }
}

/// `>=` by content
pub(crate) fn no_earlier(first: &Val, second: &Val) -> Result<Val, NoValue>
    ensures { Answered (comes_no_earlier (first.now ∷ second.now ∷ [])) result }
{
    match try_content_order(first, second) {
        Some(order) => Ok(bool_value(order.is_ge())),
        None => Err(NoValue::Undefined),
    }
}

fn part_at(alloc: Global, sequence: Val, left: u128, right: u128) -> Result<Val, Fault<NoValue>>
    ensures { Applied (slice (sequence ∷ UintV left ∷ UintV right ∷ [])) result }
{
    let found = try_slice(sequence, left, right)?;
    found_value(alloc, found)
}

/// `slice?`
pub(crate) fn part_between(
    alloc: Global,
    sequence: Val,
    left: &Val,
    right: &Val,
) -> Result<Val, Fault<NoValue>>
    ensures { Applied (slice (sequence ∷ left.now ∷ right.now ∷ [])) result }
{
    match (&left.value().kind, &right.value().kind) {
        (Kind::Uint(left), Kind::Uint(right)) => part_at(alloc, sequence, *left, *right),
        _ => Err(Fault::Refused(NoValue::Undefined)),
    }
}

/// `replace-at?`
pub(crate) fn replaced(
    alloc: Global,
    sequence: Val,
    at: &Val,
    item: Val,
) -> Result<Val, Fault<NoValue>>
    ensures { Applied (replace_at (sequence ∷ at.now ∷ item ∷ [])) result }
{
    match at.value().kind {
        Kind::Uint(at) => try_replace_at(alloc, sequence, at, item),
        _ => Err(Fault::Refused(NoValue::Undefined)),
    }
}

/// `to-consensus-buff?`
pub(crate) fn wire_of(alloc: Global, value: &Val) -> Result<Val, Fault<NoValue>>
    ensures { Applied (consensus_bytes (value.now ∷ [])) result }
{
    let bytes = buff(encode(alloc, value)?)?;
    some(alloc, bytes)
}
