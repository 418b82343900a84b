//! Whether values are no deeper than a limit. A value that is deeper isn't walked to its end.
ghost use Rattle.std.specs.Prelude.{◌≡◌, nat_le};
ghost use Rattle.cl_values.specs.Tree.{items_of, entries_of, depth_of, items_depth, entries_depth};

use cl_types::Name;
use cl_values::{Kind, Value};

/// Whether a value is at most so deep.
#[cycle(depth)]
fn is_within_depth(value: &Value, most: u32) -> bool
    ensures { result ≡ nat_le (depth_of value.now) most }
{
    if most == 0 {
        return false;
    }
    match &value.kind {
        Kind::List(values) => are_within_depth(values, most - 1),
        Kind::Tuple(entries) => entries_are_within_depth(entries, most - 1),
        Kind::Optional(Some(inner)) => is_within_depth(inner, most - 1),
        Kind::Response { good: _, inner } => is_within_depth(inner, most - 1),
        _ => true,
    }
}

/// Whether each of the values is at most so deep.
#[cycle(depth)]
pub(crate) fn are_within_depth(values: &[Value], most: u32) -> bool
    ensures { result ≡ nat_le (items_depth (items_of values.now)) most }
{
    for value in values {
        if !is_within_depth(value, most) {
            return false;
        }
    }
    true
}

/// Whether each of the values under the keys of a tuple is at most so deep.
#[cycle(depth)]
fn entries_are_within_depth(entries: &[(Name, Value)], most: u32) -> bool
    ensures { result ≡ nat_le (entries_depth (entries_of entries.now)) most }
{
    for entry in entries {
        if !is_within_depth(&entry.1, most) {
            return false;
        }
    }
    true
}
