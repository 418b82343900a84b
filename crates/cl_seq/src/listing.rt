//! A list of values.
ghost use Rattle.cl_values.specs.Tree.{ListV, items_of};
ghost use Rattle.cl_values.specs.Computed.{Gives};
ghost use Rattle.cl_values.specs.Applied.{Applied};

use crate::joining::with_last;
use crate::making::made;
use cl_types::Fault;
use cl_values::{Kind, NoValue, Val, Value};
use std::alloc::Global;

/// The list of these values. Each is moved.
pub fn list_of(alloc: Global, values: Vec<Val>) -> Result<Val, Fault<NoValue>>
    ensures { Applied (Gives (ListV (items_of values.items))) result }
{
    let mut entries = Vec::new(alloc);
    let mut size = 5;
    let mut depth = 0;
    for value in values {
        if size > Val::MOST_SIZE {
            return Err(Fault::Refused(NoValue::Undefined));
        }
        size += value.size();
        depth = value.depth().max(depth);
        entries = with_last(entries, value.into_value())?;
    }
    let kind = Kind::List(entries);
    made(Value { kind }, size, depth + 1)
}
