//! Values that are made of valid parts: their sizes and depths are sums of those of the parts.
ghost use Rattle.std.specs.Prelude.{◌≡◌, ◌&&◌, nat_le};
ghost use Rattle.cl_values.specs.Tree.{IntV, UintV, BoolV, BuffV, NoneV, SomeV, ResponseV, depth_of};
ghost use Rattle.cl_values.specs.Wire.{size_of};
ghost use Rattle.cl_values.specs.Computed.{Gives};
ghost use Rattle.cl_values.specs.Arithmetic.{value_of};
ghost use Rattle.cl_values.specs.Applied.{Applied};
ghost use Rattle.cl_seq.specs.Fine.{IsFine};

use cl_arith::Num;
use cl_types::Fault;
use cl_values::{Kind, NoValue, Val, Value};
use std::alloc::Global;

fn fits(size: u32, depth: u32) -> bool
    ensures { result ≡ (nat_le depth 32 && nat_le size 1048576) }
{
    depth <= Val::MOST_DEPTH && size <= Val::MOST_SIZE
}

/// The value of a tree, where it is within the limits. It takes no walk.
pub fn made(value: Value, size: u32, depth: u32) -> Result<Val, Fault<NoValue>>
    requires fine { IsFine value }
    requires counted { size ≡ size_of value }
    requires measured { depth ≡ depth_of value }
    ensures { Applied (Gives value) result }
{
    if fits(size, depth) {
        Ok(Val::measured(value, size, depth))
    } else {
        Err(Fault::Refused(NoValue::Undefined))
    }
}

/// An int as a value.
pub fn int_value(number: i128) -> Val
    ensures { result ≡ IntV number }
{
    let kind = Kind::Int(number);
    Val::measured(Value { kind }, 17, 1)
}

/// A uint as a value.
pub fn uint_value(number: u128) -> Val
    ensures { result ≡ UintV number }
{
    let kind = Kind::Uint(number);
    Val::measured(Value { kind }, 17, 1)
}

/// A truth value as a value.
pub fn bool_value(truth: bool) -> Val
    ensures { result ≡ BoolV truth }
{
    let kind = Kind::Bool(truth);
    Val::measured(Value { kind }, 1, 1)
}

/// A number as a value.
pub fn number_value(number: Num) -> Val
    ensures { result ≡ value_of number }
{
    match number {
        Num::Int(int) => int_value(int),
        Num::Uint(uint) => uint_value(uint),
    }
}

/// An optional with nothing.
pub fn none() -> Val
    ensures { result ≡ NoneV }
{
    let kind = Kind::Optional(None);
    Val::measured(Value { kind }, 1, 1)
}

/// The bytes as a buffer.
pub fn buff(bytes: Vec<u8>) -> Result<Val, Fault<NoValue>>
    ensures { Applied (Gives (BuffV bytes.items)) result }
{
    if bytes.len() > Val::MOST_SIZE as usize {
        return Err(Fault::Refused(NoValue::Undefined));
    }
    let size = 5 + bytes.len() as u32;
    let kind = Kind::Buff(bytes);
    made(Value { kind }, size, 1)
}

/// An optional with a value.
pub fn some(alloc: Global, inner: Val) -> Result<Val, Fault<NoValue>>
    ensures { Applied (Gives (SomeV inner)) result }
{
    let size = inner.size() + 1;
    let depth = inner.depth() + 1;
    let inner = Box::new(alloc, inner.into_value())?;
    let kind = Kind::Optional(Some(inner));
    made(Value { kind }, size, depth)
}

/// An ok response where it is `good`, else an err response.
pub fn response(alloc: Global, good: bool, inner: Val) -> Result<Val, Fault<NoValue>>
    ensures { Applied (Gives (ResponseV good inner)) result }
{
    let size = inner.size() + 1;
    let depth = inner.depth() + 1;
    let inner = Box::new(alloc, inner.into_value())?;
    let kind = Kind::Response { good, inner };
    made(Value { kind }, size, depth)
}
