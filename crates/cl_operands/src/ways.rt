//! Optionals and responses, and what they hold.
ghost use Rattle.std.specs.Prelude.{◌≡◌, ◌+◌};
ghost use Rattle.cl_values.specs.Tree.{depth_of};
ghost use Rattle.cl_values.specs.Wire.{size_of};
ghost use Rattle.cl_values.specs.Valid.{IsVal};
ghost use Rattle.cl_operands.specs.Ways.{way_of, err_way_of, optional_way_of, response_way_of, content};

use cl_values::{Kind, Val, Value};

/// Which variant an optional or a response is.
#[derive(Clone, Copy)]
pub enum Way {
    /// some or ok
    Good,
    /// none or err
    Bad,
    /// Another value.
    Neither,
}

/// Which variant an optional or a response is.
pub fn way_of(value: &Val) -> Way
    ensures { result ≡ way_of value.now }
{
    match &value.value().kind {
        Kind::Optional(Some(_)) => Way::Good,
        Kind::Optional(None) => Way::Bad,
        Kind::Response { good: true, .. } => Way::Good,
        Kind::Response { good: false, .. } => Way::Bad,
        _ => Way::Neither,
    }
}

/// Whether a response is err.
pub fn err_way_of(value: &Val) -> Way
    ensures { result ≡ err_way_of value.now }
{
    match &value.value().kind {
        Kind::Response { good: false, .. } => Way::Good,
        Kind::Response { good: true, .. } => Way::Bad,
        _ => Way::Neither,
    }
}

/// Whether an optional is some.
pub fn optional_way_of(value: &Val) -> Way
    ensures { result ≡ optional_way_of value.now }
{
    match &value.value().kind {
        Kind::Optional(Some(_)) => Way::Good,
        Kind::Optional(None) => Way::Bad,
        _ => Way::Neither,
    }
}

/// Whether a response is ok.
pub fn response_way_of(value: &Val) -> Way
    ensures { result ≡ response_way_of value.now }
{
    match &value.value().kind {
        Kind::Response { good: true, .. } => Way::Good,
        Kind::Response { good: false, .. } => Way::Bad,
        _ => Way::Neither,
    }
}

/// The part of an optional or a response, whose size and depth are one more.
fn part(inner: Box<Value>, size: u32, depth: u32) -> Val
    requires valid { IsVal inner.value }
    requires counted { size ≡ 1 + size_of inner.value }
    requires measured { depth ≡ depth_of inner.value + 1 }
    ensures { result ≡ inner.value }
{
    Val::measured(Box::into_inner(inner), size - 1, depth - 1)
}

/// What is in an optional or a response, and else the value itself.
pub fn into_content(value: Val) -> Val
    ensures { result ≡ content value }
{
    let size = value.size();
    let depth = value.depth();
    match value.into_value().kind {
        Kind::Optional(Some(inner)) => part(inner, size, depth),
        Kind::Response { inner, .. } => part(inner, size, depth),
        other => Val::measured(Value { kind: other }, size, depth),
    }
}
