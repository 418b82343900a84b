//! Natives on optionals and responses. What is owned is moved.
ghost use Rattle.std.specs.Prelude.{◌≡◌, ◌∷◌, [], ◌+◌};
ghost use Rattle.cl_values.specs.Tree.{depth_of};
ghost use Rattle.cl_values.specs.Wire.{size_of};
ghost use Rattle.cl_values.specs.Valid.{IsVal};
ghost use Rattle.cl_values.specs.Computed.{Gives};
ghost use Rattle.cl_values.specs.Natives.{is_some, is_none, is_ok, is_err, default_to, unwrap_panic, unwrap_err_panic};
ghost use Rattle.cl_values.specs.Applied.{Answered, Applied};

use cl_seq::bool_value;
use cl_types::Fault;
use cl_values::{Kind, NoValue, Val, Value};

/// `is-some`
pub(crate) fn is_some(value: &Val) -> Result<Val, NoValue>
    ensures { Answered (is_some (value.now ∷ [])) result }
{
    match &value.value().kind {
        Kind::Optional(Some(_)) => Ok(bool_value(true)),
        Kind::Optional(None) => Ok(bool_value(false)),
        _ => Err(NoValue::Undefined),
    }
}

/// `is-none`
pub(crate) fn is_none(value: &Val) -> Result<Val, NoValue>
    ensures { Answered (is_none (value.now ∷ [])) result }
{
    match &value.value().kind {
        Kind::Optional(Some(_)) => Ok(bool_value(false)),
        Kind::Optional(None) => Ok(bool_value(true)),
        _ => Err(NoValue::Undefined),
    }
}

/// `is-ok`
pub(crate) fn is_ok(value: &Val) -> Result<Val, NoValue>
    ensures { Answered (is_ok (value.now ∷ [])) result }
{
    match &value.value().kind {
        Kind::Response { good, inner: _ } => Ok(bool_value(*good)),
        _ => Err(NoValue::Undefined),
    }
}

/// `is-err`
pub(crate) fn is_err(value: &Val) -> Result<Val, NoValue>
    ensures { Answered (is_err (value.now ∷ [])) result }
{
    match &value.value().kind {
        Kind::Response { good, inner: _ } => Ok(bool_value(!*good)),
        _ => Err(NoValue::Undefined),
    }
}

/// A value as an answer.
fn given(value: Val) -> Result<Val, Fault<NoValue>>
    ensures { Applied (Gives value) result }
{
    Ok(value)
}

/// The part of an optional or a response, whose size and depth are one more.
fn part(inner: Box<Value>, size: u32, depth: u32) -> Result<Val, Fault<NoValue>>
    requires valid { IsVal inner.value }
    requires counted { size ≡ 1 + size_of inner.value }
    requires measured { depth ≡ depth_of inner.value + 1 }
    ensures { Applied (Gives inner.value) result }
{
    given(Val::measured(Box::into_inner(inner), size - 1, depth - 1))
}

/// `default-to`
pub(crate) fn default_to(otherwise: Val, optional: Val) -> Result<Val, Fault<NoValue>>
    ensures { Applied (default_to (otherwise ∷ optional ∷ [])) result }
{
    let size = optional.size();
    let depth = optional.depth();
    match optional.into_value().kind {
        Kind::Optional(Some(inner)) => part(inner, size, depth),
        Kind::Optional(None) => given(otherwise),
        _ => Err(Fault::Refused(NoValue::Undefined)),
    }
}

/// `unwrap-panic`
pub(crate) fn unwrap_panic(value: Val) -> Result<Val, Fault<NoValue>>
    ensures { Applied (unwrap_panic (value ∷ [])) result }
{
    let size = value.size();
    let depth = value.depth();
    match value.into_value().kind {
        Kind::Optional(Some(inner)) => part(inner, size, depth),
        Kind::Optional(None) => Err(Fault::Refused(NoValue::Panic)),
        Kind::Response { good: true, inner } => part(inner, size, depth),
        Kind::Response { good: false, .. } => Err(Fault::Refused(NoValue::Panic)),
        _ => Err(Fault::Refused(NoValue::Undefined)),
    }
}

/// `unwrap-err-panic`
pub(crate) fn unwrap_err_panic(value: Val) -> Result<Val, Fault<NoValue>>
    ensures { Applied (unwrap_err_panic (value ∷ [])) result }
{
    let size = value.size();
    let depth = value.depth();
    match value.into_value().kind {
        Kind::Response { good: false, inner } => part(inner, size, depth),
        Kind::Response { good: true, .. } => Err(Fault::Refused(NoValue::Panic)),
        _ => Err(Fault::Refused(NoValue::Undefined)),
    }
}
