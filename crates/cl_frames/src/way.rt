//! How optionals and responses are, and what is in them.
ghost use Rattle.std.specs.Prelude.{◌≡◌, ◌+◌};
ghost use Rattle.cl_shapes.specs.Limits.{Purse};
ghost use Rattle.cl_events.specs.State.{State};
ghost use Rattle.cl_values.specs.Tree.{depth_of};
ghost use Rattle.cl_values.specs.Wire.{size_of};
ghost use Rattle.cl_values.specs.Valid.{IsVal};
ghost use Rattle.cl_meaning.specs.Control.{tried};
ghost use Rattle.cl_meaning.specs.Limits.{Costs, Gave, limited};
ghost use Rattle.cl_frames.specs.Runs.{Ends, truthful, way_of, err_way_of, optional_way_of, response_way_of, content};

use crate::stop::Stop;
use cl_values::{Kind, Val, Value};

/// How an optional or a response is.
#[derive(Clone, Copy)]
pub enum Way {
    /// some or ok
    Good,
    /// none or err
    Bad,
    /// Another value.
    Neither,
}

/// How an optional or a response is.
pub fn way_of(value: &Val) -> Way
    ensures { result ≡ way_of value.now }
{
    match &value.value().kind {
        Kind::Optional(Some(_)) => Way::Good,
        Kind::Optional(None) => Way::Bad,
        Kind::Response { good: true, .. } => Way::Good,
        Kind::Response { good: false, .. } => Way::Bad,
        _ => Way::Neither,
    }
}

/// Whether a response is err.
pub fn err_way_of(value: &Val) -> Way
    ensures { result ≡ err_way_of value.now }
{
    match &value.value().kind {
        Kind::Response { good: false, .. } => Way::Good,
        Kind::Response { good: true, .. } => Way::Bad,
        _ => Way::Neither,
    }
}

/// Whether an optional is some.
pub fn optional_way_of(value: &Val) -> Way
    ensures { result ≡ optional_way_of value.now }
{
    match &value.value().kind {
        Kind::Optional(Some(_)) => Way::Good,
        Kind::Optional(None) => Way::Bad,
        _ => Way::Neither,
    }
}

/// Whether a response is ok.
pub fn response_way_of(value: &Val) -> Way
    ensures { result ≡ response_way_of value.now }
{
    match &value.value().kind {
        Kind::Response { good: true, .. } => Way::Good,
        Kind::Response { good: false, .. } => Way::Bad,
        _ => Way::Neither,
    }
}

/// The part of an optional or a response, whose size and depth are one more.
fn part(inner: Box<Value>, size: u32, depth: u32) -> Val
    requires valid { IsVal inner.value }
    requires counted { size ≡ 1 + size_of inner.value }
    requires measured { depth ≡ depth_of inner.value + 1 }
    ensures { result ≡ inner.value }
{
    Val::measured(Box::into_inner(inner), size - 1, depth - 1)
}

/// What is in an optional or a response, and else the value itself.
pub fn into_content(value: Val) -> Val
    ensures { result ≡ content value }
{
    let size = value.size();
    let depth = value.depth();
    match value.into_value().kind {
        Kind::Optional(Some(inner)) => part(inner, size, depth),
        Kind::Response { inner, .. } => part(inner, size, depth),
        other => Val::measured(Value { kind: other }, size, depth),
    }
}

/// A truth value.
pub fn truth(value: Val) -> Result<bool, Stop>
    ensures { (s : State) (p : Purse) → Ends (truthful (Gave value s p)) result p s }
{
    match &value.value().kind {
        Kind::Bool(holds) => Ok(*holds),
        _ => Err(Stop::Stuck),
    }
}

/// What is in some or ok; none and err are thrown.
pub fn tried(value: Val) -> Result<Val, Stop>
    ensures { (costs : Costs) (p : Purse) (s : State) → Ends (limited costs p (tried value s)) result p s }
{
    match way_of(&value) {
        Way::Good => Ok(into_content(value)),
        Way::Bad => Err(Stop::Thrown(value)),
        Way::Neither => Err(Stop::Stuck),
    }
}
