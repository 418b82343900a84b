ghost use Rattle.std.specs.Prelude.{◌≡◌, ◌^◌, [], ◌∷◌, nat_lt, Ok, Err, if◌then◌else◌};
ghost use Rattle.serde_json.specs.View.{view, items_view};
ghost use Rattle.cl_costs.specs.Shapes.{shape_of, shape_in, shape_with};

use cl_shapes::Shape;
use serde_json::Value;

/// Why a value gives no shape.
#[derive(Clone, Copy)]
pub(crate) enum ShapeFault {
    /// It isn't one.
    NoShape,
    /// It is one, but for a coefficient of 2^32 or more.
    TooLarge,
}

fn coefficient(n: u64) -> Result<u32, ShapeFault>
    ensures { result ≡ (if nat_lt n (2 ^ 32) then Ok n else Err ShapeFault.TooLarge) }
{
    u32::try_from(n).map_err(|_| ShapeFault::TooLarge)
}

fn constant(name: &str, b: u64) -> Result<Shape, ShapeFault>
    ensures { result ≡ shape_with name.now (b ∷ []) }
{
    if name != "constant" {
        return Err(ShapeFault::NoShape);
    }
    Ok(Shape::Constant(coefficient(b)?))
}

fn rising(name: &str, a: u64, b: u64) -> Result<Shape, ShapeFault>
    ensures { result ≡ shape_with name.now (a ∷ b ∷ []) }
{
    match name {
        "linear" => Ok(Shape::Linear(coefficient(a)?, coefficient(b)?)),
        "logn" => Ok(Shape::Logn(coefficient(a)?, coefficient(b)?)),
        "nlogn" => Ok(Shape::Nlogn(coefficient(a)?, coefficient(b)?)),
        _ => Err(ShapeFault::NoShape),
    }
}

fn shape_in(parts: &[Value]) -> Result<Shape, ShapeFault>
    ensures { result ≡ shape_in (items_view parts.now) }
{
    match parts {
        [name, b] => match (name.as_str(), b.as_u64()) {
            (Some(name), Some(b)) => constant(name, b),
            _ => Err(ShapeFault::NoShape),
        },
        [name, a, b] => match (name.as_str(), a.as_u64(), b.as_u64()) {
            (Some(name), Some(a), Some(b)) => rising(name, a, b),
            _ => Err(ShapeFault::NoShape),
        },
        _ => Err(ShapeFault::NoShape),
    }
}

/// The shape that a value is.
pub(crate) fn shape_of(value: &Value) -> Result<Shape, ShapeFault>
    ensures { result ≡ shape_of (view value.now) }
{
    match value.as_array() {
        Some(parts) => shape_in(parts.as_slice()),
        None => Err(ShapeFault::NoShape),
    }
}
