ghost use Rattle.std.specs.Prelude.{◌≡◌, IfOk, Ok, Err, map, option_map};
ghost use Rattle.serde_json.specs.View.{view};
ghost use Rattle.cl_types.specs.Fault.{IfRefused};
ghost use Rattle.cl_shapes.specs.Costs.{dimensions, dimension_name};
ghost use Rattle.cl_shapes.specs.Names.{cost_name};
ghost use Rattle.cl_costs.specs.CostFile.{shape_at, is_no_shape, without_shape, bad_dimension, all_shapes, function_in};

use crate::refusal::CostRefusal;
use crate::shape::{ShapeFault, shape_of};
use cl_json::unknown_member;
use cl_shapes::{CostFn, CostName, Dimension, Shape};
use cl_types::{Fault, Name, Text};
use serde_json::Value;
use std::alloc::Global;

/// The cost name as a name of the language.
pub(crate) fn name_of(name: CostName) -> Name
    ensures { result ≡ cost_name name }
{
    match Name::make(name.name().as_bytes()) {
        Some(name) => name,
        None => unreachable!(),
    }
}

fn dimension_names() -> [&'static str; 5]
    ensures { map (λ name. name.now) result ≡ map dimension_name dimensions }
{
    Dimension::ALL.map(Dimension::name)
}

fn shape_at(function: &Value, dimension: Dimension) -> Result<Shape, ShapeFault>
    ensures { result ≡ shape_at (view function.now) dimension }
{
    match function.get(dimension.name()) {
        Some(shape) => shape_of(shape),
        None => Ok(Shape::Constant(0)),
    }
}

fn has_no_shape(function: &Value, dimension: Dimension) -> bool
    ensures { result ≡ is_no_shape (shape_at (view function.now) dimension) }
{
    matches!(shape_at(function, dimension), Err(ShapeFault::NoShape))
}

fn without_shape(function: &Value) -> Option<Dimension>
    ensures { result ≡ without_shape (view function.now) }
{
    for dimension in Dimension::ALL {
        if has_no_shape(function, dimension) {
            return Some(dimension);
        }
    }
    None
}

fn bad_dimension(function: &Value) -> Option<&str>
    ensures { option_map (λ name. name.now) result ≡ bad_dimension (view function.now) }
{
    let Some(members) = function.as_object() else {
        return Some(Dimension::Runtime.name());
    };
    match without_shape(function) {
        Some(dimension) => Some(dimension.name()),
        None => unknown_member(&dimension_names(), members),
    }
}

#[tactic(auto, unfolding(crate::specs::CostFile::all_shapes))]
fn all_shapes(function: &Value) -> Option<CostFn>
    ensures { result ≡ all_shapes (view function.now) }
{
    Some(CostFn {
        runtime: shape_at(function, Dimension::Runtime).ok()?,
        read_count: shape_at(function, Dimension::ReadCount).ok()?,
        read_length: shape_at(function, Dimension::ReadLength).ok()?,
        write_count: shape_at(function, Dimension::WriteCount).ok()?,
        write_length: shape_at(function, Dimension::WriteLength).ok()?,
    })
}

/// The cost function that a name's value is.
#[tactic(auto, unfolding(crate::specs::CostFile::function_in))]
pub(crate) fn function_in(
    alloc: Global,
    name: CostName,
    function: &Value,
) -> Result<CostFn, Fault<CostRefusal>>
    ensures found { IfOk result (λ f. function_in name (view function.now) ≡ Ok f) }
    ensures refused { IfRefused result (λ r. function_in name (view function.now) ≡ Err r) }
{
    if let Some(dimension) = bad_dimension(function) {
        let dimension = Text::copied(alloc, dimension)?;
        let name = name_of(name);
        return Err(Fault::Refused(CostRefusal::BadShape { name, dimension }));
    }
    match all_shapes(function) {
        Some(function) => Ok(function),
        None => Err(Fault::Refused(CostRefusal::TooBig {
            name: name_of(name),
        })),
    }
}
