//! Cost functions as plain numbers, by which tables are compared.
ghost use Rattle.std.specs.Prelude.{◌≡◌, map, nat_eq};
ghost use Rattle.std.specs.Cmp.Lexicographic.{pointwise};
ghost use Rattle.cl_costs.specs.Numbers.{shape_numbers, numbers_of};

use cl_shapes::{CostFn, Shape};

/// How many numbers a function has: three of each of its shapes, and one that is 0, so that they
/// fill whole vector registers.
pub(crate) const COUNT: usize = 16;

/// A shape as its kind and its coefficients, 0 where it has none.
fn shape_numbers(shape: Shape) -> (u32, u32, u32)
    ensures { result ≡ shape_numbers shape }
{
    match shape {
        Shape::Constant(b) => (0, 0, b),
        Shape::Linear(a, b) => (1, a, b),
        Shape::Logn(a, b) => (2, a, b),
        Shape::Nlogn(a, b) => (3, a, b),
    }
}

/// A function as the numbers of its shapes.
pub(crate) fn numbers_of(function: CostFn) -> [u32; COUNT]
    ensures { result ≡ numbers_of function }
{
    let a = shape_numbers(function.runtime);
    let b = shape_numbers(function.read_count);
    let c = shape_numbers(function.read_length);
    let d = shape_numbers(function.write_count);
    let e = shape_numbers(function.write_length);
    [
        a.0, a.1, a.2, b.0, b.1, b.2, c.0, c.1, c.2, d.0, d.1, d.2, e.0, e.1, e.2, 0,
    ]
}

/// The numbers of all functions of a table.
pub(crate) fn all_numbers(functions: &[CostFn; 24]) -> [[u32; COUNT]; 24]
    ensures { result ≡ map numbers_of functions.now }
{
    functions.map(numbers_of)
}

/// Whether two functions have the same numbers. It looks at each of them, since a loop that never
/// stops early is compiled to a few vector instructions.
fn are_same(a: &[u32; COUNT], b: &[u32; COUNT]) -> bool
    ensures { result ≡ pointwise nat_eq a.now b.now }
{
    let mut same = true;
    for i in 0..COUNT {
        same &= a[i] == b[i];
    }
    same
}

/// The same of the functions of two tables.
pub(crate) fn all_are_same(a: &[[u32; COUNT]; 24], b: &[[u32; COUNT]; 24]) -> bool
    ensures { result ≡ pointwise (pointwise nat_eq) a.now b.now }
{
    let mut same = true;
    for i in 0..24 {
        same &= are_same(&a[i], &b[i]);
    }
    same
}
