//! Whether two values are equal, and which comes first.
ghost use Rattle.std.specs.Prelude.{◌≡◌, ◌↔◌, IsTrue};
ghost use Rattle.std.specs.declared.cmp.Ordering.TheVariants.{Equal};
ghost use Rattle.std.specs.Ordering.{nat_cmp};
ghost use Rattle.std.specs.Cmp.Lexicographic.{slice_cmp};
ghost use Rattle.cl_values.specs.Wire.{wire};
ghost use Rattle.cl_values.specs.Valid.{IsVal};
ghost use Rattle.cl_values.specs.Sequences.{equal};

use crate::order::compare_values;
use crate::{Val, Value};
use std::cmp::Ordering;

/// The order of two values: that of their wire forms (SIP-005), byte by byte. It takes no memory.
pub fn compare(a: &Val, b: &Val) -> Ordering
    ensures order { result ≡ slice_cmp nat_cmp (wire a.now) (wire b.now) }
    ensures equal { (result ≡ Equal) ↔ (a.now ≡ b.now) }
{
    compare_values(a.value(), b.value())
}

/// Whether two values are equal.
pub fn equal(a: &Val, b: &Val) -> bool
    ensures { IsTrue result ↔ (a.now ≡ b.now) }
{
    compare(a, b).is_eq()
}

/// Whether two values, which may be parts of others, are spelled alike.
pub fn are_alike(a: &Value, b: &Value) -> bool
    requires first { IsVal a.now }
    requires second { IsVal b.now }
    ensures { result ≡ equal a.now b.now }
{
    compare_values(a, b).is_eq()
}
