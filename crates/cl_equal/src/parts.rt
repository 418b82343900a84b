//! Costs, names, types and lists of things that are compared.
ghost use Rattle.std.specs.Prelude.{◌≡◌, ◌↔◌, IsTrue};

use cl_shapes::{Cost5, Dimension};
use cl_types::{Name, SizedTy, admission_orders, admits};

/// Things that are compared.
pub(crate) trait Compared {
    /// Whether two are equal.
    fn equals(&self, other: &Self) -> bool
        ensures { IsTrue result ↔ (self.now ≡ other.now) };
}

/// Whether two lists are equal.
pub(crate) fn equal_lists<T: Compared>(first: &[T], second: &[T]) -> bool
    ensures { IsTrue result ↔ (first.now ≡ second.now) }
{
    if first.len() != second.len() {
        return false;
    }
    for at in 0..first.len() {
        if !first[at].equals(&second[at]) {
            return false;
        }
    }
    true
}

/// Whether two options are equal.
pub(crate) fn equal_options<T: Compared>(first: &Option<T>, second: &Option<T>) -> bool
    ensures { IsTrue result ↔ (first.now ≡ second.now) }
{
    match first {
        Some(a) => match second {
            Some(b) => a.equals(b),
            None => false,
        },
        None => second.is_none(),
    }
}

impl Compared for Cost5 {
    fn equals(&self, other: &Cost5) -> bool {
        self.runtime == other.runtime
            && self.read_count == other.read_count
            && self.read_length == other.read_length
            && self.write_count == other.write_count
            && self.write_length == other.write_length
    }
}

/// Whether two dimensions are one.
pub(crate) fn equal_dimensions(first: Dimension, second: Dimension) -> bool
    ensures { IsTrue result ↔ (first ≡ second) }
{
    match first {
        Dimension::Runtime => matches!(second, Dimension::Runtime),
        Dimension::ReadCount => matches!(second, Dimension::ReadCount),
        Dimension::ReadLength => matches!(second, Dimension::ReadLength),
        Dimension::WriteCount => matches!(second, Dimension::WriteCount),
        Dimension::WriteLength => matches!(second, Dimension::WriteLength),
    }
}

impl Compared for SizedTy {
    fn equals(&self, other: &SizedTy) -> bool {
        admission_orders();
        admits(self, other) && admits(other, self)
    }
}

impl Compared for Name {
    fn equals(&self, other: &Name) -> bool {
        *self == *other
    }
}

impl Compared for (Name, Cost5) {
    fn equals(&self, other: &(Name, Cost5)) -> bool {
        self.0.equals(&other.0) && self.1.equals(&other.1)
    }
}
