//! Equality of values.
ghost use Rattle.std.specs.Prelude.{◌≡◌};
ghost use Rattle.cl_values.specs.Natives.{all_equal, equality};
ghost use Rattle.cl_values.specs.Applied.{Answered};

use cl_seq::bool_value;
use cl_values::{NoValue, Val, are_alike};

fn all_equal(first: &Val, others: &[Val]) -> bool
    ensures { result ≡ all_equal first.now others.now }
{
    for other in others {
        if !are_alike(first.value(), other.value()) {
            return false;
        }
    }
    true
}

/// `is-eq`
pub(crate) fn equality(values: &[Val]) -> Result<Val, NoValue>
    ensures { Answered (equality values.now) result }
{
    match values.split_first() {
        Some((first, others)) => Ok(bool_value(all_equal(first, others))),
        None => Err(NoValue::Undefined),
    }
}
