//! Truth values.
ghost use Rattle.std.specs.Prelude.{◌≡◌};
ghost use Rattle.cl_meaning.specs.Calls.{truths};
ghost use Rattle.cl_operands.specs.Truths.{truth_of, join};

use cl_values::{Kind, Val};

/// A truth value, where it is one.
pub fn truth_of(value: &Val) -> Option<bool>
    ensures { result ≡ truth_of value.now }
{
    match &value.value().kind {
        Kind::Bool(holds) => Some(*holds),
        _ => None,
    }
}

/// Whether both hold, or one of them.
fn join(all: bool, first: bool, second: bool) -> bool
    ensures { result ≡ join all first second }
{
    if all {
        first && second
    } else {
        first || second
    }
}

/// Whether all of the values are true, or some of them; None where one is no truth value.
pub fn join_truths(all: bool, values: &[Val]) -> Option<bool>
    ensures { result ≡ truths (join all) all values.now }
{
    let mut so_far = all;
    for value in values {
        match truth_of(value) {
            Some(holds) => so_far = join(all, so_far, holds),
            None => return None,
        }
    }
    Some(so_far)
}
