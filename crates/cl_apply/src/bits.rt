//! Natives on the bits of numbers.
ghost use Rattle.std.specs.Prelude.{◌≡◌, ◌∷◌, [], fold};
ghost use Rattle.cl_arith.specs.declared.Num.{Num as Number};
ghost use Rattle.cl_arith.specs.Numbers.{kind_of};
ghost use Rattle.cl_values.specs.Tree.{UintV};
ghost use Rattle.cl_values.specs.Arithmetic.{numeric, on_numbers, of_kind};
ghost use Rattle.cl_values.specs.Bits.{complement_of, joined_by, left_shift, right_shift};
ghost use Rattle.cl_values.specs.Applied.{Answered};
ghost use Rattle.cl_apply.specs.Joining.{joining_of, join_from};

use crate::numbers::{number, number_like};
use cl_arith::{Num, bit_and, bit_not, bit_or, bit_xor, shift_left, shift_right};
use cl_seq::number_value;
use cl_values::{Kind, NoValue, Val};

/// How numbers are joined, bit by bit.
#[derive(Clone, Copy)]
pub enum Joining {
    And,
    Or,
    Xor,
}

fn join(joining: Joining, a: Num, b: Num) -> Num
    requires { kind_of a ≡ kind_of b }
    ensures joined { result ≡ joining_of joining a b }
    ensures kind { kind_of result ≡ kind_of a }
{
    match joining {
        Joining::And => bit_and(a, b),
        Joining::Or => bit_or(a, b),
        Joining::Xor => bit_xor(a, b),
    }
}

/// A number joined with each of the values in turn; where one isn't of its kind, there is nothing.
fn join_all(joining: Joining, first: Num, values: &[Val]) -> Result<Val, NoValue>
    ensures { Answered (on_numbers (join_from (joining_of joining) first)
        (of_kind (kind_of first) values.now)) result }
{
    let mut total = first;
    for value in values {
        match number_like(first, value) {
            Some(number) => total = join(joining, total, number),
            None => return Err(NoValue::Undefined),
        }
    }
    Ok(number_value(total))
}

/// One or more numbers of one kind, joined from the left.
pub(crate) fn joined(joining: Joining, values: &[Val]) -> Result<Val, NoValue>
    ensures { Answered (numeric (joined_by (joining_of joining)) values.now) result }
{
    let Some((first, others)) = values.split_first() else {
        return Err(NoValue::Undefined);
    };
    match number(first) {
        Some(first) => join_all(joining, first, others),
        None => Err(NoValue::Undefined),
    }
}

/// `bit-not`
pub(crate) fn complement(value: &Val) -> Result<Val, NoValue>
    ensures { Answered (complement_of (value.now ∷ [])) result }
{
    match number(value) {
        Some(number) => Ok(number_value(bit_not(number))),
        None => Err(NoValue::Undefined),
    }
}

/// `bit-shift-left`
pub(crate) fn shifted_left(value: &Val, places: &Val) -> Result<Val, NoValue>
    ensures { Answered (left_shift (value.now ∷ places.now ∷ [])) result }
{
    match (number(value), &places.value().kind) {
        (Some(number), Kind::Uint(places)) => Ok(number_value(shift_left(number, *places))),
        _ => Err(NoValue::Undefined),
    }
}

/// `bit-shift-right`
pub(crate) fn shifted_right(value: &Val, places: &Val) -> Result<Val, NoValue>
    ensures { Answered (right_shift (value.now ∷ places.now ∷ [])) result }
{
    match (number(value), &places.value().kind) {
        (Some(number), Kind::Uint(places)) => Ok(number_value(shift_right(number, *places))),
        _ => Err(NoValue::Undefined),
    }
}
