//! Natives on exactly two numbers of one kind, and on exactly one.
ghost use Rattle.std.specs.Prelude.{◌≡◌, ◌∷◌, [], int_lt, int_le, MatchOption};
ghost use Rattle.cl_arith.specs.declared.Num.{Num as Number};
ghost use Rattle.cl_arith.specs.Numbers.{kind_of, whole};
ghost use Rattle.cl_values.specs.Computed.{Computed, Undefined};
ghost use Rattle.cl_values.specs.Arithmetic.{numeric, of_two, to_int, to_uint, negation, remainder_of, power_of, xor_of, square_root_of, logarithm_of, is_less, is_at_most, is_greater, is_at_least};
ghost use Rattle.cl_values.specs.Applied.{Answered};

use crate::numbers::{answer, number, number_like};
use cl_arith::{Num, log2, pow, rem, sqrti, xor};
use cl_seq::bool_value;
use cl_values::{Kind, NoValue, Val};

/// The numbers that two values of one kind are.
fn two_numbers(first: &Val, second: &Val) -> Option<(Num, Num)>
    ensures { MatchOption result ((f : Number → Number → Computed) → numeric (of_two f) (first.now ∷ second.now ∷ []) ≡ Undefined) (λ p. (kind_of p.0 ≡ kind_of p.1) × ((f : Number → Number → Computed) → numeric (of_two f) (first.now ∷ second.now ∷ []) ≡ f p.0 p.1)) }
{
    match number(first) {
        Some(first) => match number_like(first, second) {
            Some(second) => Some((first, second)),
            None => None,
        },
        None => None,
    }
}

/// `mod`
pub(crate) fn remainder(first: &Val, second: &Val) -> Result<Val, NoValue>
    ensures { Answered (remainder_of (first.now ∷ second.now ∷ [])) result }
{
    match two_numbers(first, second) {
        Some((a, b)) => answer(rem(a, b)),
        None => Err(NoValue::Undefined),
    }
}

/// `pow`
pub(crate) fn power(first: &Val, second: &Val) -> Result<Val, NoValue>
    ensures { Answered (power_of (first.now ∷ second.now ∷ [])) result }
{
    match two_numbers(first, second) {
        Some((a, b)) => answer(pow(a, b)),
        None => Err(NoValue::Undefined),
    }
}

/// `xor`
pub(crate) fn exclusive_or(first: &Val, second: &Val) -> Result<Val, NoValue>
    ensures { Answered (xor_of (first.now ∷ second.now ∷ [])) result }
{
    match two_numbers(first, second) {
        Some((a, b)) => answer(xor(a, b)),
        None => Err(NoValue::Undefined),
    }
}

/// Whether a number is below another of its kind.
fn is_below(a: Num, b: Num) -> bool
    requires { kind_of a ≡ kind_of b }
    ensures { result ≡ int_lt (whole a) (whole b) }
{
    match (a, b) {
        (Num::Int(x), Num::Int(y)) => x < y,
        (Num::Uint(x), Num::Uint(y)) => x < y,
        _ => unreachable!(),
    }
}

/// Whether a number is at most another of its kind.
fn is_up_to(a: Num, b: Num) -> bool
    requires { kind_of a ≡ kind_of b }
    ensures { result ≡ int_le (whole a) (whole b) }
{
    match (a, b) {
        (Num::Int(x), Num::Int(y)) => x <= y,
        (Num::Uint(x), Num::Uint(y)) => x <= y,
        _ => unreachable!(),
    }
}

/// `<`
pub(crate) fn less(first: &Val, second: &Val) -> Result<Val, NoValue>
    ensures { Answered (is_less (first.now ∷ second.now ∷ [])) result }
{
    match two_numbers(first, second) {
        Some((a, b)) => Ok(bool_value(is_below(a, b))),
        None => Err(NoValue::Undefined),
    }
}

/// `<=`
pub(crate) fn at_most(first: &Val, second: &Val) -> Result<Val, NoValue>
    ensures { Answered (is_at_most (first.now ∷ second.now ∷ [])) result }
{
    match two_numbers(first, second) {
        Some((a, b)) => Ok(bool_value(is_up_to(a, b))),
        None => Err(NoValue::Undefined),
    }
}

/// `>`
pub(crate) fn greater(first: &Val, second: &Val) -> Result<Val, NoValue>
    ensures { Answered (is_greater (first.now ∷ second.now ∷ [])) result }
{
    match two_numbers(first, second) {
        Some((a, b)) => Ok(bool_value(is_below(b, a))),
        None => Err(NoValue::Undefined),
    }
}

/// `>=`
pub(crate) fn at_least(first: &Val, second: &Val) -> Result<Val, NoValue>
    ensures { Answered (is_at_least (first.now ∷ second.now ∷ [])) result }
{
    match two_numbers(first, second) {
        Some((a, b)) => Ok(bool_value(is_up_to(b, a))),
        None => Err(NoValue::Undefined),
    }
}

/// `sqrti`
pub(crate) fn square_root(value: &Val) -> Result<Val, NoValue>
    ensures { Answered (square_root_of (value.now ∷ [])) result }
{
    match number(value) {
        Some(a) => answer(sqrti(a)),
        None => Err(NoValue::Undefined),
    }
}

/// `log2`
pub(crate) fn logarithm(value: &Val) -> Result<Val, NoValue>
    ensures { Answered (logarithm_of (value.now ∷ [])) result }
{
    match number(value) {
        Some(a) => answer(log2(a)),
        None => Err(NoValue::Undefined),
    }
}

/// `to-int`
pub(crate) fn int_of(value: &Val) -> Result<Val, NoValue>
    ensures { Answered (to_int (value.now ∷ [])) result }
{
    match value.value().kind {
        Kind::Uint(uint) => answer(cl_arith::to_int(uint).map(Num::Int)),
        _ => Err(NoValue::Undefined),
    }
}

/// `to-uint`
pub(crate) fn uint_of(value: &Val) -> Result<Val, NoValue>
    ensures { Answered (to_uint (value.now ∷ [])) result }
{
    match value.value().kind {
        Kind::Int(int) => answer(cl_arith::to_uint(int).map(Num::Uint)),
        _ => Err(NoValue::Undefined),
    }
}

/// `not`
pub(crate) fn opposite(value: &Val) -> Result<Val, NoValue>
    ensures { Answered (negation (value.now ∷ [])) result }
{
    match value.value().kind {
        Kind::Bool(truth) => Ok(bool_value(!truth)),
        _ => Err(NoValue::Undefined),
    }
}
