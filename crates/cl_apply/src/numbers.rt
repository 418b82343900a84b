//! Sums, differences, products and quotients of one or more numbers.
ghost use Rattle.std.specs.Prelude.{◌≡◌, ◌∷◌, [], Ok};
ghost use Rattle.cl_arith.specs.Numbers.{kind_of};
ghost use Rattle.cl_arith.specs.Operations.{computed};
ghost use Rattle.cl_values.specs.Arithmetic.{zero_of, number_in, number_of, number_or_abort, numeric, on_numbers, of_kind, from_left, subtracted};
ghost use Rattle.cl_values.specs.Applied.{Answered};
ghost use Rattle.cl_apply.specs.Folded.{operation_of};
ghost use Rattle.cl_apply.specs.Numbers.{next_of, worked, IsOfKind};

use cl_arith::{ArithRefusal, Num, add, div, mul, sub};
use cl_seq::number_value;
use cl_values::{Kind, NoValue, Val};

/// An operation that is done with each number in turn.
#[derive(Clone, Copy)]
pub enum Folded {
    Sum,
    Difference,
    Product,
    Quotient,
}

fn act(operation: Folded, a: Num, b: Num) -> Result<Num, ArithRefusal>
    requires { kind_of a ≡ kind_of b }
    ensures { result ≡ computed (operation_of operation) a b }
{
    match operation {
        Folded::Sum => add(a, b),
        Folded::Difference => sub(a, b),
        Folded::Product => mul(a, b),
        Folded::Quotient => div(a, b),
    }
}

/// The number that a value is.
pub(crate) fn number(value: &Val) -> Option<Num>
    ensures { result ≡ number_of value.now }
{
    match value.value().kind {
        Kind::Int(int) => Some(Num::Int(int)),
        Kind::Uint(uint) => Some(Num::Uint(uint)),
        _ => None,
    }
}

/// The number that a value is, if it is of the kind of another.
pub(crate) fn number_like(like: Num, value: &Val) -> Option<Num>
    ensures { result ≡ number_in (kind_of like) value.now }
{
    match (like, number(value)) {
        (Num::Int(_), Some(Num::Int(int))) => Some(Num::Int(int)),
        (Num::Uint(_), Some(Num::Uint(uint))) => Some(Num::Uint(uint)),
        _ => None,
    }
}

fn zero_like(like: Num) -> Num
    ensures { result ≡ zero_of (kind_of like) }
{
    match like {
        Num::Int(_) => Num::Int(0),
        Num::Uint(_) => Num::Uint(0),
    }
}

/// The next result, where there was one so far.
fn next(operation: Folded, so_far: Result<Num, ArithRefusal>, b: Num) -> Result<Num, ArithRefusal>
    requires { IsOfKind (kind_of b) so_far }
    ensures next { result ≡ next_of (operation_of operation) so_far b }
    ensures kind { IsOfKind (kind_of b) result }
{
    match so_far {
        Ok(a) => act(operation, a, b),
        Err(refusal) => Err(refusal),
    }
}

/// The value of a number, or the abort.
pub(crate) fn answer(found: Result<Num, ArithRefusal>) -> Result<Val, NoValue>
    ensures { Answered (number_or_abort found) result }
{
    match found {
        Ok(number) => Ok(number_value(number)),
        Err(refusal) => Err(NoValue::Arith(refusal)),
    }
}

/// The operation with each of the values in turn; where one isn't of the kind of the first, there is nothing.
fn work(operation: Folded, first: Num, values: &[Val]) -> Result<Val, NoValue>
    ensures { Answered (on_numbers (worked (operation_of operation) (Ok first)) (of_kind (kind_of first) values.now)) result }
{
    let mut total = Ok(first);
    for value in values {
        match number_like(first, value) {
            Some(number) => total = next(operation, total, number),
            None => return Err(NoValue::Undefined),
        }
    }
    answer(total)
}

/// The operation on one or more numbers of one kind, from the left.
pub(crate) fn from_left(operation: Folded, values: &[Val]) -> Result<Val, NoValue>
    ensures { Answered (numeric (from_left (operation_of operation)) values.now) result }
{
    let Some((first, others)) = values.split_first() else {
        return Err(NoValue::Undefined);
    };
    match number(first) {
        Some(first) => work(operation, first, others),
        None => Err(NoValue::Undefined),
    }
}

fn negated(value: &Val) -> Result<Val, NoValue>
    ensures { Answered (numeric subtracted (value.now ∷ [])) result }
{
    match number(value) {
        Some(number) => answer(act(Folded::Difference, zero_like(number), number)),
        None => Err(NoValue::Undefined),
    }
}

/// A difference from the left; of one number alone, 0 less that number.
pub(crate) fn difference(values: &[Val]) -> Result<Val, NoValue>
    ensures { Answered (numeric subtracted values.now) result }
{
    if values.len() == 1 {
        negated(&values[0])
    } else {
        from_left(Folded::Difference, values)
    }
}
