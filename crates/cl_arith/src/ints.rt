// Operations on ints.
ghost use Rattle.std.specs.Prelude.{◌≡◌, if◌then◌else◌};
ghost use Rattle.cl_arith.specs.Numbers.{IntKind, Overflow, Underflow};
ghost use Rattle.cl_arith.specs.Operations.{sum, difference, product, quotient, remainder, power, tested};

use crate::uints::checked_power;
use crate::{ArithRefusal, Num};

/// What is said of a result that doesn't fit.
fn beyond(is_negative: bool) -> ArithRefusal
    ensures { result ≡ (if is_negative then Underflow else Overflow) }
{
    if is_negative {
        ArithRefusal::Underflow
    } else {
        ArithRefusal::Overflow
    }
}

pub fn add(x: i128, y: i128) -> Result<Num, ArithRefusal>
    ensures { result ≡ tested IntKind (sum x y) }
{
    match x.checked_add(y) {
        Some(sum) => Ok(Num::Int(sum)),
        None => Err(beyond(y < 0)),
    }
}

pub fn sub(x: i128, y: i128) -> Result<Num, ArithRefusal>
    ensures { result ≡ tested IntKind (difference x y) }
{
    match x.checked_sub(y) {
        Some(difference) => Ok(Num::Int(difference)),
        None => Err(beyond(0 < y)),
    }
}

pub fn mul(x: i128, y: i128) -> Result<Num, ArithRefusal>
    ensures { result ≡ tested IntKind (product x y) }
{
    match x.checked_mul(y) {
        Some(product) => Ok(Num::Int(product)),
        None => Err(beyond((x < 0) != (y < 0))),
    }
}

pub fn div(x: i128, y: i128) -> Result<Num, ArithRefusal>
    ensures { result ≡ tested IntKind (quotient x y) }
{
    if y == 0 {
        return Err(ArithRefusal::DivideByZero);
    }
    // The quotient of the least int by -1 is the only one that doesn't fit.
    x.checked_div(y).map(Num::Int).ok_or(ArithRefusal::Overflow)
}

pub fn rem(x: i128, y: i128) -> Result<Num, ArithRefusal>
    ensures { result ≡ tested IntKind (remainder x y) }
{
    if y == 0 {
        return Err(ArithRefusal::DivideByZero);
    }
    // Of the least int by -1 it is 0, though the quotient doesn't fit.
    Ok(Num::Int(x.wrapping_rem(y)))
}

pub fn pow(x: i128, y: i128) -> Result<Num, ArithRefusal>
    ensures { result ≡ tested IntKind (power x y) }
{
    if y < 0 {
        return Err(ArithRefusal::NegativeArgument);
    }
    let is_negative = x < 0 && y % 2 == 1;
    let power = match checked_power(x.unsigned_abs(), y as u128) {
        Some(size) if is_negative => 0i128.checked_sub_unsigned(size),
        Some(size) => 0i128.checked_add_unsigned(size),
        None => None,
    };
    match power {
        Some(power) => Ok(Num::Int(power)),
        None => Err(beyond(is_negative)),
    }
}
