// Operations on uints.
ghost use Rattle.std.specs.Prelude.{◌≡◌, pos, ◌^◌, ◌<◌};
ghost use Rattle.std.specs.Option.{SomeIff};
ghost use Rattle.cl_arith.specs.Numbers.{UintKind};
ghost use Rattle.cl_arith.specs.Operations.{sum, difference, product, quotient, remainder, power, tested};

use crate::{ArithRefusal, Num};

pub fn add(x: u128, y: u128) -> Result<Num, ArithRefusal>
    ensures { result ≡ tested UintKind (sum (pos x) (pos y)) }
{
    x.checked_add(y)
        .map(Num::Uint)
        .ok_or(ArithRefusal::Overflow)
}

pub fn sub(x: u128, y: u128) -> Result<Num, ArithRefusal>
    ensures { result ≡ tested UintKind (difference (pos x) (pos y)) }
{
    x.checked_sub(y)
        .map(Num::Uint)
        .ok_or(ArithRefusal::Underflow)
}

pub fn mul(x: u128, y: u128) -> Result<Num, ArithRefusal>
    ensures { result ≡ tested UintKind (product (pos x) (pos y)) }
{
    x.checked_mul(y)
        .map(Num::Uint)
        .ok_or(ArithRefusal::Overflow)
}

pub fn div(x: u128, y: u128) -> Result<Num, ArithRefusal>
    ensures { result ≡ tested UintKind (quotient (pos x) (pos y)) }
{
    x.checked_div(y)
        .map(Num::Uint)
        .ok_or(ArithRefusal::DivideByZero)
}

pub fn rem(x: u128, y: u128) -> Result<Num, ArithRefusal>
    ensures { result ≡ tested UintKind (remainder (pos x) (pos y)) }
{
    x.checked_rem(y)
        .map(Num::Uint)
        .ok_or(ArithRefusal::DivideByZero)
}

pub fn pow(x: u128, y: u128) -> Result<Num, ArithRefusal>
    ensures { result ≡ tested UintKind (power (pos x) (pos y)) }
{
    checked_power(x, y)
        .map(Num::Uint)
        .ok_or(ArithRefusal::Overflow)
}

/// The power, where it fits. It takes at most two multiplications for each bit of the exponent.
pub fn checked_power(base: u128, exponent: u128) -> Option<u128>
    ensures { SomeIff result (base ^ exponent < 2 ^ 128) (base ^ exponent) }
{
    if exponent == 0 {
        return Some(1);
    }
    let mut power: u128 = 1;
    let mut square = base;
    let mut left = exponent;
    while 1 < left {
        if left % 2 == 1 {
            power = power.checked_mul(square)?;
        }
        square = square.checked_mul(square)?;
        left /= 2;
    }
    power.checked_mul(square)
}
