// Arithmetic on 128-bit numbers, as the Clarity language has it (SIP-002): the exact result, or why there is none.
#![tactic(auto)]

ghost use Rattle.std.specs.Prelude.{◌≡◌, ◌≢◌, ℕ, ◌+◌, ◌-◌, ◌%◌, ◌^◌, ◌<◌, ◌≤◌, min, max, ℤ, pos, ◌+ℤ◌, ◌*ℤ◌, ◌≤ℤ◌, int_div, int_rem, unsigned_abs, Ok, Result};
ghost use Rattle.std.specs.Int.{int_pow};
ghost use Rattle.cl_arith.specs.Numbers.{Num as Number, ArithRefusal as Refusal, Kind, kind_of, whole, as_int, as_uint};
ghost use Rattle.cl_arith.specs.Operations.{sum, difference, product, quotient, remainder, power, tested, computed, exclusive_or};
ghost use Rattle.cl_arith.specs.Bits.{bit, conjunction, disjunction, complement, distance, shifted_left, shifted_right, following};
ghost use Rattle.cl_arith.specs.Ranges.{IsNumber, IsInRange};
ghost use Rattle.cl_arith.specs.Roots.{root_of, log2_of, square_root, log2, IsSquareRoot, IsLog2};

mod ints;
mod roots;
mod uints;

/// A number of one of the two kinds.
#[derive(Clone, Copy)]
pub enum Num {
    Int(i128),
    Uint(u128),
}

/// Why an operation has no result.
#[derive(Clone, Copy)]
pub enum ArithRefusal {
    /// The result is above the greatest number of its kind.
    Overflow = 1,
    /// The result is below the least number of its kind.
    Underflow = 2,
    /// The divisor is zero.
    DivideByZero = 3,
    /// An exponent or an argument is negative, or the logarithm of 0 was asked for.
    NegativeArgument = 4,
}

/// `a + b`
pub fn add(a: Num, b: Num) -> Result<Num, ArithRefusal>
    requires { kind_of a ≡ kind_of b }
    ensures { result ≡ computed sum a b }
{
    match (a, b) {
        (Num::Int(x), Num::Int(y)) => ints::add(x, y),
        (Num::Uint(x), Num::Uint(y)) => uints::add(x, y),
        _ => unreachable!(),
    }
}

/// `a - b`
pub fn sub(a: Num, b: Num) -> Result<Num, ArithRefusal>
    requires { kind_of a ≡ kind_of b }
    ensures { result ≡ computed difference a b }
{
    match (a, b) {
        (Num::Int(x), Num::Int(y)) => ints::sub(x, y),
        (Num::Uint(x), Num::Uint(y)) => uints::sub(x, y),
        _ => unreachable!(),
    }
}

/// `a * b`
pub fn mul(a: Num, b: Num) -> Result<Num, ArithRefusal>
    requires { kind_of a ≡ kind_of b }
    ensures { result ≡ computed product a b }
{
    match (a, b) {
        (Num::Int(x), Num::Int(y)) => ints::mul(x, y),
        (Num::Uint(x), Num::Uint(y)) => uints::mul(x, y),
        _ => unreachable!(),
    }
}

/// `a / b`, rounded toward zero.
pub fn div(a: Num, b: Num) -> Result<Num, ArithRefusal>
    requires { kind_of a ≡ kind_of b }
    ensures { result ≡ computed quotient a b }
{
    match (a, b) {
        (Num::Int(x), Num::Int(y)) => ints::div(x, y),
        (Num::Uint(x), Num::Uint(y)) => uints::div(x, y),
        _ => unreachable!(),
    }
}

/// What `a / b` leaves, with the sign of `a`.
pub fn rem(a: Num, b: Num) -> Result<Num, ArithRefusal>
    requires { kind_of a ≡ kind_of b }
    ensures { result ≡ computed remainder a b }
{
    match (a, b) {
        (Num::Int(x), Num::Int(y)) => ints::rem(x, y),
        (Num::Uint(x), Num::Uint(y)) => uints::rem(x, y),
        _ => unreachable!(),
    }
}

/// `a` to the power `b`; 1 where both are 0.
pub fn pow(a: Num, b: Num) -> Result<Num, ArithRefusal>
    requires { kind_of a ≡ kind_of b }
    ensures { result ≡ computed power a b }
{
    match (a, b) {
        (Num::Int(x), Num::Int(y)) => ints::pow(x, y),
        (Num::Uint(x), Num::Uint(y)) => uints::pow(x, y),
        _ => unreachable!(),
    }
}

/// Exclusive or of the 128 bits; it is never refused.
pub fn xor(a: Num, b: Num) -> Result<Num, ArithRefusal>
    requires { kind_of a ≡ kind_of b }
    ensures { result ≡ Ok (exclusive_or a b) }
{
    match (a, b) {
        (Num::Int(x), Num::Int(y)) => Ok(Num::Int(x ^ y)),
        (Num::Uint(x), Num::Uint(y)) => Ok(Num::Uint(x ^ y)),
        _ => unreachable!(),
    }
}

/// The bits that are set in both.
pub fn bit_and(a: Num, b: Num) -> Num
    requires { kind_of a ≡ kind_of b }
    ensures { result ≡ conjunction a b }
{
    match (a, b) {
        (Num::Int(x), Num::Int(y)) => Num::Int(x & y),
        (Num::Uint(x), Num::Uint(y)) => Num::Uint(x & y),
        _ => unreachable!(),
    }
}

/// The bits that are set in one of the two, or in both.
pub fn bit_or(a: Num, b: Num) -> Num
    requires { kind_of a ≡ kind_of b }
    ensures { result ≡ disjunction a b }
{
    match (a, b) {
        (Num::Int(x), Num::Int(y)) => Num::Int(x | y),
        (Num::Uint(x), Num::Uint(y)) => Num::Uint(x | y),
        _ => unreachable!(),
    }
}

/// The bits that are set in one of the two alone.
pub fn bit_xor(a: Num, b: Num) -> Num
    requires { kind_of a ≡ kind_of b }
    ensures { result ≡ exclusive_or a b }
{
    match (a, b) {
        (Num::Int(x), Num::Int(y)) => Num::Int(x ^ y),
        (Num::Uint(x), Num::Uint(y)) => Num::Uint(x ^ y),
        _ => unreachable!(),
    }
}

/// The bits that are not set.
pub fn bit_not(a: Num) -> Num
    ensures { result ≡ complement a }
{
    match a {
        Num::Int(x) => Num::Int(!x),
        Num::Uint(x) => Num::Uint(!x),
    }
}

/// The bits so many places further up, modulo 128; what goes above the highest is lost.
pub fn shift_left(a: Num, places: u128) -> Num
    ensures { result ≡ shifted_left a places }
{
    let distance = (places % 128) as u32;
    match a {
        Num::Int(x) => Num::Int(x << distance),
        Num::Uint(x) => Num::Uint(x << distance),
    }
}

/// The bits so many places further down, modulo 128; an int keeps its sign.
pub fn shift_right(a: Num, places: u128) -> Num
    ensures { result ≡ shifted_right a places }
{
    let distance = (places % 128) as u32;
    match a {
        Num::Int(x) => Num::Int(x >> distance),
        Num::Uint(x) => Num::Uint(x >> distance),
    }
}

/// The square root, rounded down.
pub fn sqrti(a: Num) -> Result<Num, ArithRefusal>
    ensures { result ≡ tested (kind_of a) (root_of (whole a)) }
{
    match a {
        Num::Int(x) if x < 0 => Err(ArithRefusal::NegativeArgument),
        Num::Int(x) => Ok(Num::Int(roots::square_root(x as u128) as i128)),
        Num::Uint(x) => Ok(Num::Uint(roots::square_root(x))),
    }
}

/// The logarithm to base 2, rounded down.
pub fn log2(a: Num) -> Result<Num, ArithRefusal>
    ensures { result ≡ tested (kind_of a) (log2_of (whole a)) }
{
    match a {
        Num::Int(x) if x <= 0 => Err(ArithRefusal::NegativeArgument),
        Num::Int(x) => Ok(Num::Int(roots::log2(x as u128) as i128)),
        Num::Uint(0) => Err(ArithRefusal::NegativeArgument),
        Num::Uint(x) => Ok(Num::Uint(roots::log2(x))),
    }
}

/// The int of the same value.
pub fn to_int(a: u128) -> Result<i128, ArithRefusal>
    ensures { result ≡ as_int (pos a) }
{
    if a <= i128::MAX as u128 {
        Ok(a as i128)
    } else {
        Err(ArithRefusal::Overflow)
    }
}

/// The uint of the same value.
pub fn to_uint(a: i128) -> Result<u128, ArithRefusal>
    ensures { result ≡ as_uint a }
{
    if a < 0 {
        Err(ArithRefusal::Underflow)
    } else {
        Ok(a as u128)
    }
}

/// A quotient is rounded toward zero: with what it leaves it makes up the dividend, and that is nearer to zero than
/// the divisor and has the dividend's sign.
pub fn quotients_round_toward_zero()
    ensures whole { (x y : ℤ) → int_div x y *ℤ y +ℤ int_rem x y ≡ x }
    ensures nearer { (x y : ℤ) → y ≢ pos 0 → unsigned_abs (int_rem x y) < unsigned_abs y }
    ensures nonnegative { (x y : ℤ) → pos 0 ≤ℤ x → pos 0 ≤ℤ int_rem x y }
    ensures nonpositive { (x y : ℤ) → x ≤ℤ pos 0 → int_rem x y ≤ℤ pos 0 }
{}

/// A power is a product of as many factors as its exponent says.
pub fn powers_are_products()
    ensures none { (x : ℤ) → int_pow x 0 ≡ pos 1 }
    ensures one_more { (x : ℤ) (n : ℕ) → int_pow x (n + 1) ≡ int_pow x n *ℤ x }
{}

/// The square roots and logarithms of 128-bit numbers are rounded down.
pub fn roots_round_down()
    ensures square_root { (n : ℕ) → n < 2 ^ 128 → IsSquareRoot n (square_root n) }
    ensures log2 { (n : ℕ) → 0 < n → n < 2 ^ 128 → IsLog2 n (log2 n) }
{}

/// What an operation gives is a number of its kind, in its range: results are tested for it, and operations on bits need no test.
pub fn results_are_in_range()
    ensures tested { (kind : Kind) (r : Result ℤ Refusal) → IsInRange kind (tested kind r) }
    ensures exclusive_or { (kind : Kind) (a b : Number) → IsNumber kind a → IsNumber kind b → IsNumber kind (exclusive_or a b) }
    ensures conjunction { (kind : Kind) (a b : Number) → IsNumber kind a → IsNumber kind b → IsNumber kind (conjunction a b) }
    ensures disjunction { (kind : Kind) (a b : Number) → IsNumber kind a → IsNumber kind b → IsNumber kind (disjunction a b) }
    ensures complement { (kind : Kind) (a : Number) → IsNumber kind a → IsNumber kind (complement a) }
    ensures left { (kind : Kind) (a : Number) (places : ℕ) → IsNumber kind a → IsNumber kind (shifted_left a places) }
    ensures right { (kind : Kind) (a : Number) (places : ℕ) → IsNumber kind a → IsNumber kind (shifted_right a places) }
{}

/// Each of the 128 bits is what the operation says of the bits of the numbers, and a number is what its bits are.
pub fn operations_go_bit_by_bit()
    ensures same { (kind : Kind) (a b : Number) → IsNumber kind a → IsNumber kind b →
        ((place : ℕ) → place < 128 → bit a place ≡ bit b place) → a ≡ b }
    ensures both { (kind : Kind) (a b : Number) → IsNumber kind a → IsNumber kind b → (place : ℕ) →
        bit (conjunction a b) place ≡ min (bit a place) (bit b place) }
    ensures either { (kind : Kind) (a b : Number) → IsNumber kind a → IsNumber kind b → (place : ℕ) →
        bit (disjunction a b) place ≡ max (bit a place) (bit b place) }
    ensures one { (kind : Kind) (a b : Number) → IsNumber kind a → IsNumber kind b → (place : ℕ) →
        bit (exclusive_or a b) place ≡ (bit a place + bit b place) % 2 }
    ensures other { (kind : Kind) (a : Number) → IsNumber kind a → (place : ℕ) → place < 128 →
        bit (complement a) place ≡ 1 - bit a place }
    ensures left { (kind : Kind) (a : Number) → IsNumber kind a → (places place : ℕ) → place < 128 →
        distance places ≤ place → bit (shifted_left a places) place ≡ bit a (place - distance places) }
    ensures below { (kind : Kind) (a : Number) → IsNumber kind a → (places place : ℕ) →
        place < distance places → bit (shifted_left a places) place ≡ 0 }
    ensures right { (kind : Kind) (a : Number) → IsNumber kind a → (places place : ℕ) →
        place + distance places < 128 → bit (shifted_right a places) place ≡ bit a (place + distance places) }
    ensures above { (kind : Kind) (a : Number) → IsNumber kind a → (places place : ℕ) → place < 128 →
        128 ≤ place + distance places → bit (shifted_right a places) place ≡ following a }
{}
