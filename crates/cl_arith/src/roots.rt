// Roots and logarithms of whole numbers below 2^128.
ghost use Rattle.std.specs.Prelude.{◌≡◌, ◌^◌, ◌<◌};
ghost use Rattle.cl_arith.specs.Roots.{square_root, log2};

/// The square root, rounded down.
pub fn square_root(n: u128) -> u128
    ensures value { result ≡ square_root n }
    ensures bound { result < 2 ^ 64 }
{
    n.isqrt()
}

/// The logarithm to base 2, rounded down.
pub fn log2(n: u128) -> u128
    requires { 0 < n }
    ensures value { result ≡ log2 n }
    ensures bound { result < 128 }
{
    u128::from(n.ilog2())
}
