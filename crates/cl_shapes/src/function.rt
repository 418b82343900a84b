ghost use Rattle.std.specs.Prelude.{◌≡◌, ℕ, ◌^◌, ◌<◌, ◌≤◌, ◌+◌};
ghost use Rattle.cl_shapes.specs.Costs.{IsAtMost, IsBelow};
ghost use Rattle.cl_shapes.specs.Functions.{shape_at, cost_at, log2, IsLog2};

use crate::cost::Cost5;

/// How a cost rises with a number `n`. The logarithm is to base 2, rounded down, and that of 0 is 0.
#[derive(Clone, Copy)]
pub enum Shape {
    /// `b`
    Constant(u32),
    /// `a * n + b`
    Linear(u32, u32),
    /// `a * log2(n) + b`
    Logn(u32, u32),
    /// `a * n * log2(n) + b`
    Nlogn(u32, u32),
}

impl Shape {
    fn at(self, n: u64) -> u128
        ensures value { result ≡ shape_at self n }
        ensures bound { n < 2 ^ 40 → result < 2 ^ 100 }
    {
        let logarithm = u128::from(log2(n));
        let n = u128::from(n);
        match self {
            Shape::Constant(b) => u128::from(b),
            Shape::Linear(a, b) => u128::from(a) * n + u128::from(b),
            Shape::Logn(a, b) => u128::from(a) * logarithm + u128::from(b),
            Shape::Nlogn(a, b) => u128::from(a) * n * logarithm + u128::from(b),
        }
    }
}

/// The logarithm to base 2, rounded down, and 0 at 0.
fn log2(n: u64) -> u32
    ensures value { result ≡ log2 n }
    ensures bound { result < 64 }
{
    if n == 0 { 0 } else { n.ilog2() }
}

/// What one name of a cost table costs at a number: a shape for each dimension.
#[derive(Clone, Copy)]
pub struct CostFn {
    pub runtime: Shape,
    pub read_count: Shape,
    pub read_length: Shape,
    pub write_count: Shape,
    pub write_length: Shape,
}

impl CostFn {
    /// The cost at `n`, small enough to be charged to a `Meter`.
    pub fn at(&self, n: u64) -> Cost5
        requires { n < 2 ^ 40 }
        ensures value { result ≡ cost_at self.now n }
        ensures small { IsBelow (2 ^ 100) result }
    {
        self.at_any(n)
    }

    /// The cost at any `n`, for sums that have no limit.
    pub fn at_any(&self, n: u64) -> Cost5
        ensures value { result ≡ cost_at self.now n }
        ensures small { n < 2 ^ 40 → IsBelow (2 ^ 100) result }
    {
        Cost5 {
            runtime: self.runtime.at(n),
            read_count: self.read_count.at(n),
            read_length: self.read_length.at(n),
            write_count: self.write_count.at(n),
            write_length: self.write_length.at(n),
        }
    }

    /// A cost function never falls as its number rises.
    pub fn never_falls(&self)
        ensures { (m n : ℕ) → m ≤ n → IsAtMost (cost_at self.now m) (cost_at self.now n) }
    {}

    /// The logarithm in the shapes is the one to base 2, rounded down.
    pub fn log2_rounds_down()
        ensures zero { log2 0 ≡ 0 }
        ensures positive { (n : ℕ) → 0 < n → IsLog2 n (log2 n) }
    {}
}
