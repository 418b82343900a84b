//! The sum, and how it is charged.
ghost use Rattle.std.specs.Prelude.{◌≡◌, ℕ, ◌+◌, ◌-◌, ◌*◌, ◌^◌, max, None};
ghost use Rattle.cl_shapes.specs.Costs.{plus, greater, times, counted, first_above, in_each};
ghost use Rattle.cl_shapes.specs.declared.cost.Cost5.{Cost5 as Numbers};
ghost use Rattle.cl_sums.specs.Sums.{fitting, told, Increases};

use cl_shapes::{Cost5, Dimension};

/// A sum of costs: the number in each dimension, None where it is above 2^128-1.
#[derive(Clone, Copy)]
pub struct Sum {
    pub runtime: Option<u128>,
    pub read_count: Option<u128>,
    pub read_length: Option<u128>,
    pub write_count: Option<u128>,
    pub write_length: Option<u128>,
}

/// Adds a number that fits, which in most dimensions is 0.
fn increase(sum: &mut Option<u128>, by: u128)
    ensures { (m : ℕ) → sum.old ≡ fitting m → sum.new ≡ fitting (m + by) }
{
    if by == 0 {
        return;
    }
    if let Some(so_far) = *sum {
        *sum = so_far.checked_add(by);
    }
}

/// Adds a number.
fn increase_by(sum: &mut Option<u128>, by: Option<u128>)
    ensures { (m n : ℕ) → sum.old ≡ fitting m → by ≡ fitting n → sum.new ≡ fitting (m + n) }
{
    match by {
        Some(by) => increase(sum, by),
        None => *sum = None,
    }
}

fn greater(a: Option<u128>, b: Option<u128>) -> Option<u128>
    ensures { (m n : ℕ) → a ≡ fitting m → b ≡ fitting n → result ≡ fitting (max m n) }
{
    match a {
        Some(a) => match b {
            Some(b) => Some(a.max(b)),
            None => None,
        },
        None => None,
    }
}

fn times(a: Option<u128>, k: u32) -> Option<u128>
    ensures { (m : ℕ) → a ≡ fitting m → result ≡ fitting (m * k) }
{
    match a {
        Some(a) => a.checked_mul(u128::from(k)),
        None => { if k == 0 { Some(0) } else { None } }
    }
}

impl Sum {
    /// No cost in any dimension.
    pub const ZERO: Sum = Sum {
        runtime: Some(0),
        read_count: Some(0),
        read_length: Some(0),
        write_count: Some(0),
        write_length: Some(0),
    };

    /// A cost that fits.
    pub fn of(cost: Cost5) -> Sum
        ensures { result ≡ told cost }
    {
        Sum {
            runtime: Some(cost.runtime),
            read_count: Some(cost.read_count),
            read_length: Some(cost.read_length),
            write_count: Some(cost.write_count),
            write_length: Some(cost.write_length),
        }
    }

    /// The cost, or the first dimension in which it is above 2^128-1.
    pub fn counted(&self) -> Result<Cost5, Dimension>
        ensures { (a : Numbers) → self.now ≡ told a → result ≡ counted a }
    {
        let runtime = match self.runtime {
            Some(n) => n,
            None => return Err(Dimension::Runtime),
        };
        let read_count = match self.read_count {
            Some(n) => n,
            None => return Err(Dimension::ReadCount),
        };
        let read_length = match self.read_length {
            Some(n) => n,
            None => return Err(Dimension::ReadLength),
        };
        let write_count = match self.write_count {
            Some(n) => n,
            None => return Err(Dimension::WriteCount),
        };
        let write_length = match self.write_length {
            Some(n) => n,
            None => return Err(Dimension::WriteLength),
        };
        Ok(Cost5 {
            runtime,
            read_count,
            read_length,
            write_count,
            write_length,
        })
    }

    /// The cost, with 2^128-1 for a number that is above it.
    pub fn saturated(&self) -> Cost5
        ensures { (a : Numbers) → self.now ≡ told a → first_above (in_each (2 ^ 128 - 1)) a ≡ None → result ≡ a }
    {
        Cost5 {
            runtime: self.runtime.unwrap_or(u128::MAX),
            read_count: self.read_count.unwrap_or(u128::MAX),
            read_length: self.read_length.unwrap_or(u128::MAX),
            write_count: self.write_count.unwrap_or(u128::MAX),
            write_length: self.write_length.unwrap_or(u128::MAX),
        }
    }

    /// Adds a cost in each dimension.
    pub fn charge(&mut self, cost: &Cost5)
        ensures { Increases self.old self.new cost.now }
    {
        increase(&mut self.runtime, cost.runtime);
        increase(&mut self.read_count, cost.read_count);
        increase(&mut self.read_length, cost.read_length);
        increase(&mut self.write_count, cost.write_count);
        increase(&mut self.write_length, cost.write_length);
    }

    /// Adds another sum in each dimension.
    pub fn increase(&mut self, other: &Sum)
        ensures { (a b : Numbers) → self.old ≡ told a → other.now ≡ told b → self.new ≡ told (plus a b) }
    {
        increase_by(&mut self.runtime, other.runtime);
        increase_by(&mut self.read_count, other.read_count);
        increase_by(&mut self.read_length, other.read_length);
        increase_by(&mut self.write_count, other.write_count);
        increase_by(&mut self.write_length, other.write_length);
    }

    /// The sum in each dimension.
    pub fn add(&self, other: &Sum) -> Sum
        ensures { (a b : Numbers) → self.now ≡ told a → other.now ≡ told b → result ≡ told (plus a b) }
    {
        let mut sum = *self;
        sum.increase(other);
        sum
    }

    /// The greater number in each dimension, which may come from different sums.
    pub fn max(&self, other: &Sum) -> Sum
        ensures { (a b : Numbers) → self.now ≡ told a → other.now ≡ told b → result ≡ told (greater a b) }
    {
        Sum {
            runtime: greater(self.runtime, other.runtime),
            read_count: greater(self.read_count, other.read_count),
            read_length: greater(self.read_length, other.read_length),
            write_count: greater(self.write_count, other.write_count),
            write_length: greater(self.write_length, other.write_length),
        }
    }

    /// `k` times the number in each dimension; 0 where `k` is 0, whatever the number.
    pub fn times(&self, k: u32) -> Sum
        ensures { (a : Numbers) → self.now ≡ told a → result ≡ told (times a k) }
    {
        Sum {
            runtime: times(self.runtime, k),
            read_count: times(self.read_count, k),
            read_length: times(self.read_length, k),
            write_count: times(self.write_count, k),
            write_length: times(self.write_length, k),
        }
    }
}
