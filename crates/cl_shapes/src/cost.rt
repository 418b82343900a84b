ghost use Rattle.std.specs.Prelude.{◌≡◌, ◌↔◌, None, Some};
ghost use Rattle.cl_shapes.specs.Costs.{Cost5, Dimension, part, dimension_name, dimensions, plus, times, greater, first_above, IsAtMost, IsFirstAbove, counted};

/// One of the five dimensions of a cost (SIP-006), in the order that holds everywhere.
#[derive(Clone, Copy)]
pub enum Dimension {
    Runtime,
    ReadCount,
    ReadLength,
    WriteCount,
    WriteLength,
}

impl Dimension {
    /// Each dimension once, in order.
    pub const ALL: [Dimension; 5] = [
        Dimension::Runtime,
        Dimension::ReadCount,
        Dimension::ReadLength,
        Dimension::WriteCount,
        Dimension::WriteLength,
    ];

    /// `ALL` has the dimensions in their order.
    pub fn all_in_order()
        ensures { Dimension.ALL ≡ dimensions }
    {}

    /// The dimension's name in cost files and reports.
    pub fn name(self) -> &'static str
        ensures { result.now ≡ dimension_name self }
    {
        match self {
            Dimension::Runtime => "runtime",
            Dimension::ReadCount => "read_count",
            Dimension::ReadLength => "read_length",
            Dimension::WriteCount => "write_count",
            Dimension::WriteLength => "write_length",
        }
    }
}

/// A cost: a whole number in each dimension.
#[derive(Clone, Copy)]
pub struct Cost5 {
    pub runtime: u128,
    pub read_count: u128,
    pub read_length: u128,
    pub write_count: u128,
    pub write_length: u128,
}

impl Cost5 {
    /// No cost in any dimension.
    pub const ZERO: Cost5 = Cost5 {
        runtime: 0,
        read_count: 0,
        read_length: 0,
        write_count: 0,
        write_length: 0,
    };

    /// The sum in each dimension, or the first dimension in which it doesn't fit.
    pub fn add(&self, other: &Cost5) -> Result<Cost5, Dimension>
        ensures { result ≡ counted (plus self.now other.now) }
    {
        let sum = |a: u128, b: u128, dimension: Dimension| a.checked_add(b).ok_or(dimension);
        Ok(Cost5 {
            runtime: sum(self.runtime, other.runtime, Dimension::Runtime)?,
            read_count: sum(self.read_count, other.read_count, Dimension::ReadCount)?,
            read_length: sum(self.read_length, other.read_length, Dimension::ReadLength)?,
            write_count: sum(self.write_count, other.write_count, Dimension::WriteCount)?,
            write_length: sum(
                self.write_length,
                other.write_length,
                Dimension::WriteLength,
            )?,
        })
    }

    /// `k` times the cost in each dimension, or the first dimension in which that doesn't fit.
    pub fn times(&self, k: u64) -> Result<Cost5, Dimension>
        ensures { result ≡ counted (times self.now k) }
    {
        let product = |a: u128, dimension: Dimension| a.checked_mul(u128::from(k)).ok_or(dimension);
        Ok(Cost5 {
            runtime: product(self.runtime, Dimension::Runtime)?,
            read_count: product(self.read_count, Dimension::ReadCount)?,
            read_length: product(self.read_length, Dimension::ReadLength)?,
            write_count: product(self.write_count, Dimension::WriteCount)?,
            write_length: product(self.write_length, Dimension::WriteLength)?,
        })
    }

    /// The greater number in each dimension, which may come from different costs.
    pub fn max(&self, other: &Cost5) -> Cost5
        ensures { result ≡ greater self.now other.now }
    {
        Cost5 {
            runtime: self.runtime.max(other.runtime),
            read_count: self.read_count.max(other.read_count),
            read_length: self.read_length.max(other.read_length),
            write_count: self.write_count.max(other.write_count),
            write_length: self.write_length.max(other.write_length),
        }
    }

    /// The number in one dimension.
    pub fn part(&self, dimension: Dimension) -> u128
        ensures { result ≡ part dimension self.now }
    {
        match dimension {
            Dimension::Runtime => self.runtime,
            Dimension::ReadCount => self.read_count,
            Dimension::ReadLength => self.read_length,
            Dimension::WriteCount => self.write_count,
            Dimension::WriteLength => self.write_length,
        }
    }

    /// No dimension is named exactly where a cost is at most a limit, and one that is named is the first.
    pub fn first_above_is_first()
        ensures none { (limit cost : Cost5) → (first_above limit cost ≡ None) ↔ IsAtMost cost limit }
        ensures named { (limit cost : Cost5) (d : Dimension) →
            first_above limit cost ≡ Some d → IsFirstAbove limit cost d }
    {}

    /// The first dimension in which this cost is above a limit.
    pub(crate) fn first_above(&self, limit: &Cost5) -> Option<Dimension>
        ensures { result ≡ first_above limit.now self.now }
    {
        if limit.runtime < self.runtime {
            Some(Dimension::Runtime)
        } else if limit.read_count < self.read_count {
            Some(Dimension::ReadCount)
        } else if limit.read_length < self.read_length {
            Some(Dimension::ReadLength)
        } else if limit.write_count < self.write_count {
            Some(Dimension::WriteCount)
        } else if limit.write_length < self.write_length {
            Some(Dimension::WriteLength)
        } else {
            None
        }
    }
}
