ghost use Rattle.std.specs.Prelude.{◌≡◌, ◌^◌, ◌<◌, Ok, Err, IfOk, IfErr, OnErr};
ghost use Rattle.cl_shapes.specs.Costs.{IsAtMost, IsBelow};

use crate::cost::{Cost5, Dimension};
use std::marker::Model;

/// A charge that was refused, since the sum would have been above the limit.
#[derive(Clone, Copy)]
pub struct Over {
    /// The first dimension in which the sum is above the limit.
    pub dimension: Dimension,
    /// What had been spent, with the refused charge.
    pub attempted: Cost5,
    /// The limit in that dimension.
    pub limit: u64,
}

/// How much was spent of a limit, which is never above it in any dimension.
#[derive(Drop)]
pub struct Meter {
    limit: Cost5,
    spent: Cost5,
}

impl Model for Meter {
    ghost use Rattle.std.specs.Prelude.{◌^◌};
    ghost use Rattle.cl_shapes.specs.Costs.{IsAtMost, IsBelow};
    ghost use Rattle.cl_shapes.specs.Limits.{Purse};

    ghost Value = { Purse };

    ghost view = { λ m. record { limit = m.limit; spent = m.spent } };

    ghost invariant = { λ m. IsAtMost m.spent m.limit × IsBelow (2 ^ 64) m.limit };
}

impl Meter {
    ghost use Rattle.cl_shapes.specs.Limits.{full, spend};

    /// Nothing is spent of a limit, which has its numbers in the order of the dimensions.
    pub fn new(limit: [u64; 5]) -> Meter
        ensures { result ≡ full limit }
    {
        let [runtime, read_count, read_length, write_count, write_length] = limit.map(u128::from);
        Meter {
            limit: Cost5 {
                runtime,
                read_count,
                read_length,
                write_count,
                write_length,
            },
            spent: Cost5::ZERO,
        }
    }

    /// A meter with the same limit, of which the same was spent.
    pub fn copy(&self) -> Meter
        ensures { result ≡ self.now }
    {
        Meter {
            limit: self.limit,
            spent: self.spent,
        }
    }

    /// The sum of what was charged.
    pub fn spent(&self) -> Cost5
        ensures value { result ≡ self.now.spent }
        ensures within { IsAtMost result self.now.limit }
    {
        self.spent
    }

    /// Spends a cost, unless the sum is above the limit: the meter then stays as it was.
    pub fn charge(&mut self, cost: Cost5) -> Result<(), Over>
        requires { IsBelow (2 ^ 100) cost }
        ensures spends { IfOk result (λ _. spend self.old cost ≡ Ok self.new) }
        ensures over { IfErr result (λ over. spend self.old cost ≡ Err over) }
        ensures unchanged { OnErr result (self.new ≡ self.old) }
    {
        let attempted = Cost5 {
            runtime: self.spent.runtime + cost.runtime,
            read_count: self.spent.read_count + cost.read_count,
            read_length: self.spent.read_length + cost.read_length,
            write_count: self.spent.write_count + cost.write_count,
            write_length: self.spent.write_length + cost.write_length,
        };
        if let Some(dimension) = attempted.first_above(&self.limit) {
            let limit = self.limit.part(dimension) as u64;
            return Err(Over {
                dimension,
                attempted,
                limit,
            });
        }
        self.spent = attempted;
        Ok(())
    }
}
