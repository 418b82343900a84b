//! Charges.
ghost use Rattle.std.specs.Prelude.{◌≡◌, ◌<◌, ◌^◌, IfOk, map};
ghost use Rattle.cl_values.specs.Wire.{size_of};
ghost use Rattle.cl_meaning.specs.Scope.{sizes};

use cl_shapes::CostName;
use cl_types::{Name, NoMemory};
use cl_values::Val;
use std::marker::Model;

/// The name of a cost, and the number at which it is charged.
#[derive(Drop)]
pub struct Charge {
    name: CostName,
    number: u64,
}

impl Model for Charge {
    ghost use Rattle.std.specs.Prelude.{◌<◌, ◌^◌};
    ghost use Rattle.cl_meaning.specs.Limits.{Charge as Charged};

    ghost Value = { Charged };

    ghost view = { λ c. (c.name, c.number) };

    ghost invariant = { λ c. c.number < 2 ^ 40 };
}

impl Charge {
    /// The greatest number that is charged.
    const MOST: u64 = 1_099_511_627_776;

    /// A charge at a number, which is refused where no memory could hold so many bytes.
    pub fn at(name: CostName, number: u64) -> Result<Charge, NoMemory>
        ensures { IfOk result (λ c. c ≡ (name, number)) }
    {
        if number < Charge::MOST {
            Ok(Charge { name, number })
        } else {
            Err(NoMemory)
        }
    }

    /// A charge at the size of a value.
    pub fn of(name: CostName, value: &Val) -> Charge
        ensures { result ≡ (name, size_of value.now) }
    {
        Charge {
            name,
            number: u64::from(value.size()),
        }
    }

    /// A charge at the sum of the sizes of values.
    pub fn of_all(name: CostName, values: &[Val]) -> Result<Charge, NoMemory>
        ensures { IfOk result (λ c. c ≡ (name, sizes values.now)) }
    {
        let mut total = 0;
        for value in values {
            total += u64::from(value.size());
            if total >= Charge::MOST {
                return Err(NoMemory);
            }
        }
        Ok(Charge {
            name,
            number: total,
        })
    }

    /// A charge at the sum of the sizes of values under keys.
    pub fn of_entries(name: CostName, entries: &[(Name, Val)]) -> Result<Charge, NoMemory>
        ensures { IfOk result (λ c. c ≡ (name, sizes (map (λ e. e.1) entries.now))) }
    {
        let mut total = 0;
        for entry in entries {
            total += u64::from(entry.1.size());
            if total >= Charge::MOST {
                return Err(NoMemory);
            }
        }
        Ok(Charge {
            name,
            number: total,
        })
    }

    /// The name of the cost.
    pub fn name(&self) -> CostName
        ensures { result ≡ self.now.0 }
    {
        self.name
    }

    /// The number.
    pub fn number(&self) -> u64
        ensures value { result ≡ self.now.1 }
        ensures small { result < 2 ^ 40 }
    {
        self.number
    }
}
