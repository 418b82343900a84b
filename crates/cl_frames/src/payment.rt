//! Charges.
ghost use Rattle.std.specs.Prelude.{◌≡◌, ◌<◌, ◌^◌, length};
ghost use Rattle.cl_costs.specs.Tables.{function_of};
ghost use Rattle.cl_values.specs.Wire.{size_of};
ghost use Rattle.cl_meaning.specs.Scope.{sizes};
ghost use Rattle.cl_frames.specs.Runs.{Pays};

use crate::stop::Stop;
use cl_costs::CostTable;
use cl_shapes::{CostName, Meter};
use cl_values::Val;

/// Charges the cost of a name at a number. A charge that is refused leaves the meter as it was.
pub fn pay(costs: &CostTable, meter: &mut Meter, name: CostName, number: u64) -> Result<(), Stop>
    requires { number < 2 ^ 40 }
    ensures { Pays (function_of costs.now) meter.old name number result meter.new }
{
    match meter.charge(costs.of(name).at(number)) {
        Ok(()) => Ok(()),
        Err(over) => Err(Stop::CostLimit(over)),
    }
}

/// Charges the cost of a name at the size of a value.
pub fn pay_for(
    costs: &CostTable,
    meter: &mut Meter,
    name: CostName,
    value: &Val,
) -> Result<(), Stop>
    ensures { Pays (function_of costs.now) meter.old name (size_of value.now) result meter.new }
{
    pay(costs, meter, name, u64::from(value.size()))
}

/// The sum of the sizes of values.
pub fn total_size(values: &[Val]) -> u64
    requires { length values.now < 1048576 }
    ensures sum { result ≡ sizes values.now }
    ensures small { result < 2 ^ 40 }
{
    let mut total = 0;
    for value in values {
        total += u64::from(value.size());
    }
    total
}

/// Charges the cost of a name at the sum of the sizes of values.
pub fn pay_for_all(
    costs: &CostTable,
    meter: &mut Meter,
    name: CostName,
    values: &[Val],
) -> Result<(), Stop>
    requires { length values.now < 1048576 }
    ensures { Pays (function_of costs.now) meter.old name (sizes values.now) result meter.new }
{
    pay(costs, meter, name, total_size(values))
}
