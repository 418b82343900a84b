//! Applications of what is given by name.
ghost use Rattle.std.specs.Prelude.{◌≡◌, ◌<◌, ◌^◌, List, length, map};
ghost use Rattle.cl_types.specs.Types.{PlainType};
ghost use Rattle.cl_costs.specs.Tables.{function_of};
ghost use Rattle.cl_rules.specs.Bills.{cost_under};
ghost use Rattle.cl_rules.specs.Context.{Context};
ghost use Rattle.cl_rules.specs.Verdicts.{number_at, sizes_of};
ghost use Rattle.cl_code.specs.Typed.{type_of};
ghost use Rattle.cl_sums.specs.Sums.{told};
ghost use Rattle.cl_bound.specs.Seen.{ShowsPrices};
ghost use Rattle.cl_bound.specs.Own.{applied_to, given, iterated};

use crate::prices::Prices;
use crate::sizes::sizes;
use cl_code::{Applied, Code, native_cost};
use cl_shapes::CostName;
use cl_sums::Sum;

/// Values by their number and the sum of their sizes.
#[derive(Clone, Copy)]
pub(crate) struct Values {
    pub(crate) count: u64,
    pub(crate) sizes: u64,
}

fn number_of(name: CostName, values: Values) -> u64
    requires { (values.count < 2 ^ 40) × (values.sizes < 2 ^ 40) }
    ensures value { (ts : List PlainType) → values.count ≡ length ts → values.sizes ≡ sizes_of ts → result ≡ number_at name ts }
    ensures small { result < 2 ^ 40 }
{
    match name {
        CostName::Arith | CostName::Control => values.count,
        _ => values.sizes,
    }
}

/// One application of what is given by name.
#[tactic(auto, using(crate::proofs::ByNames::native_sum, crate::proofs::ByNames::function_sum))]
fn applied_to(prices: &Prices, applied: &Applied, values: Values) -> Sum
    requires { (values.count < 2 ^ 40) × (values.sizes < 2 ^ 40) }
    ensures { (G : Context) (ts : List PlainType) → ShowsPrices prices.now G → values.count ≡ length ts → values.sizes ≡ sizes_of ts → result ≡ told (cost_under (function_of prices.now.costs) (applied_to (given G applied.now) ts)) }
{
    match applied {
        Applied::Function(function) => prices.function(&function.name),
        Applied::OnValues(native, _) => {
            let cost = native_cost(*native);
            prices.charge(cost, number_of(cost, values))
        }
        Applied::And(_) | Applied::Or(_) => prices.charge(CostName::Control, values.count),
    }
}

/// The iteration over the parts, and so many applications.
pub(crate) fn iterated(
    prices: &Prices,
    applied: &Applied,
    parts: &[Code],
    times: u32,
    values: Values,
) -> Sum
    requires { (length parts.now < 1048576) × (values.count < 2 ^ 40) × (values.sizes < 2 ^ 40) }
    ensures { (G : Context) (ts : List PlainType) → ShowsPrices prices.now G → values.count ≡ length ts → values.sizes ≡ sizes_of ts → result ≡ told (cost_under (function_of prices.now.costs) (iterated (given G applied.now) (map type_of parts.now) times ts)) }
{
    let iteration = prices.charge(CostName::Iterate, sizes(parts));
    let one = applied_to(prices, applied, values);
    iteration.add(&one.times(times))
}
