//! Results of entries.
ghost use Rattle.std.specs.Prelude.{◌≡◌, ◌↔◌, IsTrue};
ghost use Rattle.cl_tx.specs.declared.outcome.Reach.TheVariants.{Bound, Over};

use crate::outcomes::equal_outcomes;
use crate::parts::{Compared, equal_dimensions, equal_lists, equal_options};
use cl_shapes::{Cost5, Dimension};
use cl_tx::{Bounds, Reach, Rebound, TxResult};

impl Compared for Bounds {
    fn equals(&self, other: &Bounds) -> bool {
        self.deploy.equals(&other.deploy)
            && equal_lists(self.functions.as_slice(), other.functions.as_slice())
    }
}

fn is_bound(reach: &Reach, cost: &Cost5) -> bool
    ensures { IsTrue result ↔ (reach.now ≡ Bound cost.now) }
{
    match reach {
        Reach::Bound(other) => other.equals(cost),
        Reach::Over(_) => false,
    }
}

fn is_over(reach: &Reach, dimension: Dimension) -> bool
    ensures { IsTrue result ↔ (reach.now ≡ Over dimension) }
{
    match reach {
        Reach::Over(other) => equal_dimensions(*other, dimension),
        Reach::Bound(_) => false,
    }
}

fn equal_reaches(first: &Reach, second: &Reach) -> bool
    ensures { IsTrue result ↔ (first.now ≡ second.now) }
{
    match first {
        Reach::Bound(cost) => is_bound(second, cost),
        Reach::Over(dimension) => is_over(second, *dimension),
    }
}

impl Compared for Rebound {
    fn equals(&self, other: &Rebound) -> bool {
        self.contract == other.contract
            && self.name.equals(&other.name)
            && equal_reaches(&self.reach, &other.reach)
            && self.returns.equals(&other.returns)
    }
}

/// Whether two results of entries are equal. This takes no memory.
pub fn equal_results(first: &TxResult, second: &TxResult) -> bool
    ensures { IsTrue result ↔ (first.now ≡ second.now) }
{
    equal_outcomes(&first.outcome, &second.outcome)
        && equal_options(&first.cost, &second.cost)
        && equal_options(&first.bounds, &second.bounds)
        && equal_lists(first.types.as_slice(), second.types.as_slice())
        && equal_lists(first.events.as_slice(), second.events.as_slice())
        && equal_lists(first.rebounds.as_slice(), second.rebounds.as_slice())
}
