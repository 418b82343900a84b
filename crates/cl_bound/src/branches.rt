//! Branches, of which the greater counts.
ghost use Rattle.std.specs.Prelude.{◌≡◌};
ghost use Rattle.cl_costs.specs.Tables.{function_of};
ghost use Rattle.cl_rules.specs.Bills.{cost_under};
ghost use Rattle.cl_rules.specs.Verdicts.{Found};
ghost use Rattle.cl_sums.specs.Sums.{told};
ghost use Rattle.cl_bound.specs.Own.{branch_by, branches_of};

use crate::prices::Prices;
use crate::sizes::{bad_size, good_size};
use cl_code::{Op, PartsNative};
use cl_shapes::CostName;
use cl_sums::Sum;
use cl_types::SizedTy;

/// A branch: it binds nothing, an optional's or ok part, or an err part.
#[derive(Clone, Copy)]
pub(crate) enum Branch {
    Plain,
    Good,
    Bad,
}

/// The branches of an expression that has any.
pub(crate) fn branches_of(op: &Op) -> Option<(Branch, Branch)>
    ensures { result ≡ branches_of op.now }
{
    match op {
        Op::OnParts { native, .. } => match native {
            PartsNative::If => Some((Branch::Plain, Branch::Plain)),
            _ => None,
        },
        Op::MatchOptional { .. } => Some((Branch::Good, Branch::Plain)),
        Op::MatchResponse { .. } => Some((Branch::Good, Branch::Bad)),
        _ => None,
    }
}

/// A branch as it counts, with the bound of what is evaluated there, where the input has this type.
pub(crate) fn counted_branch(prices: &Prices, branch: Branch, input: &SizedTy, inside: &Sum) -> Sum
    ensures { (f : Found) → inside.now ≡ told (cost_under (function_of prices.now.costs) f.bound) → result ≡ told (cost_under (function_of prices.now.costs) (branch_by branch input.now f)) }
{
    match branch {
        Branch::Plain => *inside,
        Branch::Good => prices
            .charge(CostName::Bind, u64::from(good_size(input)))
            .add(inside),
        Branch::Bad => prices
            .charge(CostName::Bind, u64::from(bad_size(input)))
            .add(inside),
    }
}
