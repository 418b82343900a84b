//! Bounds of typed trees.
ghost use Rattle.std.specs.Prelude.{◌≡◌, List};
ghost use Rattle.cl_costs.specs.Tables.{function_of};
ghost use Rattle.cl_rules.specs.Bills.{cost_under};
ghost use Rattle.cl_rules.specs.Context.{Context, Names};
ghost use Rattle.cl_rules.specs.Verdicts.{Found, sum_of};
ghost use Rattle.cl_rules.specs.Shapes.{Plan};
ghost use Rattle.cl_code.specs.Typed.{typeds};
ghost use Rattle.cl_sums.specs.Sums.{told, Increases};
ghost use Rattle.cl_bound.specs.Seen.{ShowsPrices};
ghost use Rattle.cl_contracts.specs.Standing.{Stands, StandAll};
ghost use Rattle.cl_bound.specs.Own.{branch_by, of_branches};

use crate::branches::{Branch, branches_of, counted_branch};
use crate::own::add_own;
use crate::prices::Prices;
use cl_code::Code;
use cl_sums::Sum;

/// The bound of the expression that a tree stands for.
pub(crate) fn tree_bound(prices: &Prices, code: &Code) -> Sum
    ensures { (G : Context) (B : Names) (f : Found) → ShowsPrices prices.now G → Stands G B code.now f → result ≡ told (cost_under (function_of prices.now.costs) f.bound) }
{
    let mut sum = Sum::ZERO;
    add_bound(prices, code, &mut sum);
    sum
}

/// Adds the bound of the expression that a tree stands for.
#[cycle(bound)]
pub(crate) fn add_bound(prices: &Prices, code: &Code, sum: &mut Sum)
    ensures { (G : Context) (B : Names) (f : Found) → ShowsPrices prices.now G → Stands G B code.now f → Increases sum.old sum.new (cost_under (function_of prices.now.costs) f.bound) }
{
    add_own(prices, &code.op, &code.ty, &code.parts, sum);
    match branches_of(&code.op) {
        Some((first, second)) => {
            sum.increase(&branches_bound(prices, &code.parts, first, second));
        }
        None => add_parts(prices, &code.parts, sum),
    }
}

/// Adds the bounds of all parts.
#[cycle(bound)]
fn add_parts(prices: &Prices, parts: &[Code], sum: &mut Sum)
    ensures { (G : Context) (p : Plan) (fs : List Found) → ShowsPrices prices.now G → StandAll G p (typeds parts.now) fs → Increases sum.old sum.new (cost_under (function_of prices.now.costs) (sum_of fs)) }
{
    for part in parts {
        add_bound(prices, part, sum);
    }
}

/// A part that is always evaluated, and the greater of two.
#[cycle(bound)]
fn branches_bound(prices: &Prices, parts: &[Code], first: Branch, second: Branch) -> Sum
    ensures { (G : Context) (p : Plan) (fs : List Found) → ShowsPrices prices.now G → StandAll G p (typeds parts.now) fs → result ≡ told (cost_under (function_of prices.now.costs) (of_branches (branch_by first) (branch_by second) fs)) }
{
    match parts {
        [input, a, b] => {
            let mut sum = Sum::ZERO;
            add_bound(prices, input, &mut sum);
            let mut inside = Sum::ZERO;
            add_bound(prices, a, &mut inside);
            let a = counted_branch(prices, first, &input.ty, &inside);
            let mut inside = Sum::ZERO;
            add_bound(prices, b, &mut inside);
            let b = counted_branch(prices, second, &input.ty, &inside);
            sum.increase(&a.max(&b));
            sum
        }
        _ => Sum::ZERO,
    }
}
