//! The first bound that is above the limit.
ghost use Rattle.std.specs.Prelude.{◌≡◌, ℕ, List, ◌∷◌};
ghost use Rattle.cl_shapes.specs.declared.cost.Cost5.{Cost5};
ghost use Rattle.cl_shapes.specs.Costs.{first_above};
ghost use Rattle.cl_costs.specs.Tables.{function_of};
ghost use Rattle.cl_code.specs.Definitions.{form_defined};
ghost use Rattle.cl_rules.specs.Acceptance.{most_cost, bound_at, bound_of, forms_at};
ghost use Rattle.cl_rules.specs.FormRules.{Defined};
ghost use Rattle.cl_rules.specs.PlainProgram.{above_at, bound_stop, or_later};
ghost use Rattle.cl_rules.specs.Bills.{cost_under};
ghost use Rattle.cl_rules.specs.Context.{signature_in};
ghost use Rattle.cl_contracts.specs.Seen.{forms_of};
ghost use Rattle.cl_sums.specs.Sums.{told};
ghost use Rattle.cl_bound.specs.Seen.{ShowsPrices};

use crate::contract::definition_at;
use crate::prices::Prices;
use cl_code::Definition;
use cl_contracts::Parts;
use cl_sexpr::Span;
use cl_shapes::Dimension;
use cl_sums::Sum;
use cl_types::Name;

/// The first dimension in which a sum is above the limit.
fn above(sum: &Sum) -> Option<Dimension>
    ensures { (a : Cost5) → sum.now ≡ told a → result ≡ first_above most_cost a }
{
    match sum.counted() {
        Ok(_) => None,
        Err(dimension) => Some(dimension),
    }
}

/// The same of the function of a name, with this span.
fn over(prices: &Prices, name: &Name, span: Span) -> Option<(Dimension, Span)>
    ensures { (D : Defined) → ShowsPrices prices.now D.context → result ≡ above_at span (function_of prices.now.costs) (bound_at (signature_in name.now D.context.functions)) }
{
    match prices.functions.get(name) {
        Some(application) => match above(&application.bound) {
            Some(dimension) => Some((dimension, span)),
            None => None,
        },
        None => None,
    }
}

/// The first dimension in which the bound of a definition that is a function is above the limit, and its span.
fn function_stop(prices: &Prices, definition: &Definition) -> Option<(Dimension, Span)>
    ensures { (D : Defined) → ShowsPrices prices.now D.context → result ≡ above_at (form_defined definition.now).span (function_of prices.now.costs) (bound_of D (form_defined definition.now)) }
{
    match definition {
        Definition::Function(function) => over(prices, &function.name, function.span),
        _ => None,
    }
}

/// Where a look at the definition at a place stops.
fn stop_at(prices: &Prices, parts: &Parts, place: usize) -> Option<(Dimension, Span)>
    ensures { (D : Defined) (places : List ℕ) → ShowsPrices prices.now D.context →
        let costs = function_of prices.now.costs in
        bound_stop costs D (forms_at (forms_of parts.now) (place ∷ places))
        ≡ or_later result (bound_stop costs D (forms_at (forms_of parts.now) places)) }
{
    match definition_at(parts, place) {
        Some(definition) => function_stop(prices, definition),
        None => None,
    }
}

/// The first function, in the order of evaluation, whose bound is above the limit, with the first
/// such dimension; or the deployment, which is nowhere.
pub(crate) fn first_stop(
    prices: &Prices,
    parts: &Parts,
    deployment: &Sum,
) -> Option<(Dimension, Span)>
    ensures { (D : Defined) → ShowsPrices prices.now D.context →
        let costs = function_of prices.now.costs in
        deployment.now ≡ told (cost_under costs D.deploy) →
        result ≡ bound_stop costs D (forms_at (forms_of parts.now) parts.now.order.items) }
{
    for place in &parts.order {
        if let Some(stop) = stop_at(prices, parts, *place) {
            return Some(stop);
        }
    }
    match above(deployment) {
        Some(dimension) => Some((dimension, Span { start: 0, end: 0 })),
        None => None,
    }
}
