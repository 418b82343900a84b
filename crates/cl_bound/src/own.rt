//! What an expression is charged itself.
ghost use Rattle.std.specs.Prelude.{◌≡◌, true, suc, ◌-◌, ◌<◌, length, map, take};
ghost use Rattle.cl_shapes.specs.declared.name.CostName.TheVariants.{Bind, Control};
ghost use Rattle.cl_costs.specs.Tables.{function_of};
ghost use Rattle.cl_rules.specs.Bills.{Charge, Both, cost_under};
ghost use Rattle.cl_rules.specs.Context.{Context};
ghost use Rattle.cl_rules.specs.ControlShapes.{binds};
ghost use Rattle.cl_types.specs.Types.{size_of};
ghost use Rattle.cl_code.specs.Typed.{type_of};
ghost use Rattle.cl_sums.specs.Sums.{told, Increases};
ghost use Rattle.cl_bound.specs.Seen.{ShowsPrices};
ghost use Rattle.cl_bound.specs.Own.{own, named, counted, given, iteration};
ghost use Rattle.cl_code.specs.Nodes.{has_parts};
ghost use Rattle.cl_code.specs.OpNames.{name_head};
ghost use Rattle.cl_forms.specs.Heads.{row_of, takes};

use crate::keywords::keyword_cost;
use crate::native_heads::{name_head, parts_head};
use crate::prices::Prices;
use crate::sizes::{entry_sizes, first_sequence, least_length, number, sizes};
use crate::using::{Values, iterated};
use cl_code::{Applied, Code, Iteration, NameNative, Op, native_cost};
use cl_forms::cost_of;
use cl_shapes::CostName;
use cl_sums::Sum;
use cl_types::{SizedTy, size};

/// Adds a charge by the size of a type.
fn add_sized(prices: &Prices, name: CostName, ty: &SizedTy, sum: &mut Sum)
    ensures { Increases sum.old sum.new (cost_under (function_of prices.now.costs) (Charge name (size_of ty.now))) }
{
    prices.add_charge(name, u64::from(size(ty)), sum);
}

/// Adds a charge for the values of the parts.
fn add_counted(prices: &Prices, name: CostName, parts: &[Code], sum: &mut Sum)
    requires { length parts.now < 1048576 }
    ensures { Increases sum.old sum.new (cost_under (function_of prices.now.costs) (counted name (map type_of parts.now))) }
{
    prices.add_charge(name, number(name, parts), sum);
}

/// Adds a bind for each part.
fn add_binds(prices: &Prices, parts: &[Code], sum: &mut Sum)
    ensures { Increases sum.old sum.new (cost_under (function_of prices.now.costs) (binds (map type_of parts.now))) }
{
    for part in parts {
        add_sized(prices, CostName::Bind, &part.ty, sum);
    }
}

fn front(parts: &[Code], count: usize) -> &[Code]
    ensures { result.now ≡ take count parts.now }
{
    if count < parts.len() {
        &parts[..count]
    } else {
        parts
    }
}

/// Adds a let with so many bindings, which are its first parts.
fn add_binding(prices: &Prices, bindings: usize, parts: &[Code], sum: &mut Sum)
    requires { length parts.now < 1048576 }
    ensures { Increases sum.old sum.new (cost_under (function_of prices.now.costs) (Both (Charge Control (suc (length (map type_of parts.now) - bindings))) (binds (take bindings (map type_of parts.now))))) }
{
    let bodies = parts.len().saturating_sub(bindings) as u64;
    prices.add_charge(CostName::Control, bodies + 1, sum);
    add_binds(prices, front(parts, bindings), sum);
}

/// `map`, `filter` or `fold` of this type.
fn iteration(
    prices: &Prices,
    kind: Iteration,
    applied: &Applied,
    ty: &SizedTy,
    parts: &[Code],
) -> Sum
    requires { length parts.now < 1048576 }
    ensures { (G : Context) → ShowsPrices prices.now G → result ≡ told (cost_under (function_of prices.now.costs) (iteration kind (given G applied.now) ty.now (map type_of parts.now))) }
{
    let (length, entry) = first_sequence(parts);
    match kind {
        Iteration::Map => {
            let values = Values {
                count: parts.len() as u64,
                sizes: entry_sizes(parts),
            };
            iterated(prices, applied, parts, least_length(parts), values)
        }
        Iteration::Filter => {
            let values = Values {
                count: 1,
                sizes: u64::from(entry),
            };
            iterated(prices, applied, parts, length, values)
        }
        Iteration::Fold => {
            let values = Values {
                count: 2,
                sizes: u64::from(entry + size(ty)),
            };
            iterated(prices, applied, parts, length, values)
        }
    }
}

/// Adds a native with a leading name.
fn add_named(prices: &Prices, native: NameNative, ty: &SizedTy, parts: &[Code], sum: &mut Sum)
    requires few { length parts.now < 1048576 }
    requires fit { takes (row_of (name_head native)).arity (suc (length parts.now)) ≡ true }
    ensures { Increases sum.old sum.new (cost_under (function_of prices.now.costs) (named native ty.now (map type_of parts.now))) }
{
    match native {
        NameNative::VarGet => add_sized(prices, CostName::ReadVar, ty, sum),
        NameNative::MapGet => prices.add_charge(
            CostName::ReadMap,
            sizes(parts) + u64::from(size(ty)),
            sum,
        ),
        _ => add_counted(prices, cost_of(name_head(native)), parts, sum),
    }
}

/// Adds an expression of this type with these parts.
pub(crate) fn add_own(prices: &Prices, op: &Op, ty: &SizedTy, parts: &[Code], sum: &mut Sum)
    requires few { length parts.now < 1048576 }
    requires fit { has_parts op.now (length parts.now) ≡ true }
    ensures { (G : Context) → ShowsPrices prices.now G → Increases sum.old sum.new (cost_under (function_of prices.now.costs) (own G op.now ty.now (map type_of parts.now))) }
{
    match op {
        Op::Keyword(keyword) => add_sized(prices, keyword_cost(*keyword), ty, sum),
        Op::Bound(_) | Op::Constant(_) => add_sized(prices, CostName::Lookup, ty, sum),
        Op::OnValues { native, .. } => add_counted(prices, native_cost(*native), parts, sum),
        Op::OnParts { native, .. } => add_counted(prices, cost_of(parts_head(*native)), parts, sum),
        Op::OnName { native, .. } => add_named(prices, *native, ty, parts, sum),
        Op::Iterate {
            iteration: kind,
            applied,
            ..
        } => sum.increase(&iteration(prices, *kind, applied, ty, parts)),
        Op::AsMaxLen { .. } | Op::Tuple(_) | Op::TupleOf { .. } => add_counted(
            prices,
            CostName::Make,
            parts,
            sum,
        ),
        Op::Let { bindings, .. } => add_binding(prices, bindings.len(), parts, sum),
        Op::MatchOptional { .. } => prices.add_charge(CostName::Control, 4, sum),
        Op::MatchResponse { .. } => prices.add_charge(CostName::Control, 5, sum),
        Op::Call(function) => sum.increase(&prices.function(&function.name)),
        Op::ContractCall {
            target,
            function,
            ..
        } => sum.increase(&prices.abroad(target, &function.name)),
        _ => add_sized(prices, CostName::Literal, ty, sum),
    }
}
