//! Calls that are tried on a copy of a world.
ghost use Rattle.std.specs.Prelude.{◌≡◌, [], List, IfOk};
ghost use Rattle.cl_shapes.specs.declared.function.CostFn.{CostFn};
ghost use Rattle.cl_costs.specs.Tables.{function_of};
ghost use Rattle.cl_nodes.specs.Asked.{call_entry};
ghost use Rattle.cl_engine.specs.Asked.{IsReady};
ghost use Rattle.cl_nodes.specs.Bounded.{AreBounded, AreUnder, IsWhole};
ghost use Rattle.cl_engine.specs.Trials.{TriesCall};

use crate::call::call;
use cl_bound::KnownBounds;
use cl_code::Silent;
use cl_nodes::{BoundedContracts, Contracts, Invocation, Moment};
use cl_state::World;
use cl_tx::TxResult;
use cl_types::NoMemory;
use std::alloc::Global;

/// What a call makes of a node: its result, and the world after it, which has no layer above the
/// base.
#[derive(Drop)]
pub struct Trial {
    pub result: TxResult,
    pub world: World,
}

/// The bounds that were computed for a table, or the kept ones where none had to be.
#[tactic(auto, using(cl_nodes::proofs::BoundsFor::bounds_computed, cl_nodes::proofs::BoundsFor::bounds_kept))]
fn bounds_for<'a>(contracts: &'a Contracts, computed: &'a Option<KnownBounds>) -> &'a KnownBounds
    requires { IsWhole contracts.now }
    ensures { (table : List CostFn) → AreUnder contracts.now table computed.now →
        AreBounded (function_of table) contracts.now.deployed result.now }
{
    match computed {
        Some(bounds) => bounds,
        None => &contracts.bounds,
    }
}

/// Calls a function on a copy of a world.
pub(crate) fn try_on_copy(
    alloc: Global,
    world: &World,
    contracts: &Contracts,
    moment: &Moment,
    invocation: &Invocation,
) -> Result<Trial, NoMemory>
    requires base { world.now.stack.below ≡ [] }
    requires whole { IsWhole contracts.now }
    requires ready { IsReady world.now contracts.now.deployed moment.now
        (call_entry invocation.now) }
    ensures tried { IfOk result
        (λ t. TriesCall invocation.now moment.now contracts.now world.now t) }
    ensures base { IfOk result (λ t. t.world.stack.below ≡ []) }
{
    let computed = contracts.bounds_under(alloc, moment.costs)?;
    let bounded = BoundedContracts {
        deployed: &contracts.deployed,
        bounds: bounds_for(contracts, &computed),
    };
    let mut copy = world.copy()?;
    let mut nobody = Silent;
    let result = call(alloc, &mut copy, &bounded, moment, invocation, &mut nobody)?;
    Ok(Trial {
        result,
        world: copy,
    })
}
