//! How a call ends.
ghost use Rattle.std.specs.Prelude.{◌≡◌, ◌∷◌, [], Some, None, false, IfOk, OnErr, length};
ghost use Rattle.cl_values.specs.Tree.{ResponseV};
ghost use Rattle.cl_tx.specs.Nodes.{NodeSeen, nothing_told, settled, answered};
ghost use Rattle.cl_nodes.specs.Calling.{IsResponse, ended_so};

use crate::layer;
use crate::result::result_with;
use cl_shapes::Cost5;
use cl_state::World;
use cl_tx::{Common, EntryRefusal, Outcome, Stop, TxResult};
use cl_types::{Access, NoMemory};
use cl_values::{Kind, Val};
use std::alloc::Global;

/// What becomes of a call on a layer of its own, what it is charged, and whether the layer is kept.
#[derive(Drop)]
pub struct Ended {
    pub outcome: Outcome,
    pub cost: Option<Cost5>,
    pub kept: bool,
}

impl Ended {
    /// The end of a call that isn't run.
    pub fn of_refusal(refusal: EntryRefusal) -> Ended
        ensures { result
            ≡ record { outcome = Outcome.Refused refusal; cost = None; kept = false } }
    {
        Ended {
            outcome: Outcome::Refused(refusal),
            cost: None,
            kept: false,
        }
    }

    /// The end of a call whose changes are undone, and which is charged all the same.
    pub fn of_failure(outcome: Outcome, spent: Cost5) -> Ended
        ensures { result ≡ record { outcome = outcome; cost = Some spent; kept = false } }
    {
        Ended {
            outcome,
            cost: Some(spent),
            kept: false,
        }
    }
}

/// A response taken apart: whether it is ok, and what it is ok or err of.
fn open_response(response: Val) -> (bool, Val)
    requires { IsResponse response }
    ensures { response ≡ ResponseV result.0 result.1 }
{
    match response.into_value().kind {
        Kind::Response { good, inner } => match Val::make(Box::into_inner(inner)) {
            Ok(inner) => (good, inner),
            Err(_refusal) => unreachable!(),
        },
        _ => unreachable!(),
    }
}

/// The end of a call without an err and an abort: where a post-condition fails, what was done is
/// undone.
fn settle(alloc: Global, world: &World, common: &Common, outcome: Outcome, spent: Cost5) -> Ended
    ensures { (node : NodeSeen) →
        settled common.now node node nothing_told outcome spent world.now.stack.top
        ≡ ended_so result node world.now.stack.top }
{
    match layer::failing(alloc, world, common) {
        None => Ended {
            outcome,
            cost: Some(spent),
            kept: true,
        },
        Some(index) => Ended::of_failure(Outcome::Aborted(Stop::PostCondition { index }), spent),
    }
}

/// The end of a call that gave a value: a public function's err undoes what was done.
pub fn answer_with(
    alloc: Global,
    world: &World,
    common: &Common,
    access: Access,
    value: Val,
    spent: Cost5,
) -> Ended
    requires { access ≡ Access.Public → IsResponse value }
    ensures { (node : NodeSeen) → answered common.now access value node spent world.now.stack.top
        ≡ Some (ended_so result node world.now.stack.top) }
{
    match access {
        Access::Public => {
            let (good, inner) = open_response(value);
            if good {
                settle(alloc, world, common, Outcome::Good(inner), spent)
            } else {
                Ended::of_failure(Outcome::Bad(inner), spent)
            }
        }
        Access::ReadOnly | Access::Private => settle(
            alloc,
            world,
            common,
            Outcome::Plain(value),
            spent,
        ),
    }
}

/// Ends the layer of a call: it becomes the base, and its events are handed out, or it is taken off.
pub fn close(alloc: Global, world: &mut World, ended: Ended) -> Result<TxResult, NoMemory>
    requires { length world.old.stack.below ≡ 1 }
    ensures closed { IfOk result (λ r. (node : NodeSeen) →
        node.state ∷ [] ≡ world.old.stack.below → ended_so ended node world.old.stack.top
        ≡ record { node = record node { state = world.new.stack.top }; result = r }) }
    ensures base { world.new.stack.below ≡ [] }
    ensures refused { OnErr result (world.new.stack.top ∷ [] ≡ world.old.stack.below) }
{
    let Ended {
        outcome,
        cost,
        kept,
    } = ended;
    if kept {
        let events = layer::keep(world)?;
        Ok(result_with(alloc, outcome, cost, events))
    } else {
        world.drop_layer();
        Ok(result_with(alloc, outcome, cost, Vec::new(alloc)))
    }
}

/// The result of a call whose layer is taken off, whatever comes of it.
pub fn peek(alloc: Global, world: &mut World, ended: Ended) -> Result<TxResult, NoMemory>
    requires { length world.old.stack.below ≡ 1 }
    ensures result { IfOk result
        (λ r. (node : NodeSeen) → (ended_so ended node world.old.stack.top).result ≡ r) }
    ensures base { world.new.stack.below ≡ [] }
    ensures undone { world.new.stack.top ∷ [] ≡ world.old.stack.below }
{
    let Ended {
        outcome,
        cost,
        kept,
    } = ended;
    let events = layer::take_off(alloc, world, kept)?;
    Ok(result_with(alloc, outcome, cost, events))
}
