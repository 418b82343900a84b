//! Whether the conditions of a transaction hold.
ghost use Rattle.std.specs.Prelude.{◌≡◌, ◌<◌, ◌^◌, List, length, IfSome};
ghost use Rattle.cl_events.specs.declared.event.Move.{Move};
ghost use Rattle.cl_post.specs.declared.condition.Condition.{Condition};
ghost use Rattle.cl_post.specs.Looked.{IsMoved, IsNamed};
ghost use Rattle.cl_post.specs.Post.{holds_one, first_failing, all_named, holds};

use crate::moved::Moved;
use crate::named::Named;
use crate::sum::meets;
use crate::{Condition, Mode, Test};
use cl_events::Move;
use std::alloc::Global;

#[tactic(auto, unfolding(crate::specs::Post::holds_one))]
fn holds_one<'a>(moved: &Moved<'a>, condition: &'a Condition) -> bool
    ensures { (moves : List Move) → IsMoved moves moved.now →
        result ≡ holds_one moves condition.now }
{
    let principal = &condition.principal;
    let asset = &condition.asset;
    match condition.test {
        Test::Amount(code, amount) => meets(code, moved.sent(principal, asset), amount),
        Test::Sent => moved.has_sent(principal, asset),
        Test::NotSent => !moved.has_sent(principal, asset),
    }
}

fn first_failing<'a>(moved: &Moved<'a>, conditions: &'a [Condition]) -> Option<usize>
    ensures value { (moves : List Move) → IsMoved moves moved.now →
        result ≡ first_failing moves conditions.now }
    ensures within { IfSome result (λ i. i < length conditions.now) }
{
    for i in 0..conditions.len() {
        if !holds_one(moved, &conditions[i]) {
            return Some(i);
        }
    }
    None
}

fn all_named<'a>(named: &Named<'a>, moves: &'a [Move]) -> bool
    ensures { (conditions : List Condition) → IsNamed conditions named.now →
        result ≡ all_named conditions moves.now }
{
    for made in moves {
        if !named.has(made) {
            return false;
        }
    }
    true
}

/// The place of the first condition that fails, and None where each holds. In deny mode, where each holds and a move is of an
/// asset that no condition names for its principal, it is the number of conditions. Sums are whole numbers without an end.
/// Many moves and conditions are put in order, in memory that is given back; where there is none, each
/// condition goes through all moves, with the same answer.
#[tactic(auto, unfolding(crate::specs::Post::holds))]
pub fn holds(alloc: Global, moves: &[Move], mode: Mode, conditions: &[Condition]) -> Option<u32>
    requires { length conditions.now < 2 ^ 32 }
    ensures { result ≡ holds moves.now mode conditions.now }
{
    let moved = Moved::new(alloc, moves, conditions.len());
    if let Some(i) = first_failing(&moved, conditions) {
        return Some(i as u32);
    }
    match mode {
        Mode::Allow => None,
        Mode::Deny => {
            let named = Named::new(alloc, conditions, moves.len());
            if all_named(&named, moves) {
                None
            } else {
                Some(conditions.len() as u32)
            }
        }
    }
}
