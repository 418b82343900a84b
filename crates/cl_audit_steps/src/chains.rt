//! `and` and `or`, which stop at the first false or the first true.
ghost use Rattle.std.specs.Prelude.{◌≡◌, []};
ghost use Rattle.cl_events.specs.State.{State};
ghost use Rattle.cl_values.specs.Tree.{Tree};
ghost use Rattle.cl_meaning.specs.Answers.{Answer, give};
ghost use Rattle.cl_meaning.specs.Scope.{Scope, Take};
ghost use Rattle.cl_audit_steps.specs.Steps.{chain, chain_on, link_step};
ghost use Rattle.cl_audit_steps.specs.declared.step.Chain.TheVariants.{And, Or};

use crate::step::{Chain, Link};
use cl_operands::truth_of;
use cl_seq::bool_value;
use cl_values::Val;

/// What follows the value of a part.
pub fn link(chain: Chain, value: Val) -> Link
    ensures { (more : State → Answer Tree) (s : State) → chain_on chain more value s ≡
        link_step result more s }
{
    match chain {
        Chain::And => link_and(value),
        Chain::Or => link_or(value),
    }
}

fn link_and(value: Val) -> Link
    ensures { (more : State → Answer Tree) (s : State) → chain_on And more value s ≡
        link_step result more s }
{
    match truth_of(&value) {
        Some(true) => Link::More,
        Some(false) => Link::Ends(value),
        None => Link::Wrong,
    }
}

fn link_or(value: Val) -> Link
    ensures { (more : State → Answer Tree) (s : State) → chain_on Or more value s ≡
        link_step result more s }
{
    match truth_of(&value) {
        Some(true) => Link::Ends(value),
        Some(false) => Link::More,
        None => Link::Wrong,
    }
}

/// The value where no part is left.
pub fn link_end(kind: Chain) -> Val
    ensures { (take : Take) (S : Scope) (s : State) → chain kind take S [] s ≡ give result s }
{
    match kind {
        Chain::And => bool_value(true),
        Chain::Or => bool_value(false),
    }
}
