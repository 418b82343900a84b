//! What conditions name, in a form in which it is soon looked up.
ghost use Rattle.std.specs.Prelude.{◌≡◌, List, IfOk, OnOk};
ghost use Rattle.cl_post.specs.declared.condition.Condition.{Condition};
ghost use Rattle.cl_post.specs.Post.{is_named};
ghost use Rattle.cl_post.specs.Holdings.{AddsCondition, AreNamed};
ghost use Rattle.cl_post.specs.Looked.{IsNamed};

use crate::Condition;
use crate::holding::Holding;
use crate::moved::FEW;
use crate::sameness::is_of;
use cl_events::Move;
use cl_types::NoMemory;
use std::alloc::Global;
use std::collections::BTreeSet;

/// The conditions: what they name in order, or where they are few or there is no memory, they
/// themselves.
#[derive(Drop)]
pub(crate) enum Named<'a> {
    Ordered(BTreeSet<Holding<'a>>),
    Listed(&'a [Condition]),
}

fn add_condition<'a>(
    named: &mut BTreeSet<Holding<'a>>,
    condition: &'a Condition,
) -> Result<(), NoMemory>
    ensures { OnOk result (AddsCondition condition.now named.old named.new) }
{
    named.insert(Holding::new(&condition.principal, &condition.asset))?;
    Ok(())
}

fn ordered<'a>(
    alloc: Global,
    conditions: &'a [Condition],
) -> Result<BTreeSet<Holding<'a>>, NoMemory>
    ensures { IfOk result (λ named. AreNamed conditions.now named) }
{
    let mut named = BTreeSet::new(alloc);
    let mut i = conditions.len();
    while i > 0 {
        i -= 1;
        add_condition(&mut named, &conditions[i])?;
    }
    Ok(named)
}

fn is_named(conditions: &[Condition], made: &Move) -> bool
    ensures { result ≡ is_named conditions.now made.now }
{
    for condition in conditions {
        if is_of(&condition.principal, &condition.asset, made) {
            return true;
        }
    }
    false
}

impl<'a> Named<'a> {
    /// Conditions that are looked up so often.
    pub(crate) fn new(alloc: Global, conditions: &'a [Condition], times: usize) -> Named<'a>
        ensures { IsNamed conditions.now result }
    {
        if times <= FEW || conditions.len() <= FEW {
            return Named::Listed(conditions);
        }
        match ordered(alloc, conditions) {
            Ok(named) => Named::Ordered(named),
            Err(NoMemory) => Named::Listed(conditions),
        }
    }

    /// Whether a condition is on the asset of a move, by who made it.
    pub(crate) fn has(&self, made: &'a Move) -> bool
        ensures { (conditions : List Condition) → IsNamed conditions self.now →
            result ≡ is_named conditions made.now }
    {
        match self {
            Named::Ordered(named) => named.contains(&Holding::new(&made.from, &made.asset)),
            Named::Listed(conditions) => is_named(conditions, made),
        }
    }
}
