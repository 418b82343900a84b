//! What moved, in a form in which it is soon looked up.
ghost use Rattle.std.specs.Prelude.{◌≡◌, List, IfOk, OnOk};
ghost use Rattle.std.specs.BTreeMap.{get};
ghost use Rattle.cl_events.specs.declared.event.Move.{Move};
ghost use Rattle.cl_post.specs.Post.{fitting, sent, has_sent};
ghost use Rattle.cl_post.specs.Holdings.{AddsMove, AreSums, parts_cmp, sum_found};
ghost use Rattle.cl_post.specs.Looked.{IsMoved};

use crate::holding::Holding;
use crate::sum::{added, has_sent, sent};
use cl_c32::Principal;
use cl_events::{Asset, Move};
use cl_types::NoMemory;
use std::alloc::Global;
use std::collections::BTreeMap;

/// So many moves or conditions are gone through in less time than they are put in order.
pub(crate) const FEW: usize = 8;

/// The moves: their sums in order, or where these are few or there is no memory, they themselves.
#[derive(Drop)]
pub(crate) enum Moved<'a> {
    Summed(BTreeMap<Holding<'a>, Option<u128>>),
    Listed(&'a [Move]),
}

fn sum_in<'a>(sums: &BTreeMap<Holding<'a>, Option<u128>>, holding: &Holding<'a>) -> Option<u128>
    ensures { result ≡ sum_found (get parts_cmp sums.now holding.now) }
{
    match sums.get(holding) {
        Some(sum) => *sum,
        None => Some(0),
    }
}

fn add_move<'a>(
    sums: &mut BTreeMap<Holding<'a>, Option<u128>>,
    made: &'a Move,
) -> Result<(), NoMemory>
    ensures { OnOk result (AddsMove made.now sums.old sums.new) }
{
    let holding = Holding::new(&made.from, &made.asset);
    let sum = added(sum_in(sums, &holding), made.amount);
    sums.insert(holding, sum)?;
    Ok(())
}

fn summed<'a>(
    alloc: Global,
    moves: &'a [Move],
) -> Result<BTreeMap<Holding<'a>, Option<u128>>, NoMemory>
    ensures { IfOk result (λ sums. AreSums moves.now sums) }
{
    let mut sums = BTreeMap::new(alloc);
    let mut i = moves.len();
    while i > 0 {
        i -= 1;
        add_move(&mut sums, &moves[i])?;
    }
    Ok(sums)
}

impl<'a> Moved<'a> {
    /// Moves that are looked up so often.
    pub(crate) fn new(alloc: Global, moves: &'a [Move], times: usize) -> Moved<'a>
        ensures { IsMoved moves.now result }
    {
        if times <= FEW || moves.len() <= FEW {
            return Moved::Listed(moves);
        }
        match summed(alloc, moves) {
            Ok(sums) => Moved::Summed(sums),
            Err(NoMemory) => Moved::Listed(moves),
        }
    }

    /// The sum of the amounts of an asset that left a principal; None where it is above all
    /// amounts.
    pub(crate) fn sent(&self, principal: &'a Principal, asset: &'a Asset) -> Option<u128>
        ensures { (moves : List Move) → IsMoved moves self.now →
            result ≡ fitting (sent moves principal.now asset.now) }
    {
        match self {
            Moved::Summed(sums) => sum_in(sums, &Holding::new(principal, asset)),
            Moved::Listed(moves) => sent(moves, principal, asset),
        }
    }

    /// Whether some move is of this asset by this principal.
    pub(crate) fn has_sent(&self, principal: &'a Principal, asset: &'a Asset) -> bool
        ensures { (moves : List Move) → IsMoved moves self.now →
            result ≡ has_sent moves principal.now asset.now }
    {
        match self {
            Moved::Summed(sums) => sums.contains_key(&Holding::new(principal, asset)),
            Moved::Listed(moves) => has_sent(moves, principal, asset),
        }
    }
}
