//! Listeners, active and deaf.
ghost use Rattle.std.specs.Prelude.{◌≡◌, [], IfOk, map};
ghost use Rattle.cl_listeners.specs.Hearing.{AreDistinct, numbers, all_numbers, heard_by};

use crate::Listener;
use cl_types::NoMemory;
use std::alloc::Global;
use std::marker::Model;

/// A listener with its number.
#[derive(Drop)]
pub struct Numbered<L: Listener> {
    pub number: u32,
    pub listener: L,
}

/// Listeners with numbers of their own: those that are told events, and those that went deaf, in the order in which they did.
#[derive(Drop)]
pub struct Listeners<L: Listener> {
    pub(crate) active: Vec<Numbered<L>>,
    pub(crate) deaf: Vec<Numbered<L>>,
}

impl<L: Listener> Model for Listeners<L> {
    ghost use Rattle.std.specs.Prelude.{◌≤◌, ◌+◌, ◌++◌, map, vec_len, vec_capacity};
    ghost use Rattle.cl_listeners.specs.Hearing.{Both, AreDistinct, numbers, heard_by};
    ghost use Rattle.cl_listeners.specs.Codes.{both_code};
    ghost use Rattle.cl_events.specs.contracts.event.Event as event;

    ghost Value = { Both };

    ghost coded = { both_code event.the_row.coded };

    ghost view = { λ l. record {
      active = map (λ n. heard_by n.number (L.heard n.listener) (L.faults n.listener)) l.active.items;
      deaf = map (λ n. heard_by n.number (L.heard n.listener) (L.faults n.listener)) l.deaf.items;
    } };

    // A listener that goes deaf takes no memory, and has its number for itself.
    ghost invariant = { λ l. record {
      room : vec_len l.active + vec_len l.deaf ≤ vec_capacity l.deaf;
      own : AreDistinct (numbers (map (λ n. heard_by n.number (L.heard n.listener) (L.faults n.listener)) l.active.items)
          ++ numbers (map (λ n. heard_by n.number (L.heard n.listener) (L.faults n.listener)) l.deaf.items));
    } };
}

impl<L: Listener> Listeners<L> {
    /// The listeners, all active, each with a number of its own. This takes the room for those that go deaf.
    ///
    /// # Errors
    ///
    /// `NoMemory` where there is none for that room.
    pub fn new(alloc: Global, active: Vec<Numbered<L>>) -> Result<Listeners<L>, NoMemory>
        requires { AreDistinct (numbers (map (λ n. heard_by n.number (L.heard n.listener) (L.faults n.listener)) active.items)) }
        ensures { IfOk result (λ l. l ≡ record {
          active = map (λ n. heard_by n.number (L.heard n.listener) (L.faults n.listener)) active.items;
          deaf = [];
        }) }
    {
        let deaf = Vec::with_capacity(alloc, active.len())?;
        Ok(Listeners { active, deaf })
    }

    /// Those that are told events, in order.
    pub fn active(&self) -> &[Numbered<L>]
        ensures active { map (λ n. heard_by n.number (L.heard n.listener) (L.faults n.listener)) result.now ≡ self.now.active }
        ensures own { AreDistinct (all_numbers self.now) }
    {
        self.active.as_slice()
    }

    /// Those that went deaf, in the order in which they did.
    pub fn deaf(&self) -> &[Numbered<L>]
        ensures { map (λ n. heard_by n.number (L.heard n.listener) (L.faults n.listener)) result.now ≡ self.now.deaf }
    {
        self.deaf.as_slice()
    }
}
