//! The shape of a state, events and moves.
#![tactic(auto)]

mod event;
mod laws;

pub use event::{Asset, Event, EventKind, Move};
pub use laws::{genesis_is_a_ledger, principals_are_told_apart_by_keys};
