//! Who listens to the events of committed transactions.
//!
//! Code is written over the trait `Listener`, and proved once against what it promises. A boxed
//! listener is one, too.
#![tactic(auto)]

mod boxed;
mod laws;
mod listener;
mod listeners;
mod one;
mod recorder;
mod telling;

pub use laws::events_told_in_turn;
pub use listener::{Deaf, Listener};
pub use listeners::{Listeners, Numbered};
pub use recorder::Recorder;
pub use telling::dispatch;
