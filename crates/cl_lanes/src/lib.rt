//! Calls that are tried ahead of their turn in lanes, and committed in the order of a file.
#![tactic(auto)]

mod all_moves;
mod committing;
mod held;
mod in_turn;
mod laws;
mod moves;
mod next;
mod progress;
mod ready;
mod spare;
mod spots;

pub use all_moves::lanes;
pub use held::Held;
pub use in_turn::run_in_lanes;
pub use laws::{entries_are_done_in_turn, lanes_run_the_entries};
pub use moves::Move;
pub use progress::Progress;
pub use spots::footprint;
