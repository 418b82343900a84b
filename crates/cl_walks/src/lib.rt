//! Walks under a limit that an observer watches: how they end, and the laws by which they are put
//! together.
#![tactic(auto)]

mod laws;
mod stop;

pub use laws::walks_go_along;
pub use stop::{Stop, Why};
