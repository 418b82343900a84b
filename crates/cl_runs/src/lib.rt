//! Calls of functions and deployments of contracts from outside, metered, on a world.
#![tactic(auto)]

mod call;
mod definitions;
mod top;

pub use call::{Called, run, run_found, run_watched};
pub use top::{run_top, run_top_watched};
