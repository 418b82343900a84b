//! Whether results of entries are equal, part by part.
#![tactic(auto)]

mod events;
mod outcomes;
mod parts;
mod results;

pub use results::equal_results;
