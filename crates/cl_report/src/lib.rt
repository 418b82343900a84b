//! The text of the report: the lines of each entry.
#![tactic(auto)]

mod entries;

pub use entries::{lines, lines_with};
