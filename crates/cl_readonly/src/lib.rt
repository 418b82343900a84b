//! Functions that write.
#![tactic(auto)]

mod along;
mod nodes;
mod walk;

pub use along::{first_writing, functions_that_write};
