//! The checker of contracts.
#![tactic(auto)]

mod adding;
mod checker;
mod forms;
mod kinds;
mod placing;
mod reading;
mod walk;

pub use checker::check;
