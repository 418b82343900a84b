//! The spots that a call touches and writes.
#![tactic(auto)]

mod footprint;
mod gathered;
mod named;
mod walk;

pub use footprint::{Footprint, footprint_of};
