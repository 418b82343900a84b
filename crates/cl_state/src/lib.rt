//! The world of a node: a base, and layers of changes on it.
#![tactic(auto)]

mod hints;
mod history;
mod laws;
mod told;
mod world;

pub use cl_tables::Spot;
pub use laws::{acts_have_answers, burns_alone_change_stx_supply, places_have_own_keys};
pub use world::{TokenAct, World};
