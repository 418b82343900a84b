//! The order in which definitions are evaluated.
#![tactic(auto)]

mod index;
mod laws;
mod naming;
mod ordering;
mod search;

pub use laws::{cycles_are_rings, good_order_or_cycle, orders_are_good};
pub use ordering::{order, order_with_hash_key};
