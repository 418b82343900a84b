//! Bounds of what typed trees are charged (SIP-006).
#![tactic(auto)]

mod block;
mod bounds;
mod branches;
mod contract;
mod forms;
mod keywords;
mod known;
mod native_heads;
mod own;
mod prices;
mod repricing;
mod sizes;
mod stop;
mod under;
mod using;
mod walk;

pub use block::rebounds;
pub use bounds::{Priced, bound};
pub use known::{ContractBounds, KnownBounds};
pub use repricing::{Repriced, rebound};
