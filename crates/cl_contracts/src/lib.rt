//! Checked contracts, and the deployed ones.
#![tactic(auto)]

mod checked;
mod contract;
mod deployed;
mod laws;
mod literal;
mod parts;

pub use checked::Checked;
pub use contract::Contract;
pub use deployed::Deployed;
pub use laws::{keys_stand_once, what_callers_know};
pub use literal::contract_of_literal;
pub use parts::Parts;
