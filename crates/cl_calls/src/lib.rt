//! What comes before and after the body of a function: the frame, the charges of its parameters, and the layer; and where the
//! natives end that take their parts one by one.
#![tactic(auto)]

mod across;
mod application;
mod deciding;
mod frame;

pub use across::{beside, callable, contract_there, is_valid_principal, principal_of, same};
pub use application::{bind, close, is_public, last, returned};
pub use deciding::{and_ends, or_ends};
pub use frame::{as_contract, called, is_valid};
