//! Addresses and their c32check texts, contract names and principals. Nothing here takes memory.
#![tactic(auto)]

mod address;
mod address_text;
mod alphabet;
mod codec;
mod contract_name;
mod digits;
mod laws;
mod principal;

pub use address::Address;
pub use address_text::AddressText;
pub use codec::{C32Refusal, decode, encode};
pub use contract_name::ContractName;
pub use laws::{one_number, one_principal, one_text};
pub use principal::Principal;
