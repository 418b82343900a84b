//! The wire form of values (SIP-005).
#![tactic(auto)]

mod decoder;
mod encoder;
mod leaves;
mod parts;

pub use cl_values::DecodeRefusal;
pub use decoder::decode;
pub use encoder::encode;
