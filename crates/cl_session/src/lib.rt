//! A node that is kept between calls: it takes the entries of transaction files, and calls by their
//! parts, and keeps the lines of the last ones.
#![tactic(auto)]

mod call;
mod heights;
mod session;

pub use call::{call_of, contract_in};
pub use heights::never_fall;
pub use session::Session;
