//! A request for the top call: words and files, cut from one run of bytes.
#![tactic(auto)]

mod pieces;
mod request;

pub use pieces::{NoRequest, cut};
pub use request::{Request, read, text};
