//! The natives on values.
#![tactic(auto)]

mod arguments;
mod bits;
mod call;
mod content;
mod definedness;
mod depths;
mod equality;
mod hashes;
mod numbers;
mod optionals;
mod pairs;
mod refusal;
mod rows;
mod sequence_definedness;

pub use call::{NativeCall, apply, try_apply};
pub use definedness::defined;
pub use refusal::ApplyRefusal;
pub use rows::apply_native;
