//! A box as its raw pointer, for callers that can keep no more than that.
#![tactic(auto)]

mod raw_box;

pub use raw_box::RawBox;
