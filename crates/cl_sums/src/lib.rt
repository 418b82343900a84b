//! Sums of costs, told apart where they are above 128 bits.
#![tactic(auto)]

mod sum;

pub use sum::Sum;
