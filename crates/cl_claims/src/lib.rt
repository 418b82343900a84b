//! Claims, each of what a node of an evaluation gave, as the lines of a file.
#![tactic(auto)]

mod reading;
mod spelled;
mod writing;

pub use reading::{BadLine, next_line};
pub use spelled::ClaimLine;
pub use writing::write_claim;
