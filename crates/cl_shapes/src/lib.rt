// Costs in five dimensions (SIP-006), the functions that give them, and the meter that keeps them within a limit.
#![tactic(auto)]

mod cost;
mod function;
mod limit;
mod name;

pub use cost::{Cost5, Dimension};
pub use function::{CostFn, Shape};
pub use limit::{Meter, Over};
pub use name::CostName;
