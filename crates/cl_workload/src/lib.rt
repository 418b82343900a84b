//! The workload of the command `gen`: the sample token is deployed, and coins are minted and sent
//! around by drawn numbers.
#![tactic(auto)]

mod draws;
mod entries;
mod laws;
mod line;
mod source;
mod tally;

pub use draws::Draws;
pub use entries::{deployment, receiver, token};
pub use laws::workloads_are_small;
pub use line::summary;
pub use source::TOKEN;
pub use tally::Tally;
