//! Nodes as contracts see them; and what is before an evaluation and after it: what an entry asks for,
//! the deployed contracts with the bounds of their functions, the sources that are accepted; how a call
//! ends, and results.
#![tactic(auto)]

mod admitting;
mod asked;
mod contracts;
mod ending;
mod laws;
mod layer;
mod names;
mod parts;
mod result;
mod told;

pub use admitting::{Accepted, accept};
pub use asked::{Asked, Deployment, Invocation, Moment, asked_by};
pub use contracts::{BoundedContracts, Contracts};
pub use ending::{Ended, answer_with, close, peek};
pub use laws::{entries_have_one_trace, nodes_are_known_in_one_way};
pub use layer::{failing, keep};
pub use names::{person, principal_of};
pub use parts::{are_holders, has_parts};
pub use result::{block_begun, meter_of, refused};
pub use told::{Told, told_of, types_of};
