//! A node: what an entry of a transaction file makes of it.
#![tactic(auto)]

mod call;
mod deploy;
mod deployment;
mod ending;
mod frame;
mod lookup;
mod node;
mod prepare;
mod trial;

pub use cl_nodes::{nodes_are_known_in_one_way, types_of};
pub use node::Node;
pub use trial::Trial;
