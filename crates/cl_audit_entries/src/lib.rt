//! The entries of a transaction file, audited: an entry is done by the rules of the language alone,
//! and its trace compared with claims.
#![tactic(auto)]

mod call;
mod deploy;
mod deployment;
mod endings;
mod forms;
mod frame;
mod lookup;
mod node;

pub use node::{Audited, AuditedNode};
