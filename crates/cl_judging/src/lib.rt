//! The checker of expressions.
#![tactic(auto)]

mod calls;
mod context;
mod controls;
mod given;
mod judging;
mod kinds;
mod leaves;
mod literals;
mod matches;
mod max_len;
mod named;
mod names;
mod node;
mod parts;
mod scope;
mod targets;
mod tuples;
mod uses;
mod verdicts;
mod walk;

pub use context::{Context, Signature};
pub use judging::judge;
pub use targets::params_copied;
