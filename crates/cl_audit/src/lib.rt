//! The auditor: calls of functions evaluated by the rules of the language alone, and compared with
//! the claims of a trace. It stands on no part of the evaluator, and evaluates no typed tree.
//!
//! A tuple with a key twice, which the checker refuses, ends a call as if memory had run out.
#![tactic(auto)]

mod agreeing;
mod calls;
mod laws;
mod trace;

pub use agreeing::{Agreement, agreement_of};
pub use calls::{Audit, audit_call, audited_call};
pub use laws::walks_are_limited;
pub use trace::Trace;
