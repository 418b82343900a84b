//! The auditor of transaction files: the results of their entries, checked from the traces by the
//! rules of the language alone.
#![tactic(auto)]

mod checking;
mod refusal;
mod results;

pub use checking::audit;
pub use refusal::AuditRefusal;
pub use results::audited;
