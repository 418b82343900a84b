//! The auditor's walk: expressions are evaluated by the rules of the meaning, and each node that
//! gives a value is compared with the next claim.
#![tactic(auto)]

mod calls;
mod cursor;
mod run;
mod walk;

pub use cursor::{Claim, Cursor};
pub use run::Run;
pub use walk::{enter, take};
