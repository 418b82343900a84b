//! The deployment of a contract, audited: its forms are defined one after another by the rules of the
//! language alone, and each node that gives a value is compared with the next claim.
#![tactic(auto)]

mod defining;
mod deploying;
mod paying;

pub use deploying::{DeploymentAudit, audit_deployment, audited_deployment};
