//! The reply of `audit`: whether a trace file and a report are those of a transaction file.
#![tactic(auto)]

mod comparing;
mod laws;
mod reading;
mod reply;

pub use laws::{
    a_file_has_one_audit_reply, each_file_has_an_audit_reply, own_traces_are_audited_with_yes,
};
pub use reading::read_traces;
pub use reply::audit_reply;
