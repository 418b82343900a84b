//! The top call of the program that runs a transaction file in lanes.
#![tactic(auto)]

mod draws;
mod laws;
mod report;
mod top;
mod words;

pub use laws::lanes_report_as_run;
pub use top::clarity_lanes;
