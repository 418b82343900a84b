//! The traces of the entries of a transaction file: their lines, and the steps that write them, one
//! for each entry.
#![tactic(auto)]

mod laws;
mod lines;
mod steps;

pub use laws::{a_file_has_one_trace_script, each_file_has_a_trace_script};
pub use lines::trace_text;
pub use steps::TraceSteps;
