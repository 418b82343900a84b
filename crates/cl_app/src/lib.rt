//! The top call: from the words of the command line and the files that they name to the bytes that
//! are written and the status.
#![tactic(auto)]

mod files;
mod inputs;
mod laws;
mod steps;
mod top;

pub use inputs::read_inputs;
pub use laws::{each_command_has_a_script, scripts_are_done_in_order, scripts_are_one};
pub use top::clarity;
