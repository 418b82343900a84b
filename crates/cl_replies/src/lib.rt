//! The replies to the commands: what each writes for its inputs, a matter of values alone.
#![tactic(auto)]

mod call;
mod generated;
mod inputs;
mod judge;
mod root;
mod root_lines;
mod rows;
mod spelling;
mod verify;

pub use call::call_reply;
pub use generated::gen_reply;
pub use inputs::{FileFault, Inputs, bad_file_reply, usage_reply};
pub use judge::check_reply;
pub use root::{prove_reply, root_reply};
pub use spelling::{no_value_reply, value_reply, wire_reply};
pub use verify::verify_reply;
