//! Transaction files entry by entry: the step of each, with its events and its lines; and what a reply is, how a command ends and why
//! it stops.
#![tactic(auto)]

mod entries;
mod laws;
mod run;
mod status;

pub use entries::{End, Ended, end_entry};
pub use laws::{a_file_has_one_script, runs_are_sound};
pub use run::{EntrySteps, first_node, first_node_with_hash_key, schedule_of};
pub use status::{Reply, Status, Step, Stop, bytes_reply, concat_bytes, end_number, text_reply};
