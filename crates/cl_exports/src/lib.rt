//! The work of the library for C, in safe code: whole answers to words and files in memory, calls on
//! a node that is kept between them, checks of sources, and values as text and in wire form.
#![tactic(auto)]

mod checking;
mod copy;
mod files;
mod growing_sink;
mod opening;
mod outcome;
mod parts;
mod running;
mod value;
mod verdict;
mod whole;

pub use checking::check_source;
pub use copy::{copy_out, fill};
pub use growing_sink::GrowingSink;
pub use opening::{open, read_costs};
pub use outcome::{Outcome, number_of};
pub use running::{call, peek, run, state};
pub use value::{text_of, wire_of};
pub use whole::{Answer, answer_request, hand_out};
