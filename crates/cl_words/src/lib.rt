//! The words of the command line: which command they ask for, and the values, sources and numbers that they spell.
#![tactic(auto)]

mod argument;
mod line;
mod numbers;
mod sources;
mod words;

pub use argument::values;
pub use line::{Flag, Line, read};
pub use numbers::number_within;
pub use sources::{Source, contract_at};
pub use words::{AuditWords, CheckWords, Command, command_on};
