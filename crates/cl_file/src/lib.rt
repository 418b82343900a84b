//! The transaction file.
#![tactic(auto)]

mod addresses;
mod condition;
mod conditions;
mod entries;
mod entry;
mod epochs;
mod examples;
mod file;
mod holders;
mod kind;
mod laws;
mod literal;
mod member;
mod names;
mod object;
mod path;
mod refusal;
mod row;
mod spelling;
mod tx_file;

pub use conditions::Conditions;
pub use entry::{Common, Entry};
pub use examples::{epochs_by_example, faults_by_example, files_by_example, versions_by_example};
pub use file::read;
pub use laws::files_have_one_reading;
pub use refusal::TxRefusal;
pub use row::Row;
pub use tx_file::TxFile;
