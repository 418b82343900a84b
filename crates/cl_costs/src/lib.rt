// Cost tables: a cost function (SIP-006) for each name of what is charged for, and the files that they are read from.
#![tactic(auto)]

mod cost_file;
mod function;
mod numbers;
mod refusal;
mod schedule;
mod shape;
mod table;

pub use cost_file::{read, read_value, reads_each_name, reads_every_table};
pub use refusal::CostRefusal;
pub use schedule::{Schedule, epochs_begin_at_their_heights, one_table_an_epoch};
pub use table::CostTable;
