//! The results of the entries of a transaction file, and the step of a node.
#![tactic(auto)]

mod examples;
mod laws;
mod outcome;

pub use cl_file::{Common, Conditions, Entry, Row, TxFile, TxRefusal, read};
pub use examples::{
    calls_of_a_function, calls_of_public_functions, calls_on_terms, deployments, steps_in_epochs,
};
pub use laws::{
    bounds_are_told_where_accepted, failed_entries_change_nothing, heights_are_those_of_the_file,
    nodes_stay_nodes, rebounds_are_told_where_epochs_change, steps_have_one_result,
};
pub use outcome::{Bounds, EntryRefusal, Outcome, Reach, Rebound, SourceRefusal, Stop, TxResult};
