//! What contracts have to keep: types, rules and bounds.
#![tactic(auto)]

mod examples;
mod laws;

pub use examples::{
    bounds_of_examples, breaks_of_examples, calls_of_examples, chains_of_functions,
    rows_of_the_table, rows_of_version_two,
};
pub use laws::{
    a_walk_stops_at_the_first_break, forms_have_one_answer, forms_of_texts_are_decided, one_answer,
    texts_have_one_answer, texts_have_one_order, the_first_bound_is_found,
    the_plain_program_is_right,
};
