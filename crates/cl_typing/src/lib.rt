//! The rows of the types of every native, types that are made, and what is found of an expression from its parts.
#![tactic(auto)]

mod branches;
mod concluding;
mod iterations;
mod joining;
mod kinds;
mod making;
mod native_types;
mod rows;
mod sequences;
mod stated;
mod tuples;
mod uses;
mod verdicts;

pub use branches::{match_optional, match_response, tried, tried_argument, try_type};
pub use concluding::{Checked, Concluded, conclude};
pub use iterations::{filter_type, fold_type, map_type, on_filter, on_fold, on_map};
pub use joining::{equal, joined, list};
pub use kinds::{
    are_bools, are_numbers, is_bool, is_hashed, is_int, is_optional, is_principal, is_response,
    is_sequence, is_uint, is_undetermined,
};
pub use making::{copy_of_kind, lubbed, none_type, of, of_kind, optional, where_kind};
pub use native_types::{native_type, only, pair};
pub use rows::{err_part, inner, itself, last, nothing, part, some, truth};
pub use sequences::{
    ascii_of, buffer_of, entry, greatest_length, list_of, max_len, max_len_type, utf8_of,
};
pub use stated::{
    Wanted, act_answer, all_admit, are_wanted, optional_principal, stated_optional, stated_type,
};
pub use tuples::{get, get_type, tuple_type};
pub use uses::{Usable, call_type, fold_of_entries, use_height, use_of_entries, use_type};
pub use verdicts::{on_values, types_of};
