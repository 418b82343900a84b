//! What contracts mean: the meaning of every expression and call, its charges and events, and what a limit leaves of it.
#![tactic(auto)]

mod examples;
mod laws;

pub use examples::{
    across_row, add1_row, concat_row, fold_row, insert_row, limit_row, map_row, node_rows, pay_row,
    token_refusals, token_row, version_row,
};
pub use laws::{
    genesis_is_kept, limits_go_along, limits_stop_first, more_depth_changes_nothing,
    nodes_by_their_names, traces_stop_there,
};
