//! The engine for C: whole answers to words and files in memory, nodes that are kept between calls,
//! checks of sources, and values as text and in wire form. A caller in C proves nothing, so no call
//! here has a `requires`.
#![tactic(auto)]

mod answer;
mod costs;
mod costs_handle;
mod handle;
mod node;
mod value;

pub use answer::clarity_answer;
pub use costs::{clarity_costs_close, clarity_costs_read};
pub use costs_handle::ClarityCosts;
pub use handle::ClarityNode;
pub use node::{
    clarity_node_call, clarity_node_check, clarity_node_close, clarity_node_copy,
    clarity_node_count, clarity_node_done, clarity_node_height, clarity_node_length,
    clarity_node_numbers, clarity_node_open, clarity_node_peek, clarity_node_run,
    clarity_node_state,
};
pub use value::{clarity_value_text, clarity_value_wire};
