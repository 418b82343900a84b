//! The root of a state, one SHA-256 digest (FIPS 180-4) of all its rows, and proofs that a state with this root has a row.
#![tactic(auto)]

mod bytes;
mod digests;
mod laws;
mod leaves;
mod paths;
mod side;
mod tree;

pub use bytes::row_bytes;
pub use laws::{
    paths_lead_to_roots, root_by_parts, rows_have_keys_of_their_own, states_have_one_root,
};
pub use paths::{prove, root_by_path, verify};
pub use side::Side;
pub use tree::root;
