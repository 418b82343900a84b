//! Values made of values, sequences and tuples. What is owned is moved.
#![tactic(auto)]

mod calls;
mod finding;
mod joining;
mod listing;
mod making;
mod parts;
mod places;
mod replacing;
mod sequences;
mod slicing;
mod tuples;

pub use calls::{append, concat, element_at, index_of, len, replace_at, slice, within};
pub use finding::try_index_of;
pub use joining::{try_append, try_concat};
pub use listing::list_of;
pub use making::{
    bool_value, buff, int_value, made, none, number_value, response, some, uint_value,
};
pub use parts::try_get;
pub use places::{try_element_at, try_entry};
pub use replacing::try_replace_at;
pub use sequences::{try_len, try_within};
pub use slicing::try_slice;
pub use tuples::{try_merge, tuple_of};
