//! The definitions of a contract.
#![tactic(auto)]

mod definitions;
mod entry;
mod form;
mod head;
mod item;
mod keyword;
mod kind;
mod laws;
mod names;
mod natives;
mod placed;
mod reserved;
mod type_word;
mod types;
mod version;
mod weights;
mod word;

pub use definitions::{forms, forms_with_hash_key};
pub use form::{Form, FormKind};
pub use head::{Head, TokenNative};
pub use keyword::Keyword;
pub use laws::{natives_have_one_name, rows_are_of_heads};
pub use names::is_one_of;
pub use natives::{Arity, NativeRow, arity_of, cost_of, is_by_name, native, row_of};
pub use placed::{
    expressions_are_placed, expressions_are_within_limits, expressions_nest_as_items,
};
pub use reserved::is_reserved;
pub use version::Version;
pub use weights::forms_have_few_parts;
