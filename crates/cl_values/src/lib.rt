//! Values with their sizes, and their order.
#![tactic(auto)]

mod comparing;
mod contents;
mod depth;
mod examples;
mod fault;
mod inhabitants;
mod keys;
mod laws;
mod leaves;
mod native;
mod no_value;
mod order;
mod prefix;
mod refusal;
mod size;
mod texts;
mod val;
mod value;

pub use comparing::{are_alike, compare, equal};
pub use contents::{content_order, try_content_order};
pub use examples::natives_by_example;
pub use fault::DecodeRefusal;
pub use inhabitants::inhabits;
pub use laws::{
    admission_keeps_values, comparisons_agree, depth_is_greatest, digests_have_lengths,
    items_and_values, no_type_has_none, one_spelling, parts_are_values, read_back,
    reads_only_spellings, sequences_have_entries, size_is_greatest, size_is_length,
    types_keep_limits,
};
pub use native::{Arity, Native};
pub use no_value::NoValue;
pub use prefix::prefix_of;
pub use refusal::ValueRefusal;
pub use size::{characters_size, size_up_to};
pub use texts::is_text_byte;
pub use val::Val;
pub use value::{Kind, Value};
