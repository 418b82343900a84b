//! Values, types and principals as text: literals are read, and what is printed is read again.
#![tactic(auto)]

mod keys;
mod laws;
mod literal;
mod parser;
mod printer;
mod refusal;
mod type_printer;
mod word;

pub use laws::{each_text_has_an_outcome, one_outcome, printed_is_read};
pub use parser::parse;
pub use printer::{print_principal, print_value, write_contract};
pub use refusal::TextRefusal;
pub use type_printer::print_type;
