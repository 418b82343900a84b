//! Source texts as items, each with the bytes that it is spelled by, or the first rule that a text breaks.
#![tactic(auto)]

mod bracket;
mod bytes;
mod leaf;
mod lexer;
mod number;
mod order;
mod quote;
mod reader;
mod reading;
mod rule;
mod run;
mod sexpr;

pub use order::{items_stand_in_order, literals_are_within_limits};
pub use reader::{MOST_BYTES, each_text_has_an_answer, one_reading, read};
pub use rule::{Break, Refusal, Rule};
pub use run::{are_digits, value_of};
pub use sexpr::{Node, Sexpr, Span};
