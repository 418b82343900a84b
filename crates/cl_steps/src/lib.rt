//! The steps of the evaluation of contracts that evaluate nothing themselves: each is charged to a meter as it is made.
#![tactic(auto)]

mod acts;
mod applied;
mod data;
mod definitions;
mod entries;
mod finding;
mod literals;
mod natives;
mod sieving;
mod tokens;
mod tuples;

pub use applied::{apply_watched, callee_named};
pub use data::{print, with_all, with_nothing, with_one};
pub use definitions::{define_nonfungible, define_uncapped, place_of, put_capped};
pub use entries::{alone, entry_at, pair, row_at, width};
pub use finding::own_function;
pub use literals::{
    ascii_literal, buff_literal, keyword, named, principal_literal, stands, utf8_literal,
};
pub use natives::{computed, native_on};
pub use sieving::sieve;
pub use tokens::{destroy_stx, read_stx, transfer_stx};
pub use tuples::{make_tuple, names_of, shorten};
