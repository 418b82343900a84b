//! The values of a native's arguments: the acts on tokens, entries of sequences side by side, what
//! `filter` keeps, keyed values, truth values, and what optionals and responses hold.
#![tactic(auto)]

mod acts;
mod entries;
mod keyed;
mod principals;
mod sieving;
mod truths;
mod ways;

pub use acts::{act_of, burn_stx, principal_of, send_stx, sender_refusal, two};
pub use entries::{alone, entry_at, pair, row_at, width};
pub use keyed::keyed_tuple;
pub use principals::{is_same, is_valid};
pub use sieving::sieve;
pub use truths::{join_truths, truth_of};
pub use ways::{Way, err_way_of, into_content, optional_way_of, response_way_of, way_of};
