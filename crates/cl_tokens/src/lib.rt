//! Ledgers of tokens: balances that sum to the supply, and assets that have one owner each.
#![tactic(auto)]

mod act;
mod fungible;
mod key;
mod laws;
mod non_fungible;
mod refusal;
mod table;

pub use act::{Act, AssetAct};
pub use fungible::Fungible;
pub use key::Key;
pub use laws::{acts_keep_ledgers, acts_move_amounts, transfers_keep_supply};
pub use non_fungible::NonFungible;
pub use refusal::TokenRefusal;
pub use table::{Stored, Table};
