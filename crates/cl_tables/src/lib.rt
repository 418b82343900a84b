//! The tables in which a world keeps what contracts have.
#![tactic(auto)]

mod deed;
mod grafts;
mod held;
mod keys;
mod listing;
mod note;
mod place;
mod reading;
mod row;
mod spot;
mod tables;
mod tokens;

pub use deed::{Deed, deed_of, is_empty_burn, move_in};
pub use held::HeldValue;
pub use keys::{holder_key, place_key, spot_key, wire_key};
pub use note::Note;
pub use place::Place;
pub use row::{RowKind, StateRow};
pub use spot::Spot;
pub use tables::Tables;
