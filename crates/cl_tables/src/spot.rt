//! Parts of a state that a contract names.
use crate::place::Place;

/// A part of a state that a contract names.
#[derive(Clone, Copy, PartialEq, Eq, Hash)]
pub enum Spot {
    Variable(Place),
    /// A map with all its entries.
    MapOf(Place),
    /// A token, fungible or not, with all that is kept of it: whether it is defined, its cap, its supply, and who owns it.
    Token(Place),
    /// All STX.
    Stx,
}
