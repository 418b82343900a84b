//! The steps of a path.

/// A step from a part of a tree to the whole: the other part.
#[derive(Clone, Copy)]
pub struct Side {
    /// Whether the other part is on the left.
    pub left: bool,
    /// The root of the other part.
    pub digest: [u8; 32],
}
