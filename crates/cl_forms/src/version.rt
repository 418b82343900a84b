//! The versions of the language.

/// A version of the language. A text has the natives of its own version.
#[derive(Clone, Copy)]
pub enum Version {
    /// Clarity 1
    One,
    /// Clarity 2
    Two,
}
