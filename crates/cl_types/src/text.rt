//! Texts that are handed out.
use std::alloc::{AllocError, Global};
use std::marker::Model;

/// A text of Unicode characters, seen as the list of them.
#[derive(Drop)]
pub struct Text {
    string: String,
}

impl Model for Text {
    ghost use Rattle.std.specs.Prelude.{List, ℕ, string_bytes};
    ghost use Rattle.std.specs.Str.{chars};

    ghost Value = { List ℕ };

    ghost view = { λ t. chars (string_bytes t.string) };
}

impl Text {
    ghost use Rattle.std.specs.Prelude.{◌≡◌, IfOk, string_bytes, encode_utf8_all};
    ghost use Rattle.std.specs.Str.{chars};

    /// The text of a string.
    pub fn new(string: String) -> Self
        ensures { result ≡ chars (string_bytes string) }
    {
        Text { string }
    }

    /// A copy of a text.
    pub fn copied(alloc: Global, text: &str) -> Result<Self, AllocError>
        ensures { IfOk result (λ t. t ≡ chars text.now) }
    {
        Ok(Text {
            string: String::from_str(alloc, text)?,
        })
    }

    /// The text in UTF-8.
    pub fn as_str(&self) -> &str
        ensures characters { self.now ≡ chars result.now }
        ensures bytes { result.now ≡ encode_utf8_all self.now }
    {
        self.string.as_str()
    }
}
