//! Texts of addresses.
ghost use Rattle.std.specs.Prelude.{◌≡◌, ◌<◌, ◌++◌, [], ◌∷◌, length};

use std::marker::Model;

/// The text of an address, at most 48 ASCII characters. Contracts see it as the list of its bytes.
#[derive(Clone, Copy)]
pub struct AddressText {
    bytes: [u8; 48],
    len: u8,
}

impl Model for AddressText {
    ghost use Rattle.std.specs.Prelude.{◌≡◌, ◌≤◌, ◌-◌, List, ℕ, length, take, drop, replicate, ◌++◌};
    ghost use Rattle.cl_c32.specs.Cells.{cells_again, length_again};

    ghost Value = { List ℕ };

    ghost view = { λ t. take t.len t.bytes };

    ghost invariant = { λ t. record {
      size : length t.bytes ≡ 48;
      within : t.len ≤ 48;
      padding : drop t.len t.bytes ≡ replicate (48 - t.len) 0;
    } };

    ghost inverse = { λ text. record {
      bytes = text ++ replicate (48 - length text) 0;
      len = length text;
    } };

    ghost inverse_ok = { λ t h i. record {
      bytes = cells_again 48 t.bytes t.len h.size h.within h.padding i;
      len = length_again 48 t.bytes t.len h.size h.within i;
    } };
}

impl AddressText {
    // The text without characters.
    pub(crate) fn new() -> AddressText
        ensures { result ≡ [] }
    {
        AddressText {
            bytes: [0; 48],
            len: 0,
        }
    }

    // Adds a character at the end.
    pub(crate) fn push(&mut self, character: u8)
        requires { length self.old < 48 }
        ensures { self.new ≡ self.old ++ character ∷ [] }
    {
        self.bytes[self.len as usize] = character;
        self.len += 1;
    }

    /// The bytes of the text.
    pub fn bytes(&self) -> &[u8]
        ensures { result.now ≡ self.now }
    {
        &self.bytes[..self.len as usize]
    }
}
