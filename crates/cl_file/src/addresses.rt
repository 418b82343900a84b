//! Addresses whose texts were read before in the file.
ghost use Rattle.std.specs.Prelude.{◌≡◌, ◌<◌, ◌≤◌, length, IfSome, Ok};
ghost use Rattle.cl_c32.specs.Codec.{decoded};

use cl_c32::{Address, C32Refusal, decode};
use cl_types::NoMemory;
use std::alloc::Global;
use std::marker::Model;

// The most bytes of a text that is kept. No address has a longer one.
const MOST: usize = 41;

const SLOTS: usize = 256;

// A text and the address that it is.
#[derive(Drop)]
struct Known {
    cells: [u8; MOST],
    len: u8,
    address: Address,
}

impl Model for Known {
    ghost use Rattle.std.specs.Prelude.{◌≡◌, ◌≤◌, List, ℕ, take, Ok};
    ghost use Rattle.cl_c32.specs.Address.{AddressParts};
    ghost use Rattle.cl_c32.specs.Codec.{decoded};

    ghost Value = { List ℕ × AddressParts };

    ghost view = { λ k. (take k.len k.cells, k.address) };

    ghost invariant = { λ k. record {
      within : k.len ≤ 41;
      is : decoded (take k.len k.cells) ≡ Ok k.address;
    } };
}

impl Known {
    fn new(text: &[u8], address: Address) -> Known
        requires within { length text.now ≤ 41 }
        requires is { decoded text.now ≡ Ok address }
    {
        let mut cells = [0; MOST];
        cells[..text.len()].copy_from_slice(text);
        Known {
            cells,
            len: text.len() as u8,
            address,
        }
    }

    // The address, if the text is this one.
    fn address_of(&self, text: &[u8]) -> Option<Address>
        ensures { IfSome result (λ a. decoded text.now ≡ Ok a) }
    {
        if &self.cells[..self.len as usize] == text {
            Some(self.address)
        } else {
            None
        }
    }
}

// The address of a text that is the one in a slot.
fn found(slot: &Option<Known>, text: &[u8]) -> Option<Address>
    ensures { IfSome result (λ a. decoded text.now ≡ Ok a) }
{
    match slot {
        Some(known) => known.address_of(text),
        None => None,
    }
}

// The slot of a text. The last characters of an address are those of its checksum, so they differ
// between most of them.
fn slot_of(text: &[u8]) -> usize
    ensures { result < 256 }
{
    match text {
        [.., before, last] => (*before as usize * 11 + *last as usize) % SLOTS,
        _ => 0,
    }
}

/// Addresses with their texts, each in the slot of its text, where it stays until the next one
/// comes. However many addresses a file has, this doesn't grow, and one slot is looked at for each.
/// Contracts see nothing of what it keeps.
#[derive(Drop)]
pub(crate) struct Addresses {
    slots: Vec<Option<Known>>,
}

impl Model for Addresses {
    ghost use Rattle.std.specs.Prelude.{◌≡◌, length};

    ghost Value = { Unit {0} };

    ghost view = { λ _. tt };

    ghost invariant = { λ a. length a.slots.items ≡ 256 };
}

impl Addresses {
    /// No address yet. This alone takes memory.
    pub(crate) fn new(alloc: Global) -> Result<Addresses, NoMemory> {
        let mut slots = Vec::with_capacity(alloc, SLOTS)?;
        for _ in 0..SLOTS {
            slots.push(None)?;
        }
        Ok(Addresses { slots })
    }

    /// What [`decode`] gives. Where the text is known, no digest is made.
    pub(crate) fn decode(&mut self, text: &[u8]) -> Result<Address, C32Refusal>
        ensures { result ≡ decoded text.now }
    {
        if text.len() > MOST {
            return decode(text);
        }
        let slot = slot_of(text);
        if let Some(address) = found(&self.slots[slot], text) {
            return Ok(address);
        }
        let address = decode(text)?;
        self.slots[slot] = Some(Known::new(text, address));
        Ok(address)
    }
}
