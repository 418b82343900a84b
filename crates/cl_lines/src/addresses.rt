//! Texts of addresses that were made before.
ghost use Rattle.std.specs.Prelude.{◌≡◌, ◌++◌, [], IfOk, length};
ghost use Rattle.cl_c32.specs.Codec.{address_text};
ghost use Rattle.cl_text.specs.Printed.{principal_text};

use cl_c32::{Address, AddressText, Principal, encode};
use cl_text::write_contract;
use cl_types::NoMemory;
use std::alloc::Global;
use std::marker::Model;

// An address with its text. Contracts see the address alone, since the text is always that of
// `encode`.
#[derive(Drop)]
struct Spelled {
    address: Address,
    text: AddressText,
}

impl Model for Spelled {
    ghost use Rattle.std.specs.Prelude.{◌≡◌};
    ghost use Rattle.cl_c32.specs.Address.{AddressParts};
    ghost use Rattle.cl_c32.specs.Codec.{address_text};

    ghost Value = { AddressParts };

    ghost view = { λ s. s.address };

    ghost invariant = { λ s. s.text ≡ address_text s.address };
}

impl Spelled {
    fn new(address: &Address) -> Spelled
        ensures { result ≡ address.now }
    {
        Spelled {
            address: *address,
            text: encode(address),
        }
    }

    // The text of this address, which is made only where another one stands here.
    fn text_of(&mut self, address: &Address) -> AddressText
        ensures { result ≡ address_text address.now }
    {
        if self.address != *address {
            *self = Spelled::new(address);
        }
        self.text
    }
}

/// The texts of addresses that were made before: a direct-mapped cache, which never grows. The
/// checksum in a text takes two digests, and a text that is still there spares both. Contracts see
/// it as the addresses in its slots, at most 256.
#[derive(Drop)]
pub struct AddressCache {
    slots: Vec<Spelled>,
}

impl Model for AddressCache {
    ghost use Rattle.std.specs.Prelude.{List, length, ◌≤◌};
    ghost use Rattle.cl_c32.specs.Address.{AddressParts};

    ghost Value = { List AddressParts };

    ghost view = { λ c. c.slots.items };

    ghost invariant = { λ c. length c.slots.items ≤ 256 };
}

impl AddressCache {
    // A slot for each byte.
    const SLOTS: usize = 256;

    /// A cache with all its slots. It takes its memory here, and none later.
    pub fn new(alloc: Global) -> Result<AddressCache, NoMemory>
        ensures { IfOk result (λ addresses. length addresses ≡ 256) }
    {
        // Until another comes, each slot has the main network's address whose hash is zero.
        let address = Address::new(22, &[0; 20]);
        let text = encode(&address);
        let mut slots = Vec::with_capacity(alloc, AddressCache::SLOTS)?;
        for _ in 0..AddressCache::SLOTS {
            slots.push(Spelled { address, text })?;
        }
        Ok(AddressCache { slots })
    }

    /// A cache without slots: it takes no memory, and keeps nothing.
    pub fn without_slots(alloc: Global) -> AddressCache
        ensures { result ≡ [] }
    {
        AddressCache {
            slots: Vec::new(alloc),
        }
    }

    fn text_of(&mut self, address: &Address) -> AddressText
        ensures { result ≡ address_text address.now }
    {
        match self.slots.get_mut(slot_of(address)) {
            Some(slot) => slot.text_of(address),
            None => encode(address),
        }
    }

    /// Writes a principal: `'`, its address in c32check, and for a contract `.` and its name.
    pub fn write_principal(
        &mut self,
        out: &mut Vec<u8>,
        principal: &Principal,
    ) -> Result<(), NoMemory>
        ensures { IfOk result (λ _. out.new.items ≡ out.old.items ++ principal_text principal.now) }
    {
        let address = self.text_of(&principal.address);
        out.push(b'\'')?;
        out.extend_from_slice(address.bytes())?;
        write_contract(out, &principal.contract)
    }
}

// The slot of an address. Both ends of the hash count, so that addresses which differ at one end
// alone are spread.
fn slot_of(address: &Address) -> usize {
    usize::from(address.hash[0].wrapping_add(address.hash[19]))
}
