//! Addresses.
ghost use Rattle.std.specs.Prelude.{◌≡◌, ◌∷◌, [], ◌<◌};
ghost use Rattle.std.specs.Cmp.Rules.{hashing};
ghost use Rattle.std.proofs.Common.{rules};
ghost use Rattle.cl_c32.specs.Address.{address_bytes};

use std::hash::{Hash, Hasher};
use std::marker::Model;

/// An address: a version and a hash. Contracts see it as these two, and each one is an `IsAddress`.
#[derive(Clone, Copy, PartialEq, Eq, PartialOrd, Ord)]
pub struct Address {
    /// Which network and which kind of account; below 32.
    pub version: u8,
    /// The hash of a public key or a script.
    pub hash: [u8; 20],
}

impl Model for Address {
    ghost use Rattle.cl_c32.specs.Address.{AddressParts, IsAddress};

    ghost Value = { AddressParts };

    ghost view = { λ a. record { version = a.version; hash = a.hash } };

    ghost invariant = { λ a. IsAddress (record { version = a.version; hash = a.hash }) };

    ghost inverse = { λ a. record { version = a.version; hash = a.hash } };
}

impl Address {
    /// The address of a version and a hash.
    pub fn new(version: u8, hash: &[u8; 20]) -> Address
        requires { version < 32 }
        ensures { result ≡ record { version = version; hash = hash.now } }
    {
        let mut bytes = [0; 20];
        bytes.copy_from_slice(hash);
        Address {
            version,
            hash: bytes,
        }
    }
}

impl Address {
    // The version and the hash, one behind the other.
    pub(crate) fn bytes(&self) -> [u8; 21]
        ensures { result ≡ address_bytes self.now }
    {
        let mut bytes = [self.version; 21];
        bytes[1..].copy_from_slice(&self.hash);
        bytes
    }
}

impl Hash for Address {
    ghost hash_input = { λ address. address_bytes address ∷ [] };

    ghost respects_eq = { Prim.search (hashing, rules) };

    fn hash<H: Hasher>(&self, state: &mut H) {
        state.write(&self.bytes());
    }
}
