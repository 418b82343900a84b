//! Principals.
ghost use Rattle.std.specs.Prelude.{◌≡◌, ◌≤◌, ◌++◌, ◌∷◌, [], length, drop};
ghost use Rattle.std.specs.Cmp.Rules.{hashing};
ghost use Rattle.std.proofs.Common.{rules};
ghost use Rattle.cl_c32.specs.Address.{address_bytes};
ghost use Rattle.cl_c32.specs.Principals.{part_bytes, principal_bytes};

use crate::{Address, ContractName};
use std::hash::{Hash, Hasher};

/// Who owns assets and sends transactions: an address, or a contract deployed under one.
#[derive(Clone, Copy, PartialEq, Eq, PartialOrd, Ord)]
pub struct Principal {
    pub address: Address,
    /// The contract's name; None for the address itself.
    pub contract: Option<ContractName>,
}

fn part_bytes(contract: &Option<ContractName>) -> &[u8]
    ensures value { result.now ≡ part_bytes contract.now }
    ensures short { length result.now ≤ 128 }
{
    match contract {
        Some(name) => name.bytes(),
        None => &[],
    }
}

// A length and an address, one behind the other.
fn front(length: u8, address: &Address) -> [u8; 22]
    ensures { result ≡ length ∷ address_bytes address.now }
{
    let mut bytes = [length; 22];
    bytes[1..].copy_from_slice(&address.bytes());
    bytes
}

impl Principal {
    /// The most bytes that `write_bytes` writes.
    pub const MOST: usize = 150;

    /// Writes in front the length of the contract's name, 0 for none, the address and this name, and gives their length: no
    /// principal's bytes begin another's.
    pub fn write_bytes(&self, out: &mut [u8]) -> usize
        requires { 150 ≤ length out.old }
        ensures written { out.new ≡ principal_bytes self.now
            ++ drop (length (principal_bytes self.now)) out.old }
        ensures count { result ≡ length (principal_bytes self.now) }
        ensures short { result ≤ 150 }
    {
        let part = part_bytes(&self.contract);
        let end = 22 + part.len();
        out[..22].copy_from_slice(&front(part.len() as u8, &self.address));
        out[22..end].copy_from_slice(part);
        end
    }
}

impl Hash for Principal {
    ghost hash_input = { λ p. principal_bytes p ∷ [] };

    ghost respects_eq = { Prim.search (hashing, rules) };

    fn hash<H: Hasher>(&self, state: &mut H) {
        let mut bytes = [0; Principal::MOST];
        let count = self.write_bytes(&mut bytes);
        state.write(&bytes[..count]);
    }
}
