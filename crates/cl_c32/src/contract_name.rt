//! Names of contracts.
ghost use Rattle.std.specs.Prelude.{◌≡◌, ◌∷◌, [], ◌≤◌, ◌==◌, ◌-◌, List, ℕ, length, take, drop, replicate, ◌++◌, nat_eq, Some, refl};
ghost use Rattle.std.specs.List.{list_all};
ghost use Rattle.std.specs.Option.{SomeIff};
ghost use Rattle.std.specs.Ordering.{nat_cmp};
ghost use Rattle.std.specs.Cmp.{partial_equiv_from_equiv};
ghost use Rattle.std.specs.Cmp.Lexicographic.{pointwise, slice_cmp, nat_list_eq_equiv, nat_list_cmp_total, texts_po, texts_ties};
ghost use Rattle.std.specs.Cmp.Rules.{hashing};
ghost use Rattle.std.proofs.Common.{rules};
ghost use Rattle.cl_c32.specs.ContractName.{IsContractName, is_letter, is_name_byte, fits_pattern};

use std::cmp::Ordering;
use std::hash::{Hash, Hasher};
use std::marker::Model;

/// The name of a contract: a letter followed by letters, digits, `-` and `_`, at most 128 bytes.
/// Contracts see it as the list of its bytes.
#[derive(Clone, Copy)]
pub struct ContractName {
    cells: [u8; 128],
    len: u8,
}

impl Model for ContractName {
    ghost use Rattle.std.specs.Prelude.{◌≡◌, ◌≤◌, ◌-◌, List, ℕ, length, take, drop, replicate, ◌++◌};
    ghost use Rattle.cl_c32.specs.ContractName.{IsContractName};
    ghost use Rattle.cl_c32.specs.Cells.{cells_again, length_again};

    ghost Value = { List ℕ };

    ghost view = { λ n. take n.len n.cells };

    ghost invariant = { λ n. record {
      size : length n.cells ≡ 128;
      within : n.len ≤ 128;
      padding : drop n.len n.cells ≡ replicate (128 - n.len) 0;
      name : IsContractName (take n.len n.cells);
    } };

    ghost inverse = { λ bytes. record {
      cells = bytes ++ replicate (128 - length bytes) 0;
      len = length bytes;
    } };

    ghost inverse_ok = { λ n h i. record {
      cells = cells_again 128 n.cells n.len h.size h.within h.padding i;
      len = length_again 128 n.cells n.len h.size h.within i;
    } };
}

fn is_letter(byte: u8) -> bool
    ensures { result ≡ is_letter byte }
{
    byte.is_ascii_alphabetic()
}

fn is_name_byte(byte: u8) -> bool
    ensures { result ≡ is_name_byte byte }
{
    is_letter(byte) || byte.is_ascii_digit() || byte == b'-' || byte == b'_'
}

fn are_name_bytes(bytes: &[u8]) -> bool
    ensures { result ≡ list_all is_name_byte bytes.now }
{
    bytes.iter().all(|byte| is_name_byte(*byte))
}

fn fits_pattern(bytes: &[u8]) -> bool
    ensures { result ≡ fits_pattern bytes.now }
{
    match bytes.split_first() {
        None => false,
        Some((first, rest)) => is_letter(*first) && are_name_bytes(rest),
    }
}

impl ContractName {
    /// The most bytes that a name has.
    pub const MOST: usize = 128;

    /// The name of these bytes; None exactly where they are no contract name.
    #[tactic(auto, using(crate::proofs::Padding::padded_more))]
    pub fn make(bytes: &[u8]) -> Option<ContractName>
        ensures { SomeIff result (IsContractName bytes.now) bytes.now }
    {
        if bytes.len() > ContractName::MOST || !fits_pattern(bytes) {
            return None;
        }
        let mut cells = [0u8; 128];
        for i in 0..bytes.len() {
            cells[i] = bytes[i];
        }
        Some(ContractName {
            cells,
            len: bytes.len() as u8,
        })
    }

    /// The bytes of the name.
    pub fn bytes(&self) -> &[u8]
        ensures value { result.now ≡ self.now }
        ensures name { IsContractName result.now }
    {
        &self.cells[..self.len as usize]
    }
}

impl PartialEq for ContractName {
    ghost eq = { pointwise nat_eq };

    ghost laws = { partial_equiv_from_equiv nat_list_eq_equiv };

    fn eq(&self, other: &Self) -> bool {
        self.bytes() == other.bytes()
    }
}

impl Eq for ContractName {
    ghost laws = { nat_list_eq_equiv };
}

impl PartialOrd for ContractName {
    ghost partial_cmp = { λ s t. Some (slice_cmp nat_cmp s t) };

    ghost laws = { texts_po };

    fn partial_cmp(&self, other: &Self) -> Option<Ordering> {
        Some(self.cmp(other))
    }
}

impl Ord for ContractName {
    ghost cmp = { slice_cmp nat_cmp };

    ghost total = { nat_list_cmp_total };

    ghost matches_partial_cmp = { λ s t. refl };

    ghost matches_eq = { texts_ties };

    fn cmp(&self, other: &Self) -> Ordering {
        self.bytes().cmp(other.bytes())
    }
}

impl Hash for ContractName {
    ghost hash_input = { λ bytes. bytes ∷ [] };

    ghost respects_eq = { Prim.search (hashing, rules) };

    fn hash<H: Hasher>(&self, state: &mut H) {
        state.write(self.bytes());
    }
}
