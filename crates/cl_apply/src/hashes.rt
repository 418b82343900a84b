//! Digests (FIPS 180-4).
ghost use Rattle.std.specs.Prelude.{◌≡◌, ◌∷◌, [], IfOk, None};
ghost use Rattle.std.specs.Int.{w128, to_le_bytes};
ghost use Rattle.cl_values.specs.Tree.{BuffV};
ghost use Rattle.cl_values.specs.Computed.{Gives};
ghost use Rattle.cl_values.specs.Natives.{digest};
ghost use Rattle.cl_values.specs.Applied.{Applied};
ghost use Rattle.cl_arith.specs.Operations.{bits_of};
ghost use Rattle.cl_values.specs.Arithmetic.{number_of};
ghost use Rattle.cl_apply.specs.Hashes.{hash_of};

use crate::numbers::number;
use cl_arith::Num;
use cl_seq::buff;
use cl_types::Fault;
use cl_values::{Kind, NoValue, Val};
use sha2::{Digest, Sha256, Sha512, Sha512_256};
use std::alloc::{AllocError, Global};

/// A hash function.
#[derive(Clone, Copy)]
pub enum Hash {
    Sha256,
    Sha512Of256,
    Sha512,
}

fn digest_of(alloc: Global, hash: Hash, bytes: &[u8]) -> Result<Vec<u8>, AllocError>
    ensures { IfOk result (λ v. v.items ≡ hash_of hash bytes.now) }
{
    match hash {
        Hash::Sha256 => Vec::from_slice(alloc, &Sha256::digest(bytes)),
        Hash::Sha512Of256 => Vec::from_slice(alloc, &Sha512_256::digest(bytes)),
        Hash::Sha512 => Vec::from_slice(alloc, &Sha512::digest(bytes)),
    }
}

fn digest_buff(alloc: Global, hash: Hash, bytes: &[u8]) -> Result<Val, Fault<NoValue>>
    ensures { Applied (Gives (BuffV (hash_of hash bytes.now))) result }
{
    buff(digest_of(alloc, hash, bytes)?)
}

/// The digest of the 16 bytes of a number, the lowest first.
fn bits_digest(alloc: Global, hash: Hash, bits: u128) -> Result<Val, Fault<NoValue>>
    ensures { Applied (Gives (BuffV (hash_of hash (to_le_bytes w128 bits)))) result }
{
    digest_buff(alloc, hash, &bits.to_le_bytes())
}

/// The digest of a number's 16 bytes, of an int in two's complement.
fn number_digest(alloc: Global, hash: Hash, number: Num) -> Result<Val, Fault<NoValue>>
    ensures { Applied (Gives (BuffV (hash_of hash (to_le_bytes w128 (bits_of number))))) result }
{
    match number {
        Num::Int(int) => bits_digest(alloc, hash, int.cast_unsigned()),
        Num::Uint(uint) => bits_digest(alloc, hash, uint),
    }
}

fn bytes_digest(alloc: Global, hash: Hash, value: &Val) -> Result<Val, Fault<NoValue>>
    requires { number_of value.now ≡ None }
    ensures { Applied (digest (hash_of hash) (value.now ∷ [])) result }
{
    match &value.value().kind {
        Kind::Buff(bytes) => digest_buff(alloc, hash, bytes),
        _ => Err(Fault::Refused(NoValue::Undefined)),
    }
}

/// The digest of a buffer, or of a number.
pub(crate) fn digest(alloc: Global, hash: Hash, value: &Val) -> Result<Val, Fault<NoValue>>
    ensures { Applied (digest (hash_of hash) (value.now ∷ [])) result }
{
    match number(value) {
        Some(number) => number_digest(alloc, hash, number),
        None => bytes_digest(alloc, hash, value),
    }
}
