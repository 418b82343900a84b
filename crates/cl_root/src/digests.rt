//! Digests of leaves and of parts (SHA-256, FIPS 180-4).
ghost use Rattle.std.specs.Prelude.{◌≡◌, ◌<◌, ◌^◌, [], ◌∷◌, ◌++◌, length};
ghost use Rattle.sha2.specs.Sha256.{sha256};
ghost use Rattle.cl_root.specs.Leaves.{leaf_input};

use sha2::{Digest, Sha256};

/// The digest of the empty input.
pub(crate) fn empty_digest() -> [u8; 32]
    ensures { result ≡ sha256 [] }
{
    Sha256::digest(b"")
}

/// The digest of the leaf with this key and this value.
pub(crate) fn leaf_digest(key: &[u8], value: &[u8]) -> [u8; 32]
    requires { length key.now < 2 ^ 32 }
    ensures { result ≡ sha256 (leaf_input (key.now, value.now)) }
{
    let size = (key.len() as u32).to_be_bytes();
    let mut hasher = Sha256::new();
    hasher.update(&[0u8]);
    hasher.update(&size);
    hasher.update(key);
    hasher.update(value);
    hasher.finalize()
}

/// The digest of a tree whose two parts have these digests.
pub(crate) fn parts_digest(left: &[u8; 32], right: &[u8; 32]) -> [u8; 32]
    ensures { result ≡ sha256 (1 ∷ (left.now ++ right.now)) }
{
    let mut hasher = Sha256::new();
    hasher.update(&[1u8]);
    hasher.update(left);
    hasher.update(right);
    hasher.finalize()
}
