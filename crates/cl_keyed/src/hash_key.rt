//! Keys of hashes.
ghost use Rattle.std.specs.Prelude.{◌≡◌};
ghost use Rattle.core.specs.Hash.DefaultHasher as sip;
ghost use Rattle.cl_keyed.specs.Digests.{digest, with_bytes};

use core::hash::keyed_hasher;
use std::hash::{BuildHasher, DefaultHasher, Hasher};

/// The key of a table's hash, 128 bits. What a table holds and answers doesn't depend on it.
#[derive(Clone, Copy)]
pub struct HashKey {
    pub low: u64,
    pub high: u64,
}

impl HashKey {
    /// A key that everybody knows: for tables in which no stranger chooses the entries.
    pub const FIXED: HashKey = HashKey { low: 0, high: 0 };

    /// The key of these bytes.
    pub fn of(bytes: &[u8]) -> HashKey {
        HashKey::FIXED.with_bytes(bytes)
    }

    /// The key of these bytes behind those of this key. They are hashed twice, the second time under the digest of the first: who
    /// wants them to give a key that he has chosen has to choose both digests by the same bytes.
    pub fn with_bytes(&self, bytes: &[u8]) -> HashKey
        ensures { result ≡ with_bytes self.now bytes.now }
    {
        self.digest(bytes).digest(bytes)
    }

    fn digest(&self, bytes: &[u8]) -> HashKey
        ensures { result ≡ digest self.now bytes.now }
    {
        let mut hasher = self.build_hasher();
        hasher.write(bytes);
        let low = hasher.finish();
        hasher.write(&[0]);
        let high = hasher.finish();
        HashKey { low, high }
    }
}

impl BuildHasher for HashKey {
    type Hasher = DefaultHasher;

    ghost build_hasher = { λ key. sip.with_keys key.low key.high };

    fn build_hasher(&self) -> DefaultHasher {
        keyed_hasher(self.low, self.high)
    }
}
