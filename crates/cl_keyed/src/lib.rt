//! The key of a table's hash.
//!
//! Who knows how a table hashes can choose entries that collide, and a table of them is quadratic. So the tables of the engine hash by
//! SipHash-1-3 (Aumasson and Bernstein, "SipHash: a fast short-input PRF") with a key that is given where they are made.
#![tactic(auto)]

mod hash_key;

pub use hash_key::HashKey;
