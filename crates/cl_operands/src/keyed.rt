//! Values under keys.
ghost use Rattle.std.specs.Prelude.{◌≡◌, ◌≢◌, [], map, IfOk};
ghost use Rattle.cl_forms.specs.Names.{stands_twice};
ghost use Rattle.cl_values.specs.Applied.{Applied};
ghost use Rattle.cl_values.specs.Computed.{Gives};
ghost use Rattle.cl_values.specs.Tree.{TupleV};
ghost use Rattle.cl_values.specs.Tuples.{sorted_entries};

use cl_keyed::HashKey;
use cl_seq::tuple_of;
use cl_types::{Fault, Name};
use cl_values::{NoValue, Val};
use indexmap::IndexSet;
use std::alloc::{AllocError, Global};

/// A key for the table of these keys.
fn hash_key_of(entries: &[(Name, Val)]) -> HashKey {
    let mut hash_key = HashKey::FIXED;
    for entry in entries {
        hash_key = hash_key.with_bytes(entry.0.bytes());
    }
    hash_key
}

/// Whether a key stands twice.
fn repeats(alloc: Global, entries: &[(Name, Val)]) -> Result<bool, AllocError>
    ensures { IfOk result (λ twice. twice ≡ stands_twice (map (λ e. e.0) entries.now)) }
{
    let mut seen = IndexSet::with_hasher(alloc, hash_key_of(entries));
    for entry in entries {
        if seen.contains(&entry.0) {
            return Ok(true);
        }
        seen.insert(entry.0)?;
    }
    Ok(false)
}

/// The tuple of values under keys, which come in any order. No text that the checker accepts has a
/// tuple with a key twice; such a one has no value, and is answered as if memory had run out.
pub fn keyed_tuple(alloc: Global, entries: Vec<(Name, Val)>) -> Result<Val, Fault<NoValue>>
    requires { entries.items ≢ [] }
    ensures { Applied (Gives (TupleV (sorted_entries entries.items))) result }
{
    let twice = repeats(alloc, &entries)?;
    if twice {
        return Err(Fault::NoMemory);
    }
    tuple_of(alloc, entries)
}
