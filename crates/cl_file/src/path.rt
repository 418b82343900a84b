//! Paths, and the faults that have one.
ghost use Rattle.std.specs.Prelude.{◌≡◌, IfOk, Ok, Err, decimal, codes, string_bytes};
ghost use Rattle.std.specs.Str.{chars};
ghost use Rattle.cl_types.specs.Fault.{IsRefusal};
ghost use Rattle.cl_file.specs.Paths.{below};
ghost use Rattle.cl_file.specs.declared.refusal.TxRefusal.TheVariants.{Field, BadValue, HeightFalls};

use crate::TxRefusal;
use cl_types::{Fault, Text};
use itoa::Buffer;
use std::alloc::{AllocError, Global};

/// What comes of reading a part of the file.
pub(crate) type Read<T> = Result<T, Fault<TxRefusal>>;

/// The path of a member.
pub(crate) fn below(alloc: Global, path: &str, name: &str) -> Result<String, AllocError>
    ensures { IfOk result (λ s. string_bytes s ≡ below path.now name.now) }
{
    let mut text = String::with_capacity(alloc, path.len() + 1 + name.len())?;
    text.push_str(path)?;
    text.push_str("/")?;
    text.push_str(name)?;
    Ok(text)
}

/// The path of an item.
pub(crate) fn place(alloc: Global, path: &str, i: usize) -> Result<String, AllocError>
    ensures { IfOk result (λ s. string_bytes s ≡ below path.now (decimal i)) }
{
    below(alloc, path, Buffer::new().format(i))
}

/// The fault of a member that is absent or unknown.
pub(crate) fn field(alloc: Global, path: &str, name: &str) -> Fault<TxRefusal>
    ensures { IsRefusal result (λ r. Field (chars (below path.now name.now)) ≡ r) }
{
    match below(alloc, path, name) {
        Ok(path) => Fault::Refused(TxRefusal::Field {
            path: Text::new(path),
        }),
        Err(_) => Fault::NoMemory,
    }
}

/// The fault of a value that isn't as said.
pub(crate) fn bad_value(alloc: Global, path: &str) -> Fault<TxRefusal>
    ensures { IsRefusal result (λ r. BadValue (chars path.now) ≡ r) }
{
    match Text::copied(alloc, path) {
        Ok(path) => Fault::Refused(TxRefusal::BadValue { path }),
        Err(_) => Fault::NoMemory,
    }
}

/// The fault of a member whose value isn't as said.
pub(crate) fn bad_member(alloc: Global, path: &str, name: &str) -> Fault<TxRefusal>
    ensures { IsRefusal result (λ r. BadValue (chars (below path.now name.now)) ≡ r) }
{
    match below(alloc, path, name) {
        Ok(path) => Fault::Refused(TxRefusal::BadValue {
            path: Text::new(path),
        }),
        Err(_) => Fault::NoMemory,
    }
}

/// The fault of a member with an unknown name, by its path.
pub(crate) fn lone_field(alloc: Global, path: &str) -> Fault<TxRefusal>
    ensures { IsRefusal result (λ r. Field (chars path.now) ≡ r) }
{
    match Text::copied(alloc, path) {
        Ok(path) => Fault::Refused(TxRefusal::Field { path }),
        Err(_) => Fault::NoMemory,
    }
}

/// The fault of a block at the path whose height falls.
pub(crate) fn height_falls(alloc: Global, path: &str) -> Fault<TxRefusal>
    ensures { IsRefusal result
        (λ r. HeightFalls (chars (below path.now (codes "block/height"))) ≡ r) }
{
    match below(alloc, path, "block/height") {
        Ok(path) => Fault::Refused(TxRefusal::HeightFalls {
            path: Text::new(path),
        }),
        Err(_) => Fault::NoMemory,
    }
}
