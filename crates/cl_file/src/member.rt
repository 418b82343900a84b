//! Members, needed and optional.
ghost use Rattle.std.specs.Prelude.{◌≡◌, IfOk, Ok, Err};
ghost use Rattle.serde_json.specs.View.{view};
ghost use Rattle.cl_types.specs.Fault.{IfRefused};
ghost use Rattle.cl_file.specs.Objects.{Texts, Member as AMember, needed, optional};

use crate::addresses::Addresses;
use crate::kind::Kind;
use crate::path::{Read, field};
use serde_json::Value;
use std::alloc::Global;

/// A member of an object: of a kind it is needed, and of an `Option` it may be absent.
pub(crate) trait Member: Sized + Drop {
    ghost member: { AMember Self };

    fn read(
        alloc: Global,
        known: &mut Addresses,
        object: &Value,
        path: &str,
        name: &str,
    ) -> Read<Self>
        ensures found { (v : Texts) → IfOk result
            (λ t. member v.of path.now name.now (view object.now) ≡ Ok t) }
        ensures broken { (v : Texts) → IfRefused result
            (λ r. member v.of path.now name.now (view object.now) ≡ Err r) };
}

impl<T: Kind> Member for T {
    ghost member = { needed T.reads };

    fn read(
        alloc: Global,
        known: &mut Addresses,
        object: &Value,
        path: &str,
        name: &str,
    ) -> Read<Self> {
        match object.get(name) {
            Some(value) => T::read_at(alloc, known, value, path, name),
            None => Err(field(alloc, path, name)),
        }
    }
}

impl<T: Kind> Member for Option<T> {
    ghost member = { optional T.reads };

    fn read(
        alloc: Global,
        known: &mut Addresses,
        object: &Value,
        path: &str,
        name: &str,
    ) -> Read<Self> {
        let Some(value) = object.get(name) else {
            return Ok(None);
        };
        let read = T::read_at(alloc, known, value, path, name)?;
        Ok(Some(read))
    }
}
