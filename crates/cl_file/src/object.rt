//! Objects.
ghost use Rattle.std.specs.Prelude.{◌≡◌, IfOk, Ok, Err, map, option_map};
ghost use Rattle.serde_json.specs.View.{view, members_view};
ghost use Rattle.cl_types.specs.Fault.{IfRefused};
ghost use Rattle.cl_json.specs.Json.{unknown_member};
ghost use Rattle.cl_file.specs.Names.{names_of};
ghost use Rattle.cl_file.specs.Objects.{Texts, Table, no_more, and_more, only, object_by, sole, sole_in};

use crate::addresses::Addresses;
use crate::member::Member;
use crate::names::{Object, names_of, split};
use crate::path::{Read, bad_value, field};
use cl_json::unknown_member;
use serde_json::{Map, Value};
use std::alloc::Global;

/// Tests that the value is an object without a member of another name.
#[tactic(auto, unfolding(crate::specs::Objects::only))]
pub(crate) fn only(alloc: Global, value: &Value, path: &str, names: &[&str]) -> Read<()>
    ensures found { IfOk result
        (λ u. only path.now (map (λ n. n.now) names.now) (view value.now) ≡ Ok u) }
    ensures broken { IfRefused result
        (λ r. only path.now (map (λ n. n.now) names.now) (view value.now) ≡ Err r) }
{
    let Some(members) = value.as_object() else {
        return Err(bad_value(alloc, path));
    };
    match unknown_member(names, members) {
        Some(name) => Err(field(alloc, path, name)),
        None => Ok(()),
    }
}

/// The members of an object, each with its kind, in order.
pub(crate) trait Members: Sized + Drop {
    ghost table: { Table Self };

    fn read(
        alloc: Global,
        known: &mut Addresses,
        object: &Value,
        path: &str,
        names: &[&str],
    ) -> Read<Self>
        ensures found { (v : Texts) → IfOk result
            (λ t. table v.of path.now (map (λ n. n.now) names.now) (view object.now) ≡ Ok t) }
        ensures broken { (v : Texts) → IfRefused result
            (λ r. table v.of path.now (map (λ n. n.now) names.now) (view object.now) ≡ Err r) };
}

impl Members for () {
    ghost table = { no_more };

    fn read(
        _alloc: Global,
        _known: &mut Addresses,
        _object: &Value,
        _path: &str,
        _names: &[&str],
    ) -> Read<Self> {
        Ok(())
    }
}

impl<A: Member, B: Members> Members for (A, B) {
    ghost table = { and_more A.member B.table };

    fn read(
        alloc: Global,
        known: &mut Addresses,
        object: &Value,
        path: &str,
        names: &[&str],
    ) -> Read<Self> {
        let Some((name, names)) = split(names) else {
            return Err(bad_value(alloc, path));
        };
        let first = A::read(alloc, known, object, path, name)?;
        let rest = B::read(alloc, known, object, path, names)?;
        Ok((first, rest))
    }
}

/// Reads an object.
pub(crate) fn object<T: Members>(
    alloc: Global,
    known: &mut Addresses,
    value: &Value,
    path: &str,
    object: Object,
) -> Read<T>
    ensures found { (v : Texts) → IfOk result
        (λ t. object_by (names_of object) T.table v.of path.now (view value.now) ≡ Ok t) }
    ensures broken { (v : Texts) → IfRefused result
        (λ r. object_by (names_of object) T.table v.of path.now (view value.now) ≡ Err r) }
{
    let names = names_of(object);
    only(alloc, value, path, names)?;
    T::read(alloc, known, value, path, names)
}

fn sole_in<'v>(members: &'v Map<String, Value>) -> Option<(&'v str, &'v Value)>
    ensures { option_map (λ p. (p.0.now, view p.1.now)) result
        ≡ sole_in (members_view members.now.entries) }
{
    if members.len() != 1 {
        return None;
    }
    match members.first_key_value() {
        Some((name, value)) => Some((name.as_str(), value)),
        None => None,
    }
}

/// The one member of an object.
pub(crate) fn sole(value: &Value) -> Option<(&str, &Value)>
    ensures { option_map (λ p. (p.0.now, view p.1.now)) result ≡ sole (view value.now) }
{
    let Some(members) = value.as_object() else {
        return None;
    };
    sole_in(members)
}
