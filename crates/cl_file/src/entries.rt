//! Reading entries.
ghost use Rattle.std.specs.Prelude.{◌≡◌, ◌≤◌, [], length, IfOk, Ok, Err};
ghost use Rattle.serde_json.specs.View.{view, items_view};
ghost use Rattle.cl_types.specs.Fault.{IfRefused};
ghost use Rattle.cl_file.specs.Paths.{each_from};
ghost use Rattle.cl_file.specs.Objects.{Texts};
ghost use Rattle.cl_file.specs.Entries.{common, block, deploy, call, entry_by, entry, height_after, NeverFall, rising, entry_after, entry_at};

use crate::addresses::Addresses;
use crate::kind::Contract;
use crate::names::{EntryKind, Object, entry_kind};
use crate::object::{object, sole};
use crate::path::{Read, bad_value, below, height_falls, lone_field, place};
use crate::{Common, Conditions, Entry, Row};
use cl_c32::{Address, ContractName};
use cl_forms::Version;
use cl_post::Mode;
use cl_values::Val;
use serde_json::Value;
use std::alloc::Global;

fn common(
    alloc: Global,
    sender: Address,
    limit: Option<[u64; 5]>,
    mode: Option<Mode>,
    post: Option<Conditions>,
) -> Common
    ensures { result ≡ common sender limit mode post }
{
    Common {
        sender,
        limit: limit.unwrap_or([u64::MAX; 5]),
        mode: mode.unwrap_or(Mode::Allow),
        conditions: match post {
            Some(conditions) => conditions,
            None => Conditions::none(alloc),
        },
    }
}

fn block(alloc: Global, known: &mut Addresses, value: &Value, path: &str) -> Read<Entry>
    ensures found { (v : Texts) → IfOk result (λ e. block v.of path.now (view value.now) ≡ Ok e) }
    ensures broken { (v : Texts) → IfRefused result
        (λ r. block v.of path.now (view value.now) ≡ Err r) }
{
    let (height, ()): (u64, ()) = object(alloc, known, value, path, Object::Block)?;
    Ok(Entry::Block { height })
}

fn deploy(alloc: Global, known: &mut Addresses, value: &Value, path: &str) -> Read<Entry>
    ensures found { (v : Texts) → IfOk result (λ e. deploy v.of path.now (view value.now) ≡ Ok e) }
    ensures broken { (v : Texts) → IfRefused result
        (λ r. deploy v.of path.now (view value.now) ≡ Err r) }
{
    let (sender, (name, (source, (limit, (mode, (post, (version, ()))))))): (
        Address,
        (
            ContractName,
            (
                Row<u8>,
                (
                    Option<[u64; 5]>,
                    (Option<Mode>, (Option<Conditions>, (Option<Version>, ()))),
                ),
            ),
        ),
    ) = object(alloc, known, value, path, Object::Deploy)?;
    Ok(Entry::Deploy {
        common: common(alloc, sender, limit, mode, post),
        name,
        source,
        version: version.unwrap_or(Version::One),
    })
}

fn call(alloc: Global, known: &mut Addresses, value: &Value, path: &str) -> Read<Entry>
    ensures found { (v : Texts) → IfOk result (λ e. call v.of path.now (view value.now) ≡ Ok e) }
    ensures broken { (v : Texts) → IfRefused result
        (λ r. call v.of path.now (view value.now) ≡ Err r) }
{
    let (sender, (contract, (function, (args, (limit, (mode, (post, ()))))))): (
        Address,
        (
            Contract,
            (
                Row<u8>,
                (
                    Row<Val>,
                    (Option<[u64; 5]>, (Option<Mode>, (Option<Conditions>, ()))),
                ),
            ),
        ),
    ) = object(alloc, known, value, path, Object::Call)?;
    Ok(Entry::Call {
        common: common(alloc, sender, limit, mode, post),
        contract: contract.principal,
        function,
        args,
    })
}

fn entry_by(
    alloc: Global,
    known: &mut Addresses,
    kind: Option<EntryKind>,
    value: &Value,
    path: &str,
) -> Read<Entry>
    ensures found { (v : Texts) → IfOk result
        (λ e. entry_by kind v.of path.now (view value.now) ≡ Ok e) }
    ensures broken { (v : Texts) → IfRefused result
        (λ r. entry_by kind v.of path.now (view value.now) ≡ Err r) }
{
    match kind {
        Some(EntryKind::Block) => block(alloc, known, value, path),
        Some(EntryKind::Deploy) => deploy(alloc, known, value, path),
        Some(EntryKind::Call) => call(alloc, known, value, path),
        None => Err(lone_field(alloc, path)),
    }
}

fn lone_entry(alloc: Global, known: &mut Addresses, value: &Value, path: &str) -> Read<Entry>
    ensures found { (v : Texts) → IfOk result
        (λ e. entry v.of path.now (view value.now) ≡ Ok e) }
    ensures broken { (v : Texts) → IfRefused result
        (λ r. entry v.of path.now (view value.now) ≡ Err r) }
{
    let Some((name, value)) = sole(value) else {
        return Err(bad_value(alloc, path));
    };
    let path = below(alloc, path, name)?;
    entry_by(alloc, known, entry_kind(name), value, path.as_str())
}

fn height_after(height: u64, entry: &Entry) -> u64
    ensures { result ≡ height_after height entry.now }
{
    match entry {
        Entry::Block { height } => *height,
        Entry::Deploy { .. } => height,
        Entry::Call { .. } => height,
    }
}

fn rising(alloc: Global, entry: Entry, height: u64, path: &str) -> Read<Entry>
    ensures found { IfOk result (λ e. rising height path.now entry ≡ Ok e) }
    ensures broken { IfRefused result (λ r. rising height path.now entry ≡ Err r) }
    ensures rises { IfOk result (λ e. height ≤ height_after height e) }
{
    if let Entry::Block { height: next } = &entry {
        if *next < height {
            return Err(height_falls(alloc, path));
        }
    }
    Ok(entry)
}

fn entry_after(
    alloc: Global,
    known: &mut Addresses,
    value: &Value,
    height: u64,
    path: &str,
) -> Read<Entry>
    ensures found { (v : Texts) → IfOk result
        (λ e. entry_after v.of height path.now (view value.now) ≡ Ok e) }
    ensures broken { (v : Texts) → IfRefused result
        (λ r. entry_after v.of height path.now (view value.now) ≡ Err r) }
    ensures rises { IfOk result (λ e. height ≤ height_after height e) }
{
    let entry = lone_entry(alloc, known, value, path)?;
    rising(alloc, entry, height, path)
}

/// The entries of an array at the path.
pub(crate) fn entries(
    alloc: Global,
    known: &mut Addresses,
    list: &[Value],
    path: &str,
) -> Read<Vec<Entry>>
    ensures found { (v : Texts) → IfOk result
        (λ es. each_from (entry_at v.of) path.now [] 0 (items_view list.now) ≡ Ok es.items) }
    ensures broken { (v : Texts) → IfRefused result
        (λ r. each_from (entry_at v.of) path.now [] 0 (items_view list.now) ≡ Err r) }
    ensures count { IfOk result (λ es. length es.items ≡ length list.now) }
    ensures rising { IfOk result (λ es. NeverFall 0 es.items) }
{
    let mut read = Vec::new(alloc);
    let mut height = 0;
    for i in 0..list.len() {
        let at = place(alloc, path, i)?;
        let next = entry_after(alloc, known, &list[i], height, at.as_str())?;
        height = height_after(height, &next);
        read.push(next)?;
    }
    Ok(read)
}
