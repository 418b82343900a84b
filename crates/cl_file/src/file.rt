//! The transaction file.
ghost use Rattle.std.specs.Prelude.{◌≡◌, ◌<◌, ◌≤◌, ◌^◌, [], codes, length, IfOk, Ok, Err};
ghost use Rattle.serde_json.specs.Data.{Items};
ghost use Rattle.serde_json.specs.View.{view, items_view};
ghost use Rattle.cl_types.specs.Fault.{IfRefused};
ghost use Rattle.cl_costs.specs.Schedules.{AreEpochs, RiseFrom};
ghost use Rattle.cl_file.specs.Entries.{NeverFall};
ghost use Rattle.cl_file.specs.Objects.{Values, Texts, needed};
ghost use Rattle.cl_file.specs.Paths.{each_from};
ghost use Rattle.cl_file.specs.Files.{holder_at, items, total, is_object, has_version, epochs_of, entries_of, members_of, second_members_of, file_by, file_in, file_of, FileReads};

use crate::addresses::Addresses;
use crate::entries::entries;
use crate::epochs::epochs;
use crate::holders::{fits, holders};
use crate::names::{Object, names_of};
use crate::object::only;
use crate::path::{Read, bad_member, bad_value, field};
use crate::{Entry, TxFile, TxRefusal};
use cl_c32::Principal;
use cl_costs::CostTable;
use cl_json::parse;
use cl_keyed::HashKey;
use cl_types::Fault;
use indexmap::IndexMap;
use serde_json::Value;
use std::alloc::Global;

/// The most entries of a file.
pub(crate) const MOST_ENTRIES: usize = 100_000;

/// The most epochs of a file.
pub(crate) const MOST_EPOCHS: usize = 64;

fn array<'v>(alloc: Global, object: &'v Value, path: &str, name: &str) -> Read<&'v [Value]>
    ensures found { (values : Values) → IfOk result
        (λ list. needed items values path.now name.now (view object.now) ≡ Ok (items_view list.now)) }
    ensures broken { (values : Values) → IfRefused result
        (λ r. needed items values path.now name.now (view object.now) ≡ Err r) }
{
    let Some(value) = object.get(name) else {
        return Err(field(alloc, path, name));
    };
    match value.as_array() {
        Some(list) => Ok(list.as_slice()),
        None => Err(bad_member(alloc, path, name)),
    }
}

fn has_version(value: &Value, version: u64) -> bool
    ensures { result ≡ has_version version (view value.now) }
{
    match value.get("version") {
        Some(found) => match found.as_u64() {
            Some(n) => n == version,
            None => false,
        },
        None => false,
    }
}

fn is_object(value: &Value) -> bool
    ensures { result ≡ is_object (view value.now) }
{
    value.as_object().is_some()
}

fn epochs_of(alloc: Global, list: &[Value]) -> Read<Vec<(u64, CostTable)>>
    ensures found { (v : Texts) → IfOk result
        (λ es. epochs_of v.of (items_view list.now) ≡ Ok es.items) }
    ensures broken { (v : Texts) → IfRefused result
        (λ r. epochs_of v.of (items_view list.now) ≡ Err r) }
    ensures few { IfOk result (λ es. length es.items ≤ 64) }
    ensures rising { IfOk result (λ es. RiseFrom 1 es.items) }
{
    if list.len() > MOST_EPOCHS {
        return Err(bad_value(alloc, "/epochs"));
    }
    epochs(alloc, list, "/epochs")
}

fn entries_of(alloc: Global, known: &mut Addresses, list: &[Value]) -> Read<Vec<Entry>>
    ensures found { (v : Texts) → IfOk result
        (λ es. entries_of v.of (items_view list.now) ≡ Ok es.items) }
    ensures broken { (v : Texts) → IfRefused result
        (λ r. entries_of v.of (items_view list.now) ≡ Err r) }
    ensures few { IfOk result (λ es. length es.items ≤ 100000) }
    ensures rising { IfOk result (λ es. NeverFall 0 es.items) }
{
    if list.len() > MOST_ENTRIES {
        return Err(Fault::Refused(TxRefusal::TooMany));
    }
    entries(alloc, known, list, "/entries")
}

// The epochs and entries behind these holders of the genesis, who are tested first. The holders are
// borrowed, so no fault here lets go of them.
fn lists_behind(
    alloc: Global,
    known: &mut Addresses,
    held: &IndexMap<Principal, u128, HashKey>,
    epochs: &[Value],
    list: &[Value],
) -> Read<(Vec<(u64, CostTable)>, Vec<Entry>)>
    ensures found { (v : Texts) (genesis : Items) →
        each_from (holder_at v.of) (codes "/genesis") [] 0 genesis ≡ Ok held.now.entries → IfOk result
        (λ p. file_by v.of genesis (items_view epochs.now) (items_view list.now) ≡ Ok (record {
          genesis = held.now.entries;
          epochs = p.0.items;
          entries = p.1.items;
        })) }
    ensures broken { (v : Texts) (genesis : Items) →
        each_from (holder_at v.of) (codes "/genesis") [] 0 genesis ≡ Ok held.now.entries → IfRefused result
        (λ r. file_by v.of genesis (items_view epochs.now) (items_view list.now) ≡ Err r) }
    ensures fits { IfOk result (λ _. total held.now.entries < 2 ^ 128) }
    ensures epochs { IfOk result (λ p. AreEpochs p.0.items) }
    ensures few { IfOk result (λ p. length p.1.items ≤ 100000) }
    ensures rising { IfOk result (λ p. NeverFall 0 p.1.items) }
{
    if !fits(held) {
        return Err(Fault::Refused(TxRefusal::GenesisTooBig));
    }
    let begun = epochs_of(alloc, epochs)?;
    let read = entries_of(alloc, known, list)?;
    Ok((begun, read))
}

fn file_by(
    alloc: Global,
    hash_key: HashKey,
    known: &mut Addresses,
    genesis: &[Value],
    epochs: &[Value],
    list: &[Value],
) -> Read<TxFile>
    ensures found { (v : Texts) → IfOk result
        (λ f. file_by v.of (items_view genesis.now) (items_view epochs.now) (items_view list.now)
        ≡ Ok f) }
    ensures broken { (v : Texts) → IfRefused result
        (λ r. file_by v.of (items_view genesis.now) (items_view epochs.now) (items_view list.now)
        ≡ Err r) }
{
    let held = holders(alloc, hash_key, known, genesis, "/genesis")?;
    let (begun, read) = lists_behind(alloc, known, &held, epochs, list)?;
    Ok(TxFile::new(held, begun, read))
}

fn members_of(alloc: Global, hash_key: HashKey, value: &Value) -> Read<TxFile>
    ensures found { (v : Texts) → IfOk result (λ f. members_of v.of (view value.now) ≡ Ok f) }
    ensures broken { (v : Texts) → IfRefused result
        (λ r. members_of v.of (view value.now) ≡ Err r) }
{
    only(alloc, value, "", names_of(Object::File))?;
    let genesis = array(alloc, value, "", "genesis")?;
    let list = array(alloc, value, "", "entries")?;
    let mut known = Addresses::new(alloc)?;
    file_by(alloc, hash_key, &mut known, genesis, &[], list)
}

fn second_members_of(alloc: Global, hash_key: HashKey, value: &Value) -> Read<TxFile>
    ensures found { (v : Texts) → IfOk result
        (λ f. second_members_of v.of (view value.now) ≡ Ok f) }
    ensures broken { (v : Texts) → IfRefused result
        (λ r. second_members_of v.of (view value.now) ≡ Err r) }
{
    only(alloc, value, "", names_of(Object::SecondFile))?;
    let genesis = array(alloc, value, "", "genesis")?;
    let epochs = array(alloc, value, "", "epochs")?;
    let list = array(alloc, value, "", "entries")?;
    let mut known = Addresses::new(alloc)?;
    file_by(alloc, hash_key, &mut known, genesis, epochs, list)
}

#[tactic(auto, unfolding(crate::specs::Files::file_in))]
fn file_in(alloc: Global, hash_key: HashKey, value: &Value) -> Read<TxFile>
    ensures found { (v : Texts) → IfOk result (λ f. file_in v.of (view value.now) ≡ Ok f) }
    ensures broken { (v : Texts) → IfRefused result
        (λ r. file_in v.of (view value.now) ≡ Err r) }
{
    if !is_object(value) {
        return Err(Fault::Refused(TxRefusal::NotJson));
    }
    if has_version(value, 1) {
        return members_of(alloc, hash_key, value);
    }
    if has_version(value, 2) {
        return second_members_of(alloc, hash_key, value);
    }
    Err(Fault::Refused(TxRefusal::Version))
}

#[tactic(auto, unfolding(crate::specs::Files::file_of))]
fn read_text(alloc: Global, bytes: &[u8]) -> Read<TxFile>
    ensures found { (v : Texts) → IfOk result (λ f. file_of v.of bytes.now ≡ Ok f) }
    ensures broken { (v : Texts) → IfRefused result (λ r. file_of v.of bytes.now ≡ Err r) }
{
    match parse(alloc, bytes) {
        Ok(value) => file_in(alloc, HashKey::of(bytes), &value),
        Err(Fault::Refused(_)) => Err(Fault::Refused(TxRefusal::NotJson)),
        Err(Fault::NoMemory) => Err(Fault::NoMemory),
    }
}

/// Reads a transaction file of version 1 or 2: the file, or its first fault. Tests come in this
/// order: the text is JSON and an object; the version is 1 or 2; the top members; the holders in
/// their order; their sum; the number of epochs; the epochs in their order; the number of entries;
/// the entries in their order. A file of version 1 has no epochs. The table of the holders hashes by the key of these bytes.
pub fn read(alloc: Global, bytes: &[u8]) -> Result<TxFile, Fault<TxRefusal>>
    ensures found { IfOk result (λ f. FileReads bytes.now (Ok f)) }
    ensures broken { IfRefused result (λ r. FileReads bytes.now (Err r)) }
{
    read_text(alloc, bytes)
}
