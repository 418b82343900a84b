//! The epochs of a file of version 2.
ghost use Rattle.std.specs.Prelude.{◌≡◌, ◌<◌, [], codes, length, IfOk, IfSome, Ok, Err};
ghost use Rattle.serde_json.specs.View.{view, items_view};
ghost use Rattle.cl_types.specs.Fault.{IfRefused};
ghost use Rattle.cl_costs.specs.Schedules.{RiseFrom};
ghost use Rattle.cl_file.specs.Paths.{each_from};
ghost use Rattle.cl_file.specs.Objects.{Texts, plain, needed};
ghost use Rattle.cl_file.specs.Epochs.{height_above, costs, epoch_above, next_epoch};

use crate::kind::said;
use crate::names::{Object, names_of};
use crate::object::only;
use crate::path::{Read, bad_member, field, place};
use cl_costs::{CostTable, read_value};
use cl_types::Fault;
use serde_json::Value;
use std::alloc::Global;

// A height above another.
fn height_above(value: &Value, height: u64) -> Option<u64>
    ensures value { result ≡ height_above height (view value.now) }
    ensures above { IfSome result (λ n. height < n) }
{
    match value.as_u64() {
        Some(n) => { if height < n { Some(n) } else { None } }
        None => None,
    }
}

fn epoch_height(alloc: Global, object: &Value, height: u64, path: &str) -> Read<u64>
    ensures found { (v : Texts) → IfOk result
        (λ n. needed (plain (height_above height)) v.of path.now (codes "height")
        (view object.now) ≡ Ok n) }
    ensures broken { (v : Texts) → IfRefused result
        (λ r. needed (plain (height_above height)) v.of path.now (codes "height")
        (view object.now) ≡ Err r) }
    ensures above { IfOk result (λ n. height < n) }
{
    match object.get("height") {
        Some(value) => said(alloc, height_above(value, height), path, "height"),
        None => Err(field(alloc, path, "height")),
    }
}

fn epoch_costs(alloc: Global, object: &Value, path: &str) -> Read<CostTable>
    ensures found { (v : Texts) → IfOk result
        (λ t. needed (plain costs) v.of path.now (codes "costs") (view object.now) ≡ Ok t) }
    ensures broken { (v : Texts) → IfRefused result
        (λ r. needed (plain costs) v.of path.now (codes "costs") (view object.now) ≡ Err r) }
{
    let Some(value) = object.get("costs") else {
        return Err(field(alloc, path, "costs"));
    };
    match read_value(alloc, value) {
        Ok(table) => Ok(table),
        Err(Fault::Refused(_)) => Err(bad_member(alloc, path, "costs")),
        Err(Fault::NoMemory) => Err(Fault::NoMemory),
    }
}

// An epoch that begins above a height.
fn epoch_above(alloc: Global, value: &Value, height: u64, path: &str) -> Read<(u64, CostTable)>
    ensures found { (v : Texts) → IfOk result
        (λ e. epoch_above v.of height path.now (view value.now) ≡ Ok e) }
    ensures broken { (v : Texts) → IfRefused result
        (λ r. epoch_above v.of height path.now (view value.now) ≡ Err r) }
    ensures above { IfOk result (λ e. height < e.0) }
{
    only(alloc, value, path, names_of(Object::Epoch))?;
    let begins = epoch_height(alloc, value, height, path)?;
    let table = epoch_costs(alloc, value, path)?;
    Ok((begins, table))
}

/// The epochs of an array at the path.
pub(crate) fn epochs(alloc: Global, list: &[Value], path: &str) -> Read<Vec<(u64, CostTable)>>
    ensures found { (v : Texts) → IfOk result
        (λ es. each_from (next_epoch v.of) path.now [] 0 (items_view list.now) ≡ Ok es.items) }
    ensures broken { (v : Texts) → IfRefused result
        (λ r. each_from (next_epoch v.of) path.now [] 0 (items_view list.now) ≡ Err r) }
    ensures count { IfOk result (λ es. length es.items ≡ length list.now) }
    ensures rising { IfOk result (λ es. RiseFrom 1 es.items) }
{
    let mut read = Vec::new(alloc);
    let mut height = 0;
    for i in 0..list.len() {
        let at = place(alloc, path, i)?;
        let next = epoch_above(alloc, &list[i], height, at.as_str())?;
        height = next.0;
        read.push(next)?;
    }
    Ok(read)
}
