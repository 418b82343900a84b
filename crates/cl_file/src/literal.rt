//! Values that are texts of literals.
ghost use Rattle.std.specs.Prelude.{◌≡◌, [], IfOk};
ghost use Rattle.serde_json.specs.View.{view, items_view};
ghost use Rattle.cl_file.specs.Objects.{Texts};
ghost use Rattle.cl_file.specs.Kinds.{uint_in, literal, amount, literals_from, literals};

use crate::Row;
use cl_text::parse;
use cl_types::{Fault, NoMemory};
use cl_values::{Kind, Val};
use serde_json::Value;
use std::alloc::Global;

fn text_value(alloc: Global, text: &[u8]) -> Result<Option<Val>, NoMemory>
    ensures { (v : Texts) → IfOk result (λ o. v.of text.now ≡ o) }
{
    match parse(alloc, text) {
        Ok(value) => Ok(Some(value)),
        Err(Fault::Refused(_)) => Ok(None),
        Err(Fault::NoMemory) => Err(NoMemory),
    }
}

/// The value whose text a value is.
pub(crate) fn literal(alloc: Global, value: &Value) -> Result<Option<Val>, NoMemory>
    ensures { (v : Texts) → IfOk result (λ o. literal v.of (view value.now) ≡ o) }
{
    match value.as_str() {
        Some(text) => text_value(alloc, text.as_bytes()),
        None => Ok(None),
    }
}

fn uint_in(value: &Val) -> Option<u128>
    ensures { result ≡ uint_in value.now }
{
    match &value.value().kind {
        Kind::Uint(n) => Some(*n),
        _ => None,
    }
}

/// The uint whose text a value is.
pub(crate) fn amount(alloc: Global, value: &Value) -> Result<Option<u128>, NoMemory>
    ensures { (v : Texts) → IfOk result (λ o. amount v.of (view value.now) ≡ o) }
{
    match literal(alloc, value)? {
        Some(value) => Ok(uint_in(&value)),
        None => Ok(None),
    }
}

fn literals_in(alloc: Global, list: &[Value]) -> Result<Option<Row<Val>>, NoMemory>
    ensures { (v : Texts) → IfOk result (λ o. literals_from v.of [] (items_view list.now) ≡ o) }
{
    let mut values = Vec::new(alloc);
    for i in 0..list.len() {
        let Some(value) = literal(alloc, &list[i])? else {
            return Ok(None);
        };
        values.push(value)?;
    }
    Ok(Some(Row::new(values)))
}

/// The values whose texts stand in an array.
pub(crate) fn literals(alloc: Global, value: &Value) -> Result<Option<Row<Val>>, NoMemory>
    ensures { (v : Texts) → IfOk result (λ o. literals v.of (view value.now) ≡ o) }
{
    match value.as_array() {
        Some(list) => literals_in(alloc, list.as_slice()),
        None => Ok(None),
    }
}
