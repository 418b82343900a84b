ghost use Rattle.std.specs.Prelude.{◌≡◌, ℕ, List, IfOk, Some, Ok, Err, map, option_map};
ghost use Rattle.serde_json.specs.Data.{Data};
ghost use Rattle.serde_json.specs.View.{view, members_view};
ghost use Rattle.cl_json.specs.Json.{json_of, unknown_member};
ghost use Rattle.cl_types.specs.Fault.{IfRefused};
ghost use Rattle.cl_shapes.specs.Names.{cost_name, cost_names};
ghost use Rattle.cl_costs.specs.CostFile.{function_at, functions_at, table_in, table_of};
ghost use Rattle.cl_costs.specs.Tables.{function_of};
ghost use Rattle.cl_costs.specs.Written.{written_table, HasCoefficientsInRange};

use crate::function::{function_in, name_of};
use crate::refusal::CostRefusal;
use crate::table::CostTable;
use cl_json::{NotJson, parse, unknown_member};
use cl_shapes::{CostFn, CostName};
use cl_types::{Fault, Text};
use serde_json::{Map, Value};
use std::alloc::Global;

fn all_names() -> [&'static str; 24]
    ensures { map (λ name. name.now) result ≡ map cost_name cost_names }
{
    CostName::ALL.map(CostName::name)
}

/// The bytewise least name that is no cost name.
fn unknown_name(table: &Map<String, Value>) -> Option<&str>
    ensures { option_map (λ name. name.now) result
        ≡ unknown_member (map cost_name cost_names) (members_view table.now.entries) }
{
    unknown_member(&all_names(), table)
}

#[tactic(auto, unfolding(crate::specs::CostFile::function_at))]
fn function_at(alloc: Global, name: CostName, table: &Value) -> Result<CostFn, Fault<CostRefusal>>
    ensures found { IfOk result (λ f. function_at name (view table.now) ≡ Ok f) }
    ensures refused { IfRefused result (λ r. function_at name (view table.now) ≡ Err r) }
{
    match table.get(name.name()) {
        Some(function) => function_in(alloc, name, function),
        None => Err(Fault::Refused(CostRefusal::Missing {
            name: name_of(name),
        })),
    }
}

fn functions_at(alloc: Global, table: &Value) -> Result<[CostFn; 24], Fault<CostRefusal>>
    ensures found { IfOk result (λ fs. functions_at cost_names (view table.now) ≡ Ok fs) }
    ensures refused { IfRefused result (λ r. functions_at cost_names (view table.now) ≡ Err r) }
{
    let mut functions = CostName::ALL.map(CostName::unit);
    for i in 0..24 {
        functions[i] = function_at(alloc, CostName::ALL[i], table)?;
    }
    Ok(functions)
}

/// Reads the JSON value of a cost table: the table that it is, or its first fault by the tests of
/// [`read`]; `NotJson` where the value is no object.
#[tactic(auto, unfolding(crate::specs::CostFile::table_in))]
pub fn read_value(alloc: Global, table: &Value) -> Result<CostTable, Fault<CostRefusal>>
    ensures found { IfOk result (λ t. table_in (view table.now) ≡ Ok t) }
    ensures refused { IfRefused result (λ r. table_in (view table.now) ≡ Err r) }
{
    let Some(members) = table.as_object() else {
        return Err(Fault::Refused(CostRefusal::NotJson));
    };
    if let Some(name) = unknown_name(members) {
        let name = Text::copied(alloc, name)?;
        return Err(Fault::Refused(CostRefusal::Unknown { name }));
    }
    Ok(CostTable::new(functions_at(alloc, table)?))
}

/// Reads a cost file: the table that it is, or its first fault.
///
/// The tests come in this order: `NotJson`; `Unknown` with the bytewise least such name; then for each cost name in
/// order `Missing`, `BadShape` and `TooBig`. `BadShape` has `runtime` where the value is no object, else the first
/// dimension in order whose value is no shape, else the bytewise least unknown dimension.
pub fn read(alloc: Global, bytes: &[u8]) -> Result<CostTable, Fault<CostRefusal>>
    ensures found { IfOk result (λ table. table_of bytes.now ≡ Ok table) }
    ensures refused { IfRefused result (λ refusal. table_of bytes.now ≡ Err refusal) }
{
    match parse(alloc, bytes) {
        Ok(value) => read_value(alloc, &value),
        Err(Fault::Refused(NotJson)) => Err(Fault::Refused(CostRefusal::NotJson)),
        Err(Fault::NoMemory) => Err(Fault::NoMemory),
    }
}

/// The table of a cost file has for each name the function that the name's value is.
pub fn reads_each_name()
    ensures { (bytes : List ℕ) (d : Data) (table : List CostFn) →
        json_of bytes ≡ Some d → table_of bytes ≡ Ok table →
        (name : CostName) → function_at name d ≡ Ok (function_of table name) }
{}

/// Every table whose coefficients are below 2^32 is read from the JSON object that it is written as.
pub fn reads_every_table()
    ensures { (f : CostName → CostFn) → ((name : CostName) → HasCoefficientsInRange (f name)) →
        table_in (written_table f) ≡ Ok (map f cost_names) }
{}
