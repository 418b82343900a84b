ghost use Rattle.std.specs.Prelude.{◌≡◌, IfOk, Some, None};
ghost use Rattle.serde_json.specs.View.{view};
ghost use Rattle.cl_types.specs.Fault.{IfRefused};
ghost use Rattle.cl_json.specs.Json.{json_of};

use cl_types::Fault;
use serde_json::Value;
use std::alloc::Global;

/// The bytes are no JSON text in UTF-8.
#[derive(Clone, Copy)]
pub struct NotJson;

/// Reads a JSON text in UTF-8, without a byte order mark and with arrays and objects at most 127 deep.
///
/// Of a member that stands twice in an object the last value counts.
pub fn parse(alloc: Global, bytes: &[u8]) -> Result<Value, Fault<NotJson>>
    ensures found { IfOk result (λ value. json_of bytes.now ≡ Some (view value)) }
    ensures refused { IfRefused result (λ _. json_of bytes.now ≡ None) }
{
    match Value::from_slice(alloc, bytes) {
        Ok(value) => Ok(value),
        Err(error) => {
            if error.is_memory() {
                return Err(Fault::NoMemory);
            }
            Err(Fault::Refused(NotJson))
        }
    }
}
