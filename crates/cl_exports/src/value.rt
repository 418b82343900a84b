//! Values as text and in wire form.
ghost use Rattle.std.specs.Prelude.{◌≡◌, Err, IfOk};
ghost use Rattle.cl_types.specs.Fault.{IfRefused};
ghost use Rattle.cl_values.specs.Reading.{decoded};
ghost use Rattle.cl_text.specs.Parsed.{Parses, outcome_of};
ghost use Rattle.cl_exports.specs.Values.{IsTextOf, IsWireOf};

use cl_codec::{decode, encode};
use cl_text::{TextRefusal, parse, print_value};
use cl_types::Fault;
use cl_values::DecodeRefusal;
use std::alloc::Global;

/// The wire form (SIP-005) of the value that a text stands for.
///
/// # Errors
///
/// The first refusal of the text.
pub fn wire_of(alloc: Global, text: &[u8]) -> Result<Vec<u8>, Fault<TextRefusal>>
    ensures found { IfOk result (λ bytes. IsWireOf text.now bytes.items) }
    ensures broken { IfRefused result (λ r. Parses text.now (outcome_of r)) }
{
    match parse(alloc, text) {
        Ok(value) => match encode(alloc, &value) {
            Ok(bytes) => Ok(bytes),
            Err(_) => Err(Fault::NoMemory),
        },
        Err(fault) => Err(fault),
    }
}

/// The text of the value that bytes spell (SIP-005).
///
/// # Errors
///
/// The first fault of the bytes.
pub fn text_of(alloc: Global, bytes: &[u8]) -> Result<Vec<u8>, Fault<DecodeRefusal>>
    ensures found { IfOk result (λ text. IsTextOf bytes.now text.items) }
    ensures broken { IfRefused result (λ fault. decoded bytes.now ≡ Err fault) }
{
    match decode(alloc, bytes) {
        Ok(value) => match print_value(alloc, &value) {
            Ok(text) => Ok(text),
            Err(_) => Err(Fault::NoMemory),
        },
        Err(fault) => Err(fault),
    }
}
