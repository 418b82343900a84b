//! Values as text and in wire form.
ghost use Rattle.std.specs.Prelude.{◌≡◌, ◌≤◌, Err, List, ℕ, length, take};
ghost use Rattle.cl_values.specs.Reading.{decoded};
ghost use Rattle.cl_values.specs.declared.fault.DecodeRefusal.{DecodeRefusal};
ghost use Rattle.cl_text.specs.Parsed.{Parses, outcome_of};
ghost use Rattle.cl_text.specs.declared.refusal.TextRefusal.{TextRefusal};
ghost use Rattle.cl_exports.specs.Copies.{IsCut};
ghost use Rattle.cl_exports.specs.Values.{IsTextOf, IsWireOf};

use cl_exports::{fill, text_of, wire_of};
use cl_types::Fault;
use std::alloc::Global;

/// Gives the wire form (SIP-005) of the value that a text stands for: 0, or 4 where `out` is too
/// short and has its first bytes, 8 where the text stands for no value, 9 without memory. How many
/// bytes it has comes into `needed`.
#[unsafe(no_mangle)]
pub extern "C" fn clarity_value_wire(
    alloc: Global,
    text: &[u8],
    out: &mut [u8],
    needed: &mut usize,
) -> u32
    ensures whole { result ≡ 0 → IsWireOf text.now (take needed.new out.new) }
    ensures cut { result ≡ 4 →
        (bytes : List ℕ) × IsWireOf text.now bytes × IsCut bytes out.new needed.new }
    ensures none { result ≡ 8 → (r : TextRefusal) × Parses text.now (outcome_of r) }
    ensures within { result ≡ 0 → needed.new ≤ length out.new }
{
    *needed = 0;
    match wire_of(alloc, text) {
        Ok(bytes) => fill(&bytes, out, needed),
        Err(Fault::Refused(_)) => 8,
        Err(Fault::NoMemory) => 9,
    }
}

/// Gives the text of the value whose wire form (SIP-005) the bytes are, with the same numbers.
#[unsafe(no_mangle)]
pub extern "C" fn clarity_value_text(
    alloc: Global,
    bytes: &[u8],
    out: &mut [u8],
    needed: &mut usize,
) -> u32
    ensures whole { result ≡ 0 → IsTextOf bytes.now (take needed.new out.new) }
    ensures cut { result ≡ 4 →
        (text : List ℕ) × IsTextOf bytes.now text × IsCut text out.new needed.new }
    ensures none { result ≡ 8 → (fault : DecodeRefusal) × (decoded bytes.now ≡ Err fault) }
    ensures within { result ≡ 0 → needed.new ≤ length out.new }
{
    *needed = 0;
    match text_of(alloc, bytes) {
        Ok(text) => fill(&text, out, needed),
        Err(Fault::Refused(_)) => 8,
        Err(Fault::NoMemory) => 9,
    }
}
