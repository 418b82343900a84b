//! Writing claims.
ghost use Rattle.std.specs.Prelude.{◌≡◌, ◌++◌, IfOk, codes, decimal};
ghost use Rattle.hex.specs.Hex.{encode_lower};
ghost use Rattle.cl_values.specs.Wire.{wire};
ghost use Rattle.cl_claims.specs.Lines.{span_text, claim_line, claim_text};

use cl_codec::encode;
use cl_sexpr::Span;
use cl_types::NoMemory;
use cl_values::Val;
use itoa::Buffer;
use std::alloc::Global;

fn write_number(out: &mut Vec<u8>, number: u32) -> Result<(), NoMemory>
    ensures { IfOk result (λ _. out.new.items ≡ out.old.items ++ decimal number) }
{
    out.extend_from_slice(Buffer::new().format(number).as_bytes())?;
    Ok(())
}

fn write_span(out: &mut Vec<u8>, span: Span) -> Result<(), NoMemory>
    ensures { IfOk result (λ _. out.new.items ≡ out.old.items ++ span_text span) }
{
    write_number(out, span.start)?;
    out.extend_from_slice(b"..")?;
    write_number(out, span.end)?;
    Ok(())
}

fn write_wire(out: &mut Vec<u8>, alloc: Global, value: &Val) -> Result<(), NoMemory>
    ensures { IfOk result (λ _. out.new.items ≡ out.old.items ++ encode_lower (wire value.now)) }
{
    let bytes = encode(alloc, value)?;
    let digits = hex::encode(alloc, &bytes)?;
    out.extend_from_slice(digits.as_bytes())?;
    Ok(())
}

/// Writes the line of a claim: the number of the entry, the span of the node, and the wire form of
/// the value that it gave.
#[tactic(auto, unfolding(crate::specs::Lines::claim_text))]
pub fn write_claim(
    out: &mut Vec<u8>,
    alloc: Global,
    entry: u32,
    span: Span,
    value: &Val,
) -> Result<(), NoMemory>
    ensures { IfOk result (λ _. out.new.items ≡ out.old.items ++ claim_line entry span value.now) }
{
    write_number(out, entry)?;
    out.extend_from_slice(b" ")?;
    write_span(out, span)?;
    out.extend_from_slice(b" ")?;
    write_wire(out, alloc, value)?;
    out.extend_from_slice(b"\n")?;
    Ok(())
}
