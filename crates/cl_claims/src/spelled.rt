//! The parts of a line.
ghost use Rattle.std.specs.Prelude.{◌≡◌, ◌<◌, ◌==◌, ◌↔◌, ◌∷◌, IsTrue, None, length, position, option_map, IfOk, IfSome, decimal};
ghost use Rattle.std.specs.Result.{result_ok};
ghost use Rattle.hex.specs.Hex.{encode_lower};
ghost use Rattle.cl_values.specs.Reading.{decoded};
ghost use Rattle.cl_values.specs.Wire.{wire};
ghost use Rattle.cl_claims.specs.Lines.{span_text, claim_text, line_text};
ghost use Rattle.cl_claims.specs.Parsed.{claim_in, end_in, number_in, span_in, value_in};
ghost use Rattle.cl_claims.specs.Parts.{IsNoClaim, IsNoEnd, IsNoNumber, IsNoSpan, IsNoValue, IsNoWire, hex_bytes, split_at, split_seen};

use cl_codec::decode;
use cl_sexpr::{Span, are_digits, value_of};
use cl_types::{Fault, NoMemory};
use cl_values::{Val, read_back, reads_only_spellings};
use hex::FromHexError;
use itoa::Buffer;
use std::alloc::Global;

/// A line of a trace file: what a node of an entry's evaluation gave.
#[derive(Drop)]
pub struct ClaimLine {
    /// The number of the entry.
    pub entry: u32,
    /// The span of the node.
    pub span: Span,
    pub value: Val,
}

/// The place of the first byte that is the mark.
fn place_of(text: &[u8], mark: u8) -> Option<usize>
    ensures value { result ≡ position (λ c. c == mark) text.now }
    ensures within { IfSome result (λ n. n < length text.now) }
{
    text.iter().position(|b| *b == mark)
}

/// What stands before the first byte that is the mark, and what stands behind it.
pub(crate) fn split_at<'a>(text: &'a [u8], mark: u8) -> Option<(&'a [u8], &'a [u8])>
    ensures { split_seen result ≡ split_at mark text.now }
{
    let at = place_of(text, mark)?;
    Some((&text[..at], &text[at + 1..]))
}

/// The number that digits without leading zeros spell, where it has 32 bits.
fn number_in(digits: &[u8]) -> Option<u32>
    ensures parsed { result ≡ number_in digits.now }
    ensures some { IfSome result (λ n. decimal n ≡ digits.now) }
    ensures none { result ≡ None → IsNoNumber digits.now }
{
    if !are_digits(digits) {
        return None;
    }
    let value = value_of(digits)?;
    if value > 4_294_967_295 {
        return None;
    }
    let number = value as u32;
    let mut buffer = Buffer::new();
    if buffer.format(number).as_bytes() == digits {
        Some(number)
    } else {
        None
    }
}

/// The number behind the dot that a text begins with.
fn end_in(text: &[u8]) -> Option<u32>
    ensures parsed { result ≡ end_in text.now }
    ensures some { IfSome result (λ n. 46 ∷ decimal n ≡ text.now) }
    ensures none { result ≡ None → IsNoEnd text.now }
{
    let (first, digits) = text.split_first()?;
    if *first != b'.' {
        return None;
    }
    number_in(digits)
}

/// The span that a text spells.
fn span_in(text: &[u8]) -> Option<Span>
    ensures parsed { result ≡ span_in text.now }
    ensures some { IfSome result (λ at. span_text at ≡ text.now) }
    ensures none { result ≡ None → IsNoSpan text.now }
{
    let (digits, behind) = split_at(text, b'.')?;
    let start = number_in(digits)?;
    let end = end_in(behind)?;
    Some(Span { start, end })
}

/// Whether digits spell these bytes in lower case.
fn spell(alloc: Global, digits: &[u8], bytes: &[u8]) -> Result<bool, NoMemory>
    ensures { IfOk result (λ same. IsTrue same ↔ (encode_lower bytes.now ≡ digits.now)) }
{
    let text = hex::encode(alloc, bytes)?;
    Ok(text.as_bytes() == digits)
}

/// The bytes that digits of either case spell.
fn decode_hex(alloc: Global, digits: &[u8]) -> Result<Option<Vec<u8>>, NoMemory>
    ensures { IfOk result
        (λ found. option_map (λ bytes. bytes.items) found ≡ hex_bytes digits.now) }
{
    match hex::decode(alloc, digits) {
        Ok(bytes) => Ok(Some(bytes)),
        Err(FromHexError::OutOfMemory) => Err(NoMemory),
        Err(_) => Ok(None),
    }
}

/// The value with this wire form.
fn value_with(alloc: Global, bytes: &[u8]) -> Result<Option<Val>, NoMemory>
    ensures parsed { IfOk result (λ found. found ≡ result_ok (decoded bytes.now)) }
    ensures some { IfOk result (λ found. IfSome found (λ v. wire v ≡ bytes.now)) }
    ensures none { IfOk result (λ found. found ≡ None → IsNoWire bytes.now) }
{
    read_back();
    reads_only_spellings();
    match decode(alloc, bytes) {
        Ok(value) => Ok(Some(value)),
        Err(Fault::Refused(_)) => Ok(None),
        Err(Fault::NoMemory) => Err(NoMemory),
    }
}

/// The value whose wire form digits in lower case spell.
fn value_in(alloc: Global, digits: &[u8]) -> Result<Option<Val>, NoMemory>
    ensures parsed { IfOk result (λ found. found ≡ value_in digits.now) }
    ensures some { IfOk result
        (λ found. IfSome found (λ v. encode_lower (wire v) ≡ digits.now)) }
    ensures none { IfOk result (λ found. found ≡ None → IsNoValue digits.now) }
{
    let Some(bytes) = decode_hex(alloc, digits)? else {
        return Ok(None);
    };
    if !spell(alloc, digits, &bytes)? {
        return Ok(None);
    }
    let Some(value) = value_with(alloc, &bytes)? else {
        return Ok(None);
    };
    Ok(Some(value))
}

/// The claim that a line spells, which stands here without its line feed.
pub(crate) fn claim_in(alloc: Global, line: &[u8]) -> Result<Option<ClaimLine>, NoMemory>
    ensures parsed { IfOk result (λ found. found ≡ claim_in line.now) }
    ensures some { IfOk result (λ found. IfSome found
        (λ c. claim_text c.entry c.span c.value ≡ line.now)) }
    ensures none { IfOk result (λ found. found ≡ None → IsNoClaim line.now) }
{
    let Some((number, behind)) = split_at(line, b' ') else {
        return Ok(None);
    };
    let Some((places, digits)) = split_at(behind, b' ') else {
        return Ok(None);
    };
    let Some(entry) = number_in(number) else {
        return Ok(None);
    };
    let Some(span) = span_in(places) else {
        return Ok(None);
    };
    let Some(value) = value_in(alloc, digits)? else {
        return Ok(None);
    };
    Ok(Some(ClaimLine { entry, span, value }))
}
