//! The replies to `value` and `wire`.
ghost use Rattle.std.specs.Prelude.{◌≡◌, ◌++◌, IfOk, string_bytes};
ghost use Rattle.cl_values.specs.Reading.{decoded};
ghost use Rattle.cl_lines.specs.Refusals.{span_text};
ghost use Rattle.cl_replies.specs.Spelling.{refused_reply, line_reply, digits_in, fault_text, bytes_reply as bytes_answer, value_reply, outcome_text, no_value_reply, wire_reply};
ghost use Rattle.cl_replies.specs.Reports.{IsWireReply};
ghost use Rattle.cl_text.specs.Parsed.{Stands, outcome_of};
ghost use Rattle.cl_text.specs.Printed.{printed};

use cl_codec::{decode, encode};
use cl_entries::{Reply, Status, bytes_reply, concat_bytes, text_reply};
use cl_sexpr::Span;
use cl_text::{TextRefusal, parse, print_value};
use cl_types::{Fault, NoMemory};
use cl_values::{DecodeRefusal, Val};
use hex::FromHexError;
use std::alloc::{AllocError, Global};

/// The reply to a word that is no value, by its fault.
pub(crate) fn refusal_reply(alloc: Global, fault: &str) -> Result<Reply, AllocError>
    ensures { IfOk result (λ reply. reply ≡ refused_reply fault.now) }
{
    let text = format!(in alloc; "refused {fault}\n")?;
    Ok(text_reply(text, Status::BadWord))
}

/// The reply of a line.
fn line(text: Vec<u8>) -> Result<Reply, AllocError>
    ensures { IfOk result (λ reply. reply ≡ line_reply text.items) }
{
    let text = concat_bytes(text, b"\n", b"")?;
    Ok(bytes_reply(text, Status::Done))
}

/// The digits of a word, without the `0x` that may stand before them.
fn digits_in(word: &[u8]) -> &[u8]
    ensures { result.now ≡ digits_in word.now }
{
    match word {
        [b'0', b'x', digits @ ..] => digits,
        _ => word,
    }
}

fn fault_text(alloc: Global, fault: DecodeRefusal) -> Result<String, AllocError>
    ensures { IfOk result (λ text. string_bytes text ≡ fault_text fault) }
{
    match fault {
        DecodeRefusal::Ended { at } => format!(in alloc; "Ended {at}"),
        DecodeRefusal::BadPrefix { at } => format!(in alloc; "BadPrefix {at}"),
        DecodeRefusal::BadName { at } => format!(in alloc; "BadName {at}"),
        DecodeRefusal::KeysOrder { at } => format!(in alloc; "KeysOrder {at}"),
        DecodeRefusal::BadText { at } => format!(in alloc; "BadText {at}"),
        DecodeRefusal::TooDeep { at } => format!(in alloc; "TooDeep {at}"),
        DecodeRefusal::TooLong => String::from_str(alloc, "TooLong"),
        DecodeRefusal::Extra { at } => format!(in alloc; "Extra {at}"),
        DecodeRefusal::NoKeys { at } => format!(in alloc; "NoKeys {at}"),
    }
}

/// The text of a value.
fn value_line(alloc: Global, value: &Val) -> Result<Reply, NoMemory>
    ensures { IfOk result (λ reply. reply ≡ line_reply (printed value.now)) }
{
    let text = print_value(alloc, value)?;
    Ok(line(text)?)
}

/// The reply to bytes that spell no value, by their fault.
fn no_wire(alloc: Global, fault: DecodeRefusal) -> Result<Reply, AllocError>
    ensures { IfOk result (λ reply. reply ≡ refused_reply (fault_text fault)) }
{
    let text = fault_text(alloc, fault)?;
    refusal_reply(alloc, text.as_str())
}

/// The text of the value that bytes spell, or why they spell none.
fn reply_of_bytes(alloc: Global, bytes: &[u8]) -> Result<Reply, NoMemory>
    ensures { IfOk result (λ reply. reply ≡ bytes_answer (decoded bytes.now)) }
{
    match decode(alloc, bytes) {
        Ok(value) => value_line(alloc, &value),
        Err(Fault::Refused(fault)) => Ok(no_wire(alloc, fault)?),
        Err(Fault::NoMemory) => Err(NoMemory),
    }
}

/// The reply to `value`.
pub fn value_reply(alloc: Global, word: &[u8]) -> Result<Reply, NoMemory>
    ensures { IfOk result (λ reply. reply ≡ value_reply word.now) }
{
    match hex::decode(alloc, digits_in(word)) {
        Ok(bytes) => reply_of_bytes(alloc, &bytes),
        Err(FromHexError::OutOfMemory) => Err(NoMemory),
        Err(_) => Ok(refusal_reply(alloc, "NotHex")?),
    }
}

/// A name with the places of the bytes that it speaks of.
#[tactic(auto, unfolding(cl_lines::specs::Refusals::span_text))]
fn span_text(alloc: Global, name: &str, span: Span) -> Result<String, AllocError>
    ensures { IfOk result (λ text. string_bytes text ≡ name.now ++ span_text span) }
{
    let Span { start, end } = span;
    format!(in alloc; "{name} {start}..{end}")
}

fn refusal_text(alloc: Global, refusal: &TextRefusal) -> Result<String, AllocError>
    ensures { IfOk result (λ text. string_bytes text ≡ outcome_text (outcome_of refusal.now)) }
{
    match refusal {
        TextRefusal::Syntax(refusal) => span_text(alloc, refusal.rule.text(), refusal.span),
        TextRefusal::NotALiteral { span } => span_text(alloc, "NotALiteral", *span),
        TextRefusal::TooDeep { span } => span_text(alloc, "TooDeep", *span),
        TextRefusal::TooLarge { span } => span_text(alloc, "TooLarge", *span),
    }
}

/// The reply to a word that is the text of no value.
pub fn no_value_reply(alloc: Global, refusal: &TextRefusal) -> Result<Reply, AllocError>
    ensures { IfOk result (λ reply. reply ≡ no_value_reply (outcome_of refusal.now)) }
{
    refusal_reply(alloc, refusal_text(alloc, refusal)?.as_str())
}

fn wire_line(alloc: Global, value: &Val) -> Result<Reply, NoMemory>
    ensures { IfOk result (λ reply. reply ≡ wire_reply (Stands value.now)) }
{
    let digits = hex::encode(alloc, &encode(alloc, value)?)?;
    let front = String::from_str(alloc, "0x")?;
    let text = concat_bytes(front.into_bytes(), digits.as_bytes(), b"")?;
    Ok(line(text)?)
}

/// The reply to `wire`.
pub fn wire_reply(alloc: Global, word: &[u8]) -> Result<Reply, NoMemory>
    ensures { IfOk result (λ reply. IsWireReply word.now reply) }
{
    match parse(alloc, word) {
        Ok(value) => wire_line(alloc, &value),
        Err(Fault::Refused(refusal)) => Ok(no_value_reply(alloc, &refusal)?),
        Err(Fault::NoMemory) => Err(NoMemory),
    }
}
