//! The order of values by their content.
ghost use Rattle.std.specs.Prelude.{◌≡◌, Some, IsSome};
ghost use Rattle.cl_values.specs.Tree.{IntV, UintV, BuffV, AsciiV, Utf8V};
ghost use Rattle.cl_values.specs.Contents.{content_order};

use crate::leaves::compare_texts;
use crate::{Kind, Val, Value};
use std::cmp::Ordering;

fn int_order(number: i128, other: &Value) -> Option<Ordering>
    ensures { result ≡ content_order (IntV number) other.now }
{
    match &other.kind {
        Kind::Int(next) => Some(number.cmp(next)),
        _ => None,
    }
}

fn uint_order(number: u128, other: &Value) -> Option<Ordering>
    ensures { result ≡ content_order (UintV number) other.now }
{
    match &other.kind {
        Kind::Uint(next) => Some(number.cmp(next)),
        _ => None,
    }
}

fn buff_order(bytes: &[u8], other: &Value) -> Option<Ordering>
    ensures { result ≡ content_order (BuffV bytes.now) other.now }
{
    match &other.kind {
        Kind::Buff(next) => Some(bytes.cmp(next.as_slice())),
        _ => None,
    }
}

fn ascii_order(bytes: &[u8], other: &Value) -> Option<Ordering>
    ensures { result ≡ content_order (AsciiV bytes.now) other.now }
{
    match &other.kind {
        Kind::Ascii(next) => Some(bytes.cmp(next.as_slice())),
        _ => None,
    }
}

fn utf8_order(characters: &[char], other: &Value) -> Option<Ordering>
    ensures { result ≡ content_order (Utf8V characters.now) other.now }
{
    match &other.kind {
        Kind::Utf8(next) => Some(compare_texts(characters, next)),
        _ => None,
    }
}

fn order_of(a: &Value, b: &Value) -> Option<Ordering>
    ensures { result ≡ content_order a.now b.now }
{
    match &a.kind {
        Kind::Int(number) => int_order(*number, b),
        Kind::Uint(number) => uint_order(*number, b),
        Kind::Buff(bytes) => buff_order(bytes, b),
        Kind::Ascii(bytes) => ascii_order(bytes, b),
        Kind::Utf8(characters) => utf8_order(characters, b),
        _ => None,
    }
}

/// The order of two values by their content, where they are numbers, buffers or strings of one kind; else there is none.
pub fn try_content_order(a: &Val, b: &Val) -> Option<Ordering>
    ensures { result ≡ content_order a.now b.now }
{
    order_of(a.value(), b.value())
}

/// The order of two numbers, buffers or strings of one kind: of buffers and strings byte by byte, of UTF-8 strings in UTF-8, and
/// a proper prefix is less. It takes no memory.
pub fn content_order(a: &Val, b: &Val) -> Ordering
    requires { IsSome (content_order a.now b.now) }
    ensures { content_order a.now b.now ≡ Some result }
{
    match try_content_order(a, b) {
        Some(order) => order,
        None => unreachable!(),
    }
}
