//! Strings.
ghost use Rattle.std.specs.Prelude.{◌≡◌, ◌<◌, ◌≤◌, ◌+◌, ◌^◌, length, true, false, Ok, Err, IfOk, IfSome, position, not};
ghost use Rattle.std.specs.Option.{SomeIff};
ghost use Rattle.std.specs.Char.{is_digit};
ghost use Rattle.cl_types.specs.Fault.{IfRefused};
ghost use Rattle.cl_sexpr.specs.Quote.{closing, escape, digits_in_front, hex_value, hex_number, in_braces, code_of, escape_of, character_at, characters, is_string_byte, text_in, mark, string_at};
ghost use Rattle.cl_sexpr.specs.Lexed.{token, leaf};

use crate::bytes::{begins, split_byte};
use crate::leaf::Leaf;
use crate::lexer::Token;
use crate::rule::{Break, Rule, broken};
use cl_types::Fault;
use std::alloc::Global;

/// How many bytes stand before the closing quote.
fn closing(bytes: &[u8]) -> Option<usize>
    ensures value { result ≡ closing false bytes.now }
    ensures within { IfSome result (λ n. n < length bytes.now) }
{
    let mut escaped = false;
    for (i, b) in bytes.iter().enumerate() {
        if escaped {
            escaped = false;
        } else if *b == b'"' {
            return Some(i);
        } else {
            escaped = *b == b'\\';
        }
    }
    None
}

fn escape(c: u8) -> Option<char>
    ensures value { result ≡ escape c }
    ensures small { IfSome result (λ e. e < 128) }
{
    if c == b'"' {
        Some('"')
    } else if c == b'\\' {
        Some('\\')
    } else if c == b'n' {
        Some('\n')
    } else if c == b'r' {
        Some('\r')
    } else if c == b't' {
        Some('\t')
    } else if c == b'0' {
        Some('\0')
    } else {
        None
    }
}

fn first_other(bytes: &[u8]) -> Option<usize>
    ensures value { result ≡ position (λ c. not (is_digit c 16)) bytes.now }
    ensures within { IfSome result (λ n. n < length bytes.now) }
{
    bytes.iter().position(|b| !char::from(*b).is_digit(16))
}

fn digits_in_front(bytes: &[u8]) -> usize
    ensures value { result ≡ digits_in_front bytes.now }
    ensures within { result ≤ length bytes.now }
{
    match first_other(bytes) {
        Some(n) => n,
        None => bytes.len(),
    }
}

fn hex_value(c: u8) -> u32
    ensures { result ≡ hex_value c }
{
    char::from(c).to_digit(16).unwrap_or(0)
}

// The number that hexadecimal digits spell, where it is below 2 ^ 32.
#[tactic(auto, using(crate::proofs::Digits::hex_more, crate::proofs::Digits::hex_front))]
fn hex_number(digits: &[u8]) -> Option<u32>
    ensures { SomeIff result (hex_number digits.now < 2 ^ 32) (hex_number digits.now) }
{
    let mut value = 0u32;
    for digit in digits {
        value = value.checked_mul(16)?.checked_add(hex_value(*digit))?;
    }
    Some(value)
}

// The character of a code of n digits in braces, and how many bytes behind the `\` it takes.
fn in_braces(n: usize, bytes: &[u8]) -> Option<(char, usize)>
    requires { n ≤ length bytes.now }
    ensures value { result ≡ in_braces n bytes.now }
    ensures within { IfSome result (λ e. e.1 ≤ length bytes.now + 2) }
{
    if n < 1 || n > 6 || !begins(b'}', &bytes[n..]) {
        return None;
    }
    let code = hex_number(&bytes[..n])?;
    let character = char::from_u32(code)?;
    Some((character, n + 3))
}

fn code_of(bytes: &[u8]) -> Option<(char, usize)>
    ensures value { result ≡ code_of bytes.now }
    ensures within { IfSome result (λ e. e.1 ≤ length bytes.now + 1) }
{
    let (first, rest) = bytes.split_first()?;
    if *first == b'{' {
        in_braces(digits_in_front(rest), rest)
    } else {
        None
    }
}

// The character of the escape that these bytes behind a `\` begin with, and how many they are.
#[tactic(auto, unfolding(crate::specs::Quote::escape_of))]
fn escape_of(unicode: bool, bytes: &[u8]) -> Option<(char, usize)>
    ensures value { result ≡ escape_of unicode bytes.now }
    ensures within { IfSome result (λ e. e.1 ≤ length bytes.now) }
    ensures small { unicode ≡ false → IfSome result (λ e. e.0 < 128) }
{
    let (first, rest) = bytes.split_first()?;
    if unicode && *first == b'u' {
        code_of(rest)
    } else {
        let character = escape(*first)?;
        Some((character, 1))
    }
}

// The character that stands at a place, and how many bytes spell it.
fn character_at(unicode: bool, first: u8, more: &[u8], at: u32) -> Result<(char, usize), Break>
    requires { at + 1 + length more.now < 2 ^ 32 }
    ensures value { result ≡ character_at unicode at first more.now }
    ensures some { IfOk result (λ c. 0 < c.1) }
    ensures within { IfOk result (λ c. c.1 ≤ length more.now + 1) }
    ensures small { unicode ≡ false → IfOk result (λ c. c.0 < 256) }
{
    if first != b'\\' {
        return Ok((char::from(first), 1));
    }
    match escape_of(unicode, more) {
        Some((character, size)) => Ok((character, size + 1)),
        None => {
            let end = at + 1 + more.len().min(1) as u32;
            Err(broken(Rule::BadEscape, at, end))
        }
    }
}

// The characters of an ASCII string's bytes.
fn ascii(alloc: Global, bytes: &[u8], place: u32) -> Result<Vec<u8>, Fault<Break>>
    requires room { place + length bytes.now < 2 ^ 32 }
    ensures found { IfOk result (λ v. characters false place 0 bytes.now ≡ Ok v.items) }
    ensures broken { IfRefused result (λ r. characters false place 0 bytes.now ≡ Err r) }
{
    let mut text = Vec::new(alloc);
    let mut rest = bytes;
    let mut at = place;
    while !rest.is_empty() {
        let (first, more) = split_byte(rest);
        match character_at(false, first, more, at) {
            Ok((character, size)) => {
                text.push(character as u8)?;
                (_, rest) = more.split_at(size - 1);
                at += size as u32;
            }
            Err(refusal) => return Err(Fault::Refused(refusal)),
        }
    }
    Ok(text)
}

// The characters of a UTF-8 string's bytes.
fn unicode(alloc: Global, bytes: &[u8], place: u32) -> Result<Vec<char>, Fault<Break>>
    requires room { place + length bytes.now < 2 ^ 32 }
    ensures found { IfOk result (λ v. characters true place 0 bytes.now ≡ Ok v.items) }
    ensures broken { IfRefused result (λ r. characters true place 0 bytes.now ≡ Err r) }
{
    let mut text = Vec::new(alloc);
    let mut rest = bytes;
    let mut at = place;
    while !rest.is_empty() {
        let (first, more) = split_byte(rest);
        match character_at(true, first, more, at) {
            Ok((character, size)) => {
                text.push(character)?;
                (_, rest) = more.split_at(size - 1);
                at += size as u32;
            }
            Err(refusal) => return Err(Fault::Refused(refusal)),
        }
    }
    Ok(text)
}

fn is_string_byte(c: u8) -> bool
    ensures { result ≡ is_string_byte c }
{
    32 <= c && c <= 126
}

fn first_bad(bytes: &[u8]) -> Option<usize>
    ensures { result ≡ position (λ c. not (is_string_byte c)) bytes.now }
{
    bytes.iter().position(|b| !is_string_byte(*b))
}

// The string of the bytes between quotes.
#[tactic(auto, unfolding(crate::specs::Quote::text_in))]
fn text_in(alloc: Global, is_unicode: bool, bytes: &[u8], at: u32) -> Result<Leaf, Fault<Break>>
    requires room { at + length bytes.now < 2 ^ 32 }
    ensures found { IfOk result (λ l. text_in is_unicode at bytes.now ≡ Ok (leaf l)) }
    ensures broken { IfRefused result (λ r. text_in is_unicode at bytes.now ≡ Err r) }
{
    if let Some(bad) = first_bad(bytes) {
        let start = at + bad as u32;
        return Err(Fault::Refused(broken(Rule::BadByte, start, start + 1)));
    }
    if is_unicode {
        match unicode(alloc, bytes, at) {
            Ok(text) => Ok(Leaf::Utf8(text)),
            Err(fault) => Err(fault),
        }
    } else {
        match ascii(alloc, bytes, at) {
            Ok(text) => Ok(Leaf::Ascii(text)),
            Err(fault) => Err(fault),
        }
    }
}

fn mark(is_unicode: bool) -> usize
    ensures value { result ≡ mark is_unicode }
    ensures small { result ≤ 1 }
{
    if is_unicode { 1 } else { 0 }
}

/// The string at a place with these bytes behind its opening quote, and how many bytes spell it.
#[tactic(auto, unfolding(crate::specs::Quote::string_at))]
pub fn string_at(
    alloc: Global,
    is_unicode: bool,
    bytes: &[u8],
    at: u32,
) -> Result<(Token, usize), Fault<Break>>
    requires room { at + 2 + length bytes.now < 2 ^ 32 }
    ensures found { IfOk result (λ x. string_at is_unicode at bytes.now ≡ Ok (token x.0 at (at + x.1), x.1)) }
    ensures some { IfOk result (λ x. 0 < x.1) }
    ensures within { IfOk result (λ x. x.1 ≤ length bytes.now + 1 + mark is_unicode) }
    ensures broken { IfRefused result (λ r. string_at is_unicode at bytes.now ≡ Err r) }
{
    let mark = mark(is_unicode);
    let quote = at + mark as u32;
    match closing(bytes) {
        None => match text_in(alloc, is_unicode, bytes, quote + 1) {
            Ok(_) => {
                let unclosed = broken(Rule::Unclosed, quote, quote + 1);
                Ok((Token::Faulty(unclosed), mark + 1 + bytes.len()))
            }
            Err(fault) => Err(fault),
        },
        Some(n) => match text_in(alloc, is_unicode, &bytes[..n], quote + 1) {
            Ok(leaf) => Ok((Token::Item(leaf), mark + n + 2)),
            Err(fault) => Err(fault),
        },
    }
}
