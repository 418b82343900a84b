//! The tokens of a text.
ghost use Rattle.std.specs.Prelude.{◌≡◌, ◌<◌, ◌≤◌, ◌+◌, ◌^◌, ℕ, length, position, not, ◌==◌, Ok, Err, IfOk, IfSome, IsTrue};
ghost use Rattle.cl_types.specs.Fault.{IfRefused};
ghost use Rattle.cl_sexpr.specs.Text.{run_length, run_at, line_length, comment_at, mark_at, longer_at, is_unmarked, token_at};
ghost use Rattle.cl_sexpr.specs.Leaf.{is_run_byte};
ghost use Rattle.cl_sexpr.specs.Lexed.{token, mark_token, Lexes};

use crate::bytes::{begins, first_bad, is_run_byte, is_separator, split_byte};
use crate::leaf::Leaf;
use crate::quote::string_at;
use crate::rule::{Break, Rule, broken};
use crate::run::run_token;
use cl_types::Fault;
use std::alloc::Global;

/// A token.
#[derive(Drop)]
pub enum Token {
    Separator,
    Comment,
    Colon,
    Comma,
    Opens,
    Closes,
    OpensTuple,
    ClosesTuple,
    /// An item of one token.
    Item(Leaf),
    /// An item that breaks this rule where an item may stand.
    Faulty(Break),
}

// A separator or a mark of one byte.
fn mark_token(c: u8) -> Option<Token>
    ensures { (at : ℕ) → mark_token result at ≡ mark_at at c }
{
    if is_separator(c) {
        Some(Token::Separator)
    } else if c == b'(' {
        Some(Token::Opens)
    } else if c == b')' {
        Some(Token::Closes)
    } else if c == b'{' {
        Some(Token::OpensTuple)
    } else if c == b'}' {
        Some(Token::ClosesTuple)
    } else if c == b',' {
        Some(Token::Comma)
    } else if c == b':' {
        Some(Token::Colon)
    } else {
        None
    }
}

fn run_end(bytes: &[u8]) -> Option<usize>
    ensures value { result ≡ position (λ c. not (is_run_byte c)) bytes.now }
    ensures within { IfSome result (λ n. n < length bytes.now) }
{
    bytes.iter().position(|b| !is_run_byte(*b))
}

/// How many bytes the run in front has.
pub fn run_length(bytes: &[u8]) -> usize
    ensures value { result ≡ run_length bytes.now }
    ensures within { result ≤ length bytes.now }
{
    match run_end(bytes) {
        Some(n) => n,
        None => bytes.len(),
    }
}

// The run in front, and how many bytes it has.
fn run_at(alloc: Global, bytes: &[u8], at: u32) -> Result<(Token, usize), Fault<Break>>
    requires room { at + length bytes.now < 2 ^ 31 }
    ensures found { IfOk result (λ x. run_at at bytes.now ≡ Ok (token x.0 at (at + x.1), x.1)) }
    ensures size { IfOk result (λ x. x.1 ≡ run_length bytes.now) }
    ensures within { IfOk result (λ x. x.1 ≤ length bytes.now) }
    ensures broken { IfRefused result (λ r. run_at at bytes.now ≡ Err r) }
{
    let size = run_length(bytes);
    match run_token(alloc, &bytes[..size], at) {
        Ok(token) => Ok((token, size)),
        Err(fault) => Err(fault),
    }
}

fn line_end(bytes: &[u8]) -> Option<usize>
    ensures value { result ≡ position (λ c. c == 10) bytes.now }
    ensures within { IfSome result (λ n. n < length bytes.now) }
{
    bytes.iter().position(|b| *b == b'\n')
}

fn line_length(bytes: &[u8]) -> usize
    ensures value { result ≡ line_length bytes.now }
    ensures within { result ≤ length bytes.now }
{
    match line_end(bytes) {
        Some(n) => n,
        None => bytes.len(),
    }
}

// The comment with these bytes behind its first semicolon, and how many bytes it has.
fn comment_at(bytes: &[u8], at: u32) -> Result<(Token, usize), Fault<Break>>
    requires room { at + 1 + length bytes.now < 2 ^ 31 }
    ensures found { IfOk result (λ x. comment_at at bytes.now ≡ Ok (token x.0 at (at + x.1), x.1)) }
    ensures some { IfOk result (λ x. 0 < x.1) }
    ensures within { IfOk result (λ x. x.1 ≤ length bytes.now + 1) }
    ensures broken { IfRefused result (λ r. comment_at at bytes.now ≡ Err r) }
{
    match bytes.split_first() {
        Some((b';', rest)) => {
            let size = line_length(rest);
            match first_bad(&rest[..size]) {
                Some(bad) => {
                    let start = at + 2 + bad as u32;
                    Err(Fault::Refused(broken(Rule::BadByte, start, start + 1)))
                }
                None => Ok((Token::Comment, size + 2)),
            }
        }
        _ => Err(Fault::Refused(broken(Rule::BadToken, at, at + 1))),
    }
}

// The token in front that is no mark of one byte, and how many bytes spell it.
fn longer_at(alloc: Global, bytes: &[u8], at: u32) -> Result<(Token, usize), Fault<Break>>
    requires unmarked { IsTrue (is_unmarked bytes.now) }
    requires room { at + length bytes.now < 2 ^ 31 }
    ensures found { IfOk result (λ x. longer_at at bytes.now ≡ Ok (token x.0 at (at + x.1), x.1)) }
    ensures some { IfOk result (λ x. 0 < x.1) }
    ensures within { IfOk result (λ x. x.1 ≤ length bytes.now) }
    ensures broken { IfRefused result (λ r. longer_at at bytes.now ≡ Err r) }
{
    let (first, more) = split_byte(bytes);
    if first == b'"' {
        string_at(alloc, false, more, at)
    } else if first == b';' {
        comment_at(more, at)
    } else if first == b'u' && begins(b'"', more) {
        string_at(alloc, true, &more[1..], at)
    } else {
        run_at(alloc, bytes, at)
    }
}

/// The token at a place, and how many bytes spell it.
#[tactic(auto, unfolding(crate::specs::Text::token_at))]
pub fn token_at(alloc: Global, bytes: &[u8], at: u32) -> Result<(Token, usize), Fault<Break>>
    requires some { 0 < length bytes.now }
    requires room { at + length bytes.now < 2 ^ 31 }
    ensures found { IfOk result (λ x. Lexes x.0 x.1 at bytes.now) }
    ensures broken { IfRefused result (λ r. token_at at bytes.now ≡ Err r) }
{
    let (first, _) = split_byte(bytes);
    match mark_token(first) {
        Some(token) => Ok((token, 1)),
        None => longer_at(alloc, bytes, at),
    }
}
