//! Numbers that are told by their digits alone, in one pass, as nearly all are.
ghost use Rattle.std.specs.Prelude.{◌≡◌, ◌<◌, ◌+◌, ◌^◌, ℕ, length, IfSome};
ghost use Rattle.cl_sexpr.specs.declared.lexer.Token.TheVariants.{Item};
ghost use Rattle.cl_sexpr.specs.Lexed.{leaf, Lexes, DigitRun, number_leaf};
ghost use Rattle.cl_sexpr.specs.Tree.{LeafAt};

use crate::bytes::{is_run_byte, split_byte};
use crate::sexpr::{Node, Sexpr, Span};
use cl_types::is_digit;

/// An int or a uint below 2 ^ 64, without a sign.
#[derive(Clone, Copy)]
pub enum Number {
    Int(u64),
    Uint(u64),
}

impl Number {
    /// The item that stands there.
    pub fn item(self, span: Span) -> Sexpr
        ensures { result ≡ LeafAt (leaf (number_leaf self)) span }
    {
        let node = match self {
            Number::Int(value) => Node::Int(value as i128),
            Number::Uint(value) => Node::Uint(value as u128),
        };
        Sexpr { node, span }
    }
}

// The number that digits in front spell, and how many they are, where the run ends behind them.
#[tactic(auto, using(crate::proofs::Digits::value_more, crate::proofs::Digits::digits_more))]
fn digits_at(bytes: &[u8]) -> Option<(u64, usize)>
    ensures { IfSome result (λ x. DigitRun x.0 x.1 bytes.now) }
{
    let mut value = 0u64;
    for (i, b) in bytes.iter().enumerate() {
        if !is_digit(*b) {
            return if i == 0 || is_run_byte(*b) {
                None
            } else {
                Some((value, i))
            };
        }
        value = value.checked_mul(10)?.checked_add(u64::from(*b - b'0'))?;
    }
    if bytes.is_empty() {
        None
    } else {
        Some((value, bytes.len()))
    }
}

/// The number in front and how many bytes spell it, if it is such a one.
pub fn number_at(bytes: &[u8]) -> Option<(Number, usize)>
    requires { 0 < length bytes.now }
    ensures { (at : ℕ) → IfSome result (λ x. Lexes (Item (number_leaf x.0)) x.1 at bytes.now) }
{
    let (first, rest) = split_byte(bytes);
    if first == b'u' {
        let (value, size) = digits_at(rest)?;
        Some((Number::Uint(value), size + 1))
    } else {
        let (value, size) = digits_at(bytes)?;
        Some((Number::Int(value), size))
    }
}
