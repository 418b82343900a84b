//! What a run of bytes is.
ghost use Rattle.std.specs.Prelude.{◌≡◌, ◌<◌, ◌≤◌, ◌+◌, ◌^◌, length, Ok, Err, ◌==◌, IfOk, IfSome, IsTrue, position, Some, None, pos, neg_ℤ};
ghost use Rattle.std.specs.List.{list_all};
ghost use Rattle.std.specs.Option.{SomeIff};
ghost use Rattle.hex.specs.Hex.{decode_of};
ghost use Rattle.cl_types.specs.Name.{is_digit};
ghost use Rattle.cl_types.specs.Fault.{IfRefused};
ghost use Rattle.cl_c32.specs.Codec.{decoded};
ghost use Rattle.cl_sexpr.specs.Leaf.{are_digits, value_of, positive, negative, unsigned, named, leaf_of, own_contract, contract_name, buffer, standard_principal, contract_principal, principal_of, principal_token, in_span, allowed_run, run_token};
ghost use Rattle.cl_sexpr.specs.Lexed.{leaf, leaf_result, token};

use crate::bytes::{begins, first_bad};
use crate::leaf::Leaf;
use crate::lexer::Token;
use crate::rule::{Break, Rule, broken};
use crate::sexpr::Span;
use cl_c32::{ContractName, Principal, decode};
use cl_types::{Fault, Name, is_digit};
use hex::FromHexError;
use std::alloc::Global;

fn are_all_digits(bytes: &[u8]) -> bool
    ensures { result ≡ list_all is_digit bytes.now }
{
    bytes.iter().all(|b| is_digit(*b))
}

/// Whether bytes are digits, one at least.
pub fn are_digits(bytes: &[u8]) -> bool
    ensures { result ≡ are_digits bytes.now }
{
    match bytes.split_first() {
        None => false,
        Some(_) => are_all_digits(bytes),
    }
}

/// The number that digits spell, where it is below 2 ^ 128.
#[tactic(auto, using(crate::proofs::Digits::value_more, crate::proofs::Digits::value_front, crate::proofs::Digits::digit_at))]
pub fn value_of(digits: &[u8]) -> Option<u128>
    requires { IsTrue (list_all is_digit digits.now) }
    ensures { SomeIff result (value_of digits.now < 2 ^ 128) (value_of digits.now) }
{
    let mut value = 0u128;
    for digit in digits {
        value = value
            .checked_mul(10)?
            .checked_add(u128::from(*digit - b'0'))?;
    }
    Some(value)
}

fn positive(digits: &[u8]) -> Result<Leaf, Rule>
    requires { IsTrue (list_all is_digit digits.now) }
    ensures { leaf_result result ≡ positive (value_of digits.now) }
{
    match value_of(digits) {
        Some(value) if value < 1 << 127 => Ok(Leaf::Int(value as i128)),
        _ => Err(Rule::NumberTooWide),
    }
}

fn negative(digits: &[u8]) -> Result<Leaf, Rule>
    requires { IsTrue (list_all is_digit digits.now) }
    ensures { leaf_result result ≡ negative (value_of digits.now) }
{
    match value_of(digits) {
        Some(value) if value <= 1 << 127 => Ok(Leaf::Int(negated(value))),
        _ => Err(Rule::NumberTooWide),
    }
}

fn negated(value: u128) -> i128
    requires { value ≤ 2 ^ 127 }
    ensures { result ≡ neg_ℤ (pos value) }
{
    if value == 1 << 127 {
        i128::MIN
    } else {
        -(value as i128)
    }
}

fn unsigned(digits: &[u8]) -> Result<Leaf, Rule>
    requires { IsTrue (list_all is_digit digits.now) }
    ensures { leaf_result result ≡ unsigned (value_of digits.now) }
{
    match value_of(digits) {
        Some(value) => Ok(Leaf::Uint(value)),
        None => Err(Rule::NumberTooWide),
    }
}

fn named(run: &[u8]) -> Result<Leaf, Rule>
    ensures { leaf_result result ≡ named run.now }
{
    match Name::make(run) {
        Some(name) => Ok(Leaf::Named(name)),
        None => Err(Rule::BadToken),
    }
}

fn contract_name(bytes: &[u8]) -> Option<ContractName>
    ensures { result ≡ contract_name bytes.now }
{
    ContractName::make(bytes)
}

fn own_contract(bytes: &[u8]) -> Result<Leaf, Rule>
    ensures { leaf_result result ≡ own_contract (contract_name bytes.now) }
{
    match contract_name(bytes) {
        Some(name) => Ok(Leaf::Local(name)),
        None => Err(Rule::BadToken),
    }
}

// A whole number or own contract, and otherwise a name.
fn leaf_of(run: &[u8]) -> Result<Leaf, Rule>
    ensures { leaf_result result ≡ leaf_of run.now }
{
    let Some((first, rest)) = run.split_first() else {
        return Err(Rule::BadToken);
    };
    if are_digits(run) {
        positive(run)
    } else if *first == b'-' && are_digits(rest) {
        negative(rest)
    } else if *first == b'u' && are_digits(rest) {
        unsigned(rest)
    } else if *first == b'.' {
        own_contract(rest)
    } else {
        named(run)
    }
}

// The bytes of hexadecimal digits.
fn buffer(digits: &[u8], alloc: Global) -> Result<Leaf, Fault<Rule>>
    ensures found { IfOk result (λ l. buffer (decode_of digits.now) ≡ Ok (leaf l)) }
    ensures broken { IfRefused result (λ rule. buffer (decode_of digits.now) ≡ Err rule) }
{
    match hex::decode(alloc, digits) {
        Ok(bytes) => Ok(Leaf::Buff(bytes)),
        Err(FromHexError::OutOfMemory) => Err(Fault::NoMemory),
        Err(_) => Err(Fault::Refused(Rule::BadToken)),
    }
}

fn dot(text: &[u8]) -> Option<usize>
    ensures value { result ≡ position (λ c. c == 46) text.now }
    ensures within { IfSome result (λ n. n < length text.now) }
{
    text.iter().position(|b| *b == b'.')
}

fn standard_principal(address: &[u8]) -> Option<Principal>
    ensures { result ≡ standard_principal (decoded address.now) }
{
    match decode(address) {
        Ok(address) => Some(Principal {
            address,
            contract: None,
        }),
        Err(_) => None,
    }
}

fn contract_principal(address: &[u8], name: &[u8]) -> Option<Principal>
    ensures { result ≡ contract_principal (decoded address.now) (contract_name name.now) }
{
    match decode(address) {
        Ok(address) => match contract_name(name) {
            Some(name) => Some(Principal {
                address,
                contract: Some(name),
            }),
            None => None,
        },
        Err(_) => None,
    }
}

// An address, or an address and a contract's name with a dot between.
#[tactic(auto, unfolding(crate::specs::Leaf::principal_of))]
fn principal_of(text: &[u8]) -> Option<Principal>
    ensures { result ≡ principal_of text.now }
{
    match dot(text) {
        None => standard_principal(text),
        Some(dot) => contract_principal(&text[..dot], &text[dot + 1..]),
    }
}

fn in_span(leaf: Result<Leaf, Rule>, span: Span) -> Result<Token, Fault<Break>>
    ensures found { IfOk result (λ t. in_span span (leaf_result leaf) ≡ Ok (token t span.start span.end)) }
    ensures broken { IfRefused result (λ r. in_span span (leaf_result leaf) ≡ Err r) }
{
    match leaf {
        Ok(leaf) => Ok(Token::Item(leaf)),
        Err(rule) => Err(Fault::Refused(Break { rule, span })),
    }
}

fn principal_token(text: &[u8], span: Span) -> Token
    ensures { token result span.start span.end ≡ principal_token span (principal_of text.now) }
{
    match principal_of(text) {
        Some(principal) => Token::Item(Leaf::Standing(principal)),
        None => Token::Faulty(Break {
            rule: Rule::BadAddress,
            span,
        }),
    }
}

fn buffer_token(alloc: Global, digits: &[u8], span: Span) -> Result<Token, Fault<Break>>
    ensures found { IfOk result (λ t. in_span span (buffer (decode_of digits.now)) ≡ Ok (token t span.start span.end)) }
    ensures broken { IfRefused result (λ r. in_span span (buffer (decode_of digits.now)) ≡ Err r) }
{
    match buffer(digits, alloc) {
        Ok(leaf) => Ok(Token::Item(leaf)),
        Err(Fault::Refused(rule)) => Err(Fault::Refused(Break { rule, span })),
        Err(Fault::NoMemory) => Err(Fault::NoMemory),
    }
}

// What a run of allowed bytes is.
fn allowed_run(alloc: Global, run: &[u8], span: Span) -> Result<Token, Fault<Break>>
    ensures found { IfOk result (λ t. allowed_run span run.now ≡ Ok (token t span.start span.end)) }
    ensures broken { IfRefused result (λ r. allowed_run span run.now ≡ Err r) }
{
    match run.split_first() {
        None => Err(Fault::Refused(Break {
            rule: Rule::BadToken,
            span,
        })),
        Some((first, rest)) => {
            if *first == b'\'' {
                Ok(principal_token(rest, span))
            } else if *first == b'0' && begins(b'x', rest) {
                buffer_token(alloc, &rest[1..], span)
            } else {
                in_span(leaf_of(run), span)
            }
        }
    }
}

/// The token that a run at a place is, or the rule that it breaks: first of all a byte that may not stand in it.
#[tactic(auto, unfolding(crate::specs::Leaf::run_token))]
pub fn run_token(alloc: Global, run: &[u8], at: u32) -> Result<Token, Fault<Break>>
    requires { at + length run.now < 2 ^ 32 }
    ensures found { IfOk result (λ t. run_token at run.now ≡ Ok (token t at (at + length run.now))) }
    ensures broken { IfRefused result (λ r. run_token at run.now ≡ Err r) }
{
    match first_bad(run) {
        Some(bad) => {
            let start = at + bad as u32;
            Err(Fault::Refused(broken(Rule::BadByte, start, start + 1)))
        }
        None => {
            let end = at + run.len() as u32;
            allowed_run(alloc, run, Span { start: at, end })
        }
    }
}
