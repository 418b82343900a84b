//! What the values of members say, by what they spell.
ghost use Rattle.std.specs.Prelude.{◌≡◌, ◌<◌, ◌==◌, length, IfSome, position};
ghost use Rattle.serde_json.specs.View.{view, items_view};
ghost use Rattle.cl_sexpr.specs.Leaf.{contract_name, principal_of};
ghost use Rattle.cl_c32.specs.Codec.{decoded};
ghost use Rattle.cl_sexpr.specs.Leaf.{contract_principal, standard_principal};
ghost use Rattle.cl_file.specs.Kinds.{mode_text, mode, clarity, code_text, code, five_in, five, address, principal, short_name, deployed_name, only_contract, contract, token_name, token};

use crate::addresses::Addresses;
use crate::kind::Contract;
use cl_c32::{Address, ContractName, Principal};
use cl_forms::Version;
use cl_post::{Code5, Mode};
use cl_types::Name;
use serde_json::Value;

fn mode_text(text: &str) -> Option<Mode>
    ensures { result ≡ mode_text text.now }
{
    match text {
        "allow" => Some(Mode::Allow),
        "deny" => Some(Mode::Deny),
        _ => None,
    }
}

pub(crate) fn mode(value: &Value) -> Option<Mode>
    ensures { result ≡ mode (view value.now) }
{
    match value.as_str() {
        Some(text) => mode_text(text),
        None => None,
    }
}

/// A version by its number.
pub(crate) fn version(value: &Value) -> Option<Version>
    ensures { result ≡ clarity (view value.now) }
{
    match value.as_u64()? {
        1 => Some(Version::One),
        2 => Some(Version::Two),
        _ => None,
    }
}

fn code_text(text: &str) -> Option<Code5>
    ensures { result ≡ code_text text.now }
{
    match text {
        "eq" => Some(Code5::Eq),
        "gt" => Some(Code5::Gt),
        "ge" => Some(Code5::Ge),
        "lt" => Some(Code5::Lt),
        "le" => Some(Code5::Le),
        _ => None,
    }
}

pub(crate) fn code(value: &Value) -> Option<Code5>
    ensures { result ≡ code (view value.now) }
{
    match value.as_str() {
        Some(text) => code_text(text),
        None => None,
    }
}

fn five_in(parts: &[Value]) -> Option<[u64; 5]>
    ensures { result ≡ five_in (items_view parts.now) }
{
    match parts {
        [a, b, c, d, e] => Some([
            a.as_u64()?,
            b.as_u64()?,
            c.as_u64()?,
            d.as_u64()?,
            e.as_u64()?,
        ]),
        _ => None,
    }
}

pub(crate) fn five(value: &Value) -> Option<[u64; 5]>
    ensures { result ≡ five (view value.now) }
{
    match value.as_array() {
        Some(parts) => five_in(parts.as_slice()),
        None => None,
    }
}

pub(crate) fn address(known: &mut Addresses, value: &Value) -> Option<Address>
    ensures { result ≡ address (view value.now) }
{
    match value.as_str() {
        Some(text) => known.decode(text.as_bytes()).ok(),
        None => None,
    }
}

fn dot(text: &[u8]) -> Option<usize>
    ensures value { result ≡ position (λ c. c == 46) text.now }
    ensures within { IfSome result (λ n. n < length text.now) }
{
    text.iter().position(|byte| *byte == b'.')
}

fn contract_name(bytes: &[u8]) -> Option<ContractName>
    ensures { result ≡ contract_name bytes.now }
{
    ContractName::make(bytes)
}

fn standard_principal(known: &mut Addresses, text: &[u8]) -> Option<Principal>
    ensures { result ≡ standard_principal (decoded text.now) }
{
    match known.decode(text) {
        Ok(address) => Some(Principal {
            address,
            contract: None,
        }),
        Err(_) => None,
    }
}

fn contract_principal(known: &mut Addresses, address: &[u8], name: &[u8]) -> Option<Principal>
    ensures { result ≡ contract_principal (decoded address.now) (contract_name name.now) }
{
    match known.decode(address) {
        Ok(address) => match contract_name(name) {
            Some(name) => Some(Principal {
                address,
                contract: Some(name),
            }),
            None => None,
        },
        Err(_) => None,
    }
}

#[tactic(auto, unfolding(cl_sexpr::specs::Leaf::principal_of))]
fn principal_of(known: &mut Addresses, text: &[u8]) -> Option<Principal>
    ensures { result ≡ principal_of text.now }
{
    match dot(text) {
        Some(dot) => contract_principal(known, &text[..dot], &text[dot + 1..]),
        None => standard_principal(known, text),
    }
}

pub(crate) fn principal(known: &mut Addresses, value: &Value) -> Option<Principal>
    ensures { result ≡ principal (view value.now) }
{
    match value.as_str() {
        Some(text) => principal_of(known, text.as_bytes()),
        None => None,
    }
}

fn short_name(text: &[u8]) -> Option<ContractName>
    ensures { result ≡ short_name text.now }
{
    if text.len() <= 40 {
        contract_name(text)
    } else {
        None
    }
}

pub(crate) fn deployed_name(value: &Value) -> Option<ContractName>
    ensures { result ≡ deployed_name (view value.now) }
{
    match value.as_str() {
        Some(text) => short_name(text.as_bytes()),
        None => None,
    }
}

fn only_contract(principal: Principal) -> Option<Contract>
    ensures { result ≡ only_contract principal }
{
    match principal.contract {
        Some(_) => Some(Contract { principal }),
        None => None,
    }
}

pub(crate) fn contract(known: &mut Addresses, value: &Value) -> Option<Contract>
    ensures { result ≡ contract (view value.now) }
{
    match principal(known, value) {
        Some(principal) => only_contract(principal),
        None => None,
    }
}

fn token_name(text: &[u8]) -> Option<Name>
    ensures { result ≡ token_name text.now }
{
    Name::make(text)
}

pub(crate) fn token(value: &Value) -> Option<Name>
    ensures { result ≡ token (view value.now) }
{
    match value.as_str() {
        Some(text) => token_name(text.as_bytes()),
        None => None,
    }
}
