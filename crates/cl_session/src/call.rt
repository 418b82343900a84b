//! A call in parts.
ghost use Rattle.std.specs.Prelude.{◌≡◌, ◌∷◌, [], None, Some, IfOk, MatchOption, map};
ghost use Rattle.std.specs.Option.{option_map};
ghost use Rattle.cl_types.specs.Fault.{IfRefused};
ghost use Rattle.cl_engine.specs.Steps.{IsCall};
ghost use Rattle.cl_request.specs.Request.{text_of};
ghost use Rattle.cl_session.specs.Calls.{call_by, call_in, contract_in, limit_of, principal_in, sender_in, value_in, values_in};

use cl_c32::{Address, Principal};
use cl_codec::decode;
use cl_post::Mode;
use cl_request::{NoRequest, text};
use cl_tx::{Common, Conditions, Entry, Row};
use cl_types::Fault;
use cl_values::{Kind, Val};
use std::alloc::Global;

/// What comes of a part: itself, or that it is none.
type Part<T> = Result<T, Fault<NoRequest>>;

/// The value that bytes spell.
fn value_in(alloc: Global, bytes: &[u8]) -> Part<Val>
    ensures found { IfOk result (λ v. value_in bytes.now ≡ Some v) }
    ensures broken { IfRefused result (λ _. value_in bytes.now ≡ None) }
{
    match decode(alloc, bytes) {
        Ok(value) => Ok(value),
        Err(Fault::Refused(_)) => Err(Fault::Refused(NoRequest)),
        Err(Fault::NoMemory) => Err(Fault::NoMemory),
    }
}

/// The principal that bytes spell.
fn principal_in(alloc: Global, bytes: &[u8]) -> Part<Principal>
    ensures found { IfOk result (λ p. principal_in bytes.now ≡ Some p) }
    ensures broken { IfRefused result (λ _. principal_in bytes.now ≡ None) }
{
    let value = value_in(alloc, bytes)?;
    match &value.value().kind {
        Kind::Principal(principal) => Ok(*principal),
        _ => Err(Fault::Refused(NoRequest)),
    }
}

/// The address that bytes spell.
fn sender_in(alloc: Global, bytes: &[u8]) -> Part<Address>
    ensures found { IfOk result (λ a. sender_in bytes.now ≡ Some a) }
    ensures broken { IfRefused result (λ _. sender_in bytes.now ≡ None) }
{
    let principal = principal_in(alloc, bytes)?;
    match principal.contract {
        None => Ok(principal.address),
        Some(_) => Err(Fault::Refused(NoRequest)),
    }
}

/// The contract that bytes spell: a principal in its wire form (SIP-005).
pub fn contract_in(alloc: Global, bytes: &[u8]) -> Part<Principal>
    ensures found { IfOk result (λ p. contract_in bytes.now ≡ Some p) }
    ensures broken { IfRefused result (λ _. contract_in bytes.now ≡ None) }
{
    let principal = principal_in(alloc, bytes)?;
    match principal.contract {
        None => Err(Fault::Refused(NoRequest)),
        Some(_) => Ok(principal),
    }
}

/// The values that pieces spell.
fn values_in(alloc: Global, pieces: &[&[u8]]) -> Part<Vec<Val>>
    ensures found { IfOk result (λ v. values_in (map (λ p. p.now) pieces.now) ≡ Some v.items) }
    ensures broken { IfRefused result (λ _. values_in (map (λ p. p.now) pieces.now) ≡ None) }
{
    let mut values = Vec::with_capacity(alloc, pieces.len())?;
    for piece in pieces {
        values.push(value_in(alloc, piece)?)?;
    }
    Ok(values)
}

/// The first piece, and those behind it.
fn first_of<'a>(pieces: &'a [&'a [u8]]) -> Option<(&'a [u8], &'a [&'a [u8]])>
    ensures { MatchOption result (map (λ p. p.now) pieces.now ≡ [])
        (λ p. map (λ q. q.now) pieces.now ≡ p.0.now ∷ map (λ q. q.now) p.1.now) }
{
    match pieces {
        [first, rest @ ..] => Some((first, rest)),
        [] => None,
    }
}

/// The limits of a call: five, or none.
fn limit_of(limits: &[u64]) -> Option<[u64; 5]>
    ensures { result ≡ limit_of limits.now }
{
    match limits {
        [] => Some([u64::MAX; 5]),
        [a, b, c, d, e] => Some([*a, *b, *c, *d, *e]),
        _ => None,
    }
}

/// The call of these parts.
fn call_by(
    alloc: Global,
    limit: [u64; 5],
    sender: &[u8],
    contract: &[u8],
    function: &[u8],
    args: &[&[u8]],
) -> Part<Entry>
    ensures found { IfOk result (λ e. call_by (sender_in sender.now) (contract_in contract.now)
        (text_of function.now) (values_in (map (λ p. p.now) args.now)) limit ≡ Some e) }
    ensures broken { IfRefused result (λ _. call_by (sender_in sender.now)
        (contract_in contract.now) (text_of function.now)
        (values_in (map (λ p. p.now) args.now)) limit ≡ None) }
    ensures call { IfOk result (λ e. IsCall e) }
{
    let sender = sender_in(alloc, sender)?;
    let contract = contract_in(alloc, contract)?;
    let function = text(alloc, function)?;
    let args = values_in(alloc, args)?;
    Ok(Entry::Call {
        common: Common {
            sender,
            limit,
            mode: Mode::Allow,
            conditions: Conditions::none(alloc),
        },
        contract,
        function: Row::new(function.into_bytes()),
        args: Row::new(args),
    })
}

/// The call that pieces spell: the sender, a standard principal; the contract; the name of the
/// function, in UTF-8; and its arguments. Principals and arguments are values in their wire form
/// (SIP-005). The limits are five, in the order of the dimensions, or none: then each is 2^64-1.
/// The call has no post-conditions.
///
/// # Errors
///
/// `NoRequest` exactly where there are fewer than three pieces, a piece isn't what it is to be, or
/// there is another number of limits.
#[tactic(auto, using(crate::proofs::Parts::no_first, crate::proofs::Parts::no_second, crate::proofs::Parts::no_third, crate::proofs::Parts::all_three))]
pub fn call_of(alloc: Global, limits: &[u64], pieces: &[&[u8]]) -> Part<Entry>
    ensures found { IfOk result
        (λ e. call_in limits.now (map (λ p. p.now) pieces.now) ≡ Some e) }
    ensures broken { IfRefused result
        (λ _. call_in limits.now (map (λ p. p.now) pieces.now) ≡ None) }
    ensures call { IfOk result (λ e. IsCall e) }
{
    let Some(limit) = limit_of(limits) else {
        return Err(Fault::Refused(NoRequest));
    };
    let Some((sender, rest)) = first_of(pieces) else {
        return Err(Fault::Refused(NoRequest));
    };
    let Some((contract, rest)) = first_of(rest) else {
        return Err(Fault::Refused(NoRequest));
    };
    let Some((function, args)) = first_of(rest) else {
        return Err(Fault::Refused(NoRequest));
    };
    call_by(alloc, limit, sender, contract, function, args)
}
