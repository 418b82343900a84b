//! The entries of a workload.
ghost use Rattle.std.specs.Prelude.{◌≡◌, codes, IfOk};
ghost use Rattle.cl_values.specs.Tree.{PrincipalV};
ghost use Rattle.cl_meaning.specs.Samples.{P0, P1, of_P0};
ghost use Rattle.cl_tx.specs.StepRows.{by};
ghost use Rattle.cl_workload.specs.Workload.{deployment, call_of, mint, transfer, call_for};

use crate::TOKEN;
use cl_c32::{Address, ContractName, Principal};
use cl_forms::Version;
use cl_post::Mode;
use cl_seq::{none, uint_value};
use cl_tx::{Common, Conditions, Entry, Row};
use cl_types::NoMemory;
use cl_values::{Kind, Val, Value};
use std::alloc::{AllocError, Global};

/// Who deploys the token and mints: SP000000000000000000002Q6VF78.
fn minter() -> Principal
    ensures { result ≡ P0 }
{
    Principal {
        address: Address::new(22, &[0; 20]),
        contract: None,
    }
}

/// For whom coins are minted: SP2J6ZY48GV1EZ5V2V5RB9MP66SW86PYKKNRV9EJ7.
pub fn receiver() -> Principal
    ensures { result ≡ P1 }
{
    let hash = [
        164, 111, 248, 136, 134, 194, 239, 151, 98, 217, 112, 180, 210, 198, 54, 120, 131, 91, 211,
        157,
    ];
    Principal {
        address: Address::new(22, &hash),
        contract: None,
    }
}

fn principal_value(principal: Principal) -> Val
    ensures { result ≡ PrincipalV principal }
{
    match Val::make(Value {
        kind: Kind::Principal(principal),
    }) {
        Ok(value) => value,
        Err(_) => unreachable!(),
    }
}

fn token_name() -> ContractName
    ensures { result ≡ codes "token" }
{
    ContractName::make(b"token").unwrap()
}

/// The contract of the token.
pub fn token() -> Principal
    ensures { result ≡ of_P0 (codes "token") }
{
    Principal {
        address: minter().address,
        contract: Some(token_name()),
    }
}

/// Sent by a principal, with no stated limit and no condition.
fn sent_by(alloc: Global, sender: &Principal) -> Common
    ensures { result ≡ by sender.now }
{
    Common {
        sender: sender.address,
        limit: [u64::MAX; 5],
        mode: Mode::Allow,
        conditions: Conditions::none(alloc),
    }
}

/// The deployment of the token.
pub fn deployment(alloc: Global) -> Result<Entry, AllocError>
    ensures { IfOk result (λ entry. entry ≡ deployment) }
{
    let source = Vec::from_slice(alloc, TOKEN.as_bytes())?;
    Ok(Entry::Deploy {
        common: sent_by(alloc, &minter()),
        name: token_name(),
        source: Row::new(source),
        version: Version::One,
    })
}

/// The call of a function of the token.
fn call_of(
    alloc: Global,
    sender: &Principal,
    function: &str,
    args: Vec<Val>,
) -> Result<Entry, AllocError>
    ensures { IfOk result (λ entry. entry ≡ call_of sender.now function.now args.items) }
{
    let function = Vec::from_slice(alloc, function.as_bytes())?;
    Ok(Entry::Call {
        common: sent_by(alloc, sender),
        contract: token(),
        function: Row::new(function),
        args: Row::new(args),
    })
}

/// So many coins are minted for the receiver.
fn mint(alloc: Global, amount: u128) -> Result<Entry, AllocError>
    ensures { IfOk result (λ entry. entry ≡ mint amount) }
{
    let mut args = Vec::new(alloc);
    args.push(uint_value(amount))?;
    args.push(principal_value(receiver()))?;
    call_of(alloc, &minter(), "mint", args)
}

/// The receiver sends so many coins back.
fn transfer(alloc: Global, amount: u128) -> Result<Entry, AllocError>
    ensures { IfOk result (λ entry. entry ≡ transfer amount) }
{
    let mut args = Vec::new(alloc);
    args.push(uint_value(amount))?;
    args.push(principal_value(receiver()))?;
    args.push(principal_value(minter()))?;
    args.push(none())?;
    call_of(alloc, &receiver(), "transfer", args)
}

/// The call for a drawn number.
pub(crate) fn call_for(alloc: Global, draw: u64) -> Result<Entry, NoMemory>
    ensures { IfOk result (λ entry. entry ≡ call_for draw) }
{
    let amount = u128::from(draw % 1000);
    if draw % 4 == 0 {
        return Ok(mint(alloc, amount)?);
    }
    Ok(transfer(alloc, amount)?)
}
