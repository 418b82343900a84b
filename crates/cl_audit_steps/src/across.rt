//! `contract-call?`
ghost use Rattle.cl_meaning.specs.Calls.{contract_call_form, enter_there};
ghost use Rattle.cl_meaning.specs.Scope.{Scope as Around, BoundValues};
ghost use Rattle.cl_audit_steps.specs.Seen.{contract_seen, seen};
ghost use Rattle.cl_audit_steps.specs.Steps.{IsEnd, StartsSo, across};

use crate::charge::Charge;
use crate::control::wrong;
use crate::items::call_parts;
use crate::scope::{Contract, Scope};
use crate::step::{End, Last, OnAll, Part, Start};
use crate::values::{charged_end, uncharged_end};
use cl_sexpr::Sexpr;
use cl_shapes::CostName;
use cl_types::{Name, NoMemory};
use cl_values::Val;

/// `contract-call?`
pub(crate) fn contract_call_start(items: &[Sexpr]) -> Start
    ensures { (S : Around) →
        StartsSo S (λ take enter s. contract_call_form take enter S items.now s) result }
{
    match call_parts(items) {
        Some((contract, name, rest)) => Start {
            charge: None,
            part: Part::All(rest, OnAll::Across(contract, name)),
        },
        None => wrong(),
    }
}

/// A function of another contract on values, charged by the length of that contract's text.
fn on_contract<'a>(
    contract: &'a Contract,
    name: &'a Name,
    values: Vec<Val>,
) -> Result<End<'a>, NoMemory>
    ensures { (S : Around) → IsEnd S
        (λ take enter s. enter_there enter S name.now values.items (contract_seen contract.now) s)
        result }
{
    let charge = Charge::at(CostName::ContractCall, u64::from(contract.source_length))?;
    match contract.callable(name) {
        Some(function) => {
            let last = Last::EnterIn(&contract.principal, function, values);
            Ok(charged_end(charge, last))
        }
        None => Ok(charged_end(charge, Last::Wrong)),
    }
}

/// A function of the contract that an item names, on values.
pub(crate) fn on_across<'a>(
    scope: &Scope<'a>,
    item: &Sexpr,
    name: &'a Name,
    values: Vec<Val>,
) -> Result<End<'a>, NoMemory>
    ensures { (outer : BoundValues) → IsEnd (seen scope.now outer)
        (λ take enter s. across enter (seen scope.now outer) item.now name.now values.items s)
        result }
{
    match scope.other_named(item) {
        Some(contract) => on_contract(contract, name, values),
        None => Ok(uncharged_end(Last::Wrong)),
    }
}
