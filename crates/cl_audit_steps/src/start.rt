//! The first step of each node.
ghost use Rattle.cl_meaning.specs.Calls.{call_form};
ghost use Rattle.cl_meaning.specs.Meaning.{head_form, node};
ghost use Rattle.cl_meaning.specs.Scope.{Scope as Around, BoundValues};
ghost use Rattle.cl_meaning.specs.Values.{strict_form};
ghost use Rattle.cl_audit_steps.specs.Lists.{list_form};
ghost use Rattle.cl_audit_steps.specs.Seen.{seen};
ghost use Rattle.cl_audit_steps.specs.Steps.{IsStart, StartsSo};

use crate::across::contract_call_start;
use crate::control::{
    and_start, as_contract_start, asserts_start, begin_start, if_start, let_start, match_start,
    or_start, try_start, unwrap_err_start, unwrap_start, wrong,
};
use crate::data::{
    map_delete_start, map_get_start, map_insert_start, map_set_start, print_start, var_get_start,
    var_set_start,
};
use crate::items::name_and_rest;
use crate::leaves::{
    ascii_start, buff_start, local_start, name_start, principal_start, utf8_start, value_start,
};
use crate::names::Names;
use crate::scope::Scope;
use crate::sequences::{filter_start, fold_start, map_start};
use crate::step::{OnAll, Part, Start};
use crate::tokens::{
    ft_balance_start, ft_supply_start, nft_owner_start, stx_balance_start, token_start,
};
use crate::tuples::{as_max_len_start, get_start, tuple_of_start, tuple_start};
use cl_forms::Head;
use cl_seq::{int_value, uint_value};
use cl_sexpr::{Node, Sexpr};
use cl_shapes::CostName;
use cl_types::{Name, NoMemory};
use cl_values::Native;
use std::alloc::Global;

/// A first step, where memory for it isn't wanting.
type Begun<'a> = Result<Start<'a>, NoMemory>;

/// A native on the values of all arguments.
fn strict_start(native: Native, cost: CostName, items: &[Sexpr]) -> Start
    ensures { (S : Around) →
        StartsSo S (λ take enter s. strict_form native cost take S items.now s) result }
{
    Start {
        charge: None,
        part: Part::All(items, OnAll::Native(native, cost)),
    }
}

/// A native with its arguments. One on values has the cost of its row.
fn head_start<'a>(alloc: Global, head: Head, cost: CostName, items: &'a [Sexpr]) -> Begun<'a>
    ensures { (S : Around) →
        IsStart S (λ take enter s. head_form head cost take enter S items.now s) result }
{
    match head {
        Head::OnValues(native) => Ok(strict_start(native, cost, items)),
        Head::OnToken(native) => Ok(token_start(native, items)),
        Head::TupleOf => tuple_of_start(alloc, items),
        Head::AsMaxLen => Ok(as_max_len_start(items)),
        Head::Get => Ok(get_start(items)),
        Head::VarGet => Ok(var_get_start(items)),
        Head::VarSet => Ok(var_set_start(items)),
        Head::MapGet => Ok(map_get_start(items)),
        Head::MapSet => Ok(map_set_start(items)),
        Head::MapInsert => Ok(map_insert_start(items)),
        Head::MapDelete => Ok(map_delete_start(items)),
        Head::FtBalance => Ok(ft_balance_start(items)),
        Head::FtSupply => Ok(ft_supply_start(items)),
        Head::StxBalance => Ok(stx_balance_start(items)),
        Head::NftOwner => Ok(nft_owner_start(items)),
        Head::Print => Ok(print_start(items)),
        Head::If => if_start(items),
        Head::Let => let_start(items),
        Head::Begin => begin_start(items),
        Head::And => and_start(items),
        Head::Or => or_start(items),
        Head::Asserts => asserts_start(items),
        Head::Unwrap => unwrap_start(items),
        Head::UnwrapErr => unwrap_err_start(items),
        Head::Try => try_start(items),
        Head::Match => match_start(items),
        Head::AsContract => as_contract_start(items),
        Head::Map => Ok(map_start(items)),
        Head::Filter => Ok(filter_start(items)),
        Head::Fold => Ok(fold_start(items)),
        Head::ContractCall => Ok(contract_call_start(items)),
    }
}

/// A call of a function of the contract.
fn call_start<'a>(name: &'a Name, items: &'a [Sexpr]) -> Start<'a>
    ensures { (S : Around) →
        StartsSo S (λ take enter s. call_form name.now take enter S items.now s) result }
{
    Start {
        charge: None,
        part: Part::All(items, OnAll::Call(name)),
    }
}

/// A list: a native with its arguments, and else a call.
fn list_start<'a>(scope: &Scope, items: &'a [Sexpr]) -> Result<Start<'a>, NoMemory>
    ensures { (outer : BoundValues) → IsStart (seen scope.now outer)
        (λ take enter s. list_form take enter (seen scope.now outer) items.now s) result }
{
    let Some((name, rest)) = name_and_rest(items) else {
        return Ok(wrong());
    };
    match scope.native(name) {
        Some(row) => head_start(scope.alloc, row.head, row.cost, rest),
        None => Ok(call_start(name, rest)),
    }
}

/// The first step of a node.
pub fn first_step<'a>(scope: &Scope, names: &Names, item: &'a Sexpr) -> Result<Start<'a>, NoMemory>
    ensures { IsStart (seen scope.now names.now.values)
        (λ take enter s. node take enter (seen scope.now names.now.values) item.now s) result }
{
    match &item.node {
        Node::Atom(name) => name_start(scope, names, name),
        Node::Int(number) => Ok(value_start(CostName::Literal, int_value(*number))),
        Node::Uint(number) => Ok(value_start(CostName::Literal, uint_value(*number))),
        Node::Buff(bytes) => buff_start(scope.alloc, bytes),
        Node::Ascii(text) => ascii_start(scope.alloc, text),
        Node::Utf8(text) => utf8_start(scope.alloc, text),
        Node::Standing(principal) => Ok(principal_start(*principal)),
        Node::Local(name) => Ok(local_start(scope, *name)),
        Node::List(items) => list_start(scope, items),
        Node::Tuple(pairs) => tuple_start(scope.alloc, pairs),
    }
}
