//! Calls of functions of other contracts.
ghost use Rattle.std.specs.Prelude.{◌≡◌, length, nat_eq, IfOk, IfSome, IfNone, option_copied};
ghost use Rattle.cl_forms.specs.Shapes.{beside};
ghost use Rattle.cl_code.specs.Expression.{target};
ghost use Rattle.cl_judging.specs.Targets.{another_under, literal_of, open_function};
ghost use Rattle.cl_judging.specs.Calls.{JudgesCallee};
ghost use Rattle.cl_rules.specs.Context.{same_principal};
ghost use Rattle.cl_contracts.specs.Seen.{AreIndexed};

use crate::context::Context;
use cl_c32::{ContractName, Principal};
use cl_code::{Callee, Function, Target};
use cl_contracts::Contract;
use cl_sexpr::{Node, Rule, Sexpr};
use cl_types::{Access, Fault, Name, NoMemory, SizedTy};
use cl_typing::{Checked, Concluded, call_type, conclude, types_of};
use std::alloc::Global;

/// A contract of this name at the address of another.
fn beside_own(own: &Principal, name: ContractName) -> Principal
    ensures { result ≡ beside own.now name }
{
    Principal {
        address: own.address,
        contract: Some(name),
    }
}

/// The literal that an item is of a contract, and the contract's principal.
pub(crate) fn target_in(own: &Principal, e: &Sexpr) -> Option<(Target, Principal)>
    ensures some { IfSome result (λ r. e.now ≡ target r.0) }
    ensures literal { IfSome result (λ r. literal_of own.now e.now ≡ Some r.1) }
    ensures none { IfNone result (literal_of own.now e.now ≡ None) }
{
    match &e.node {
        Node::Standing(p) => match p.contract {
            Some(_) => Some((Target::Standing(*p, e.span), *p)),
            None => None,
        },
        Node::Local(name) => Some((Target::Local(*name, e.span), beside_own(own, *name))),
        _ => None,
    }
}

#[tactic(auto, using(crate::proofs::TargetLaws::equal_so))]
fn is_same(p: &Principal, q: &Principal) -> bool
    ensures { result ≡ same_principal p.now q.now }
{
    p == q
}

/// The contract that is deployed under another principal than the own one.
pub(crate) fn another_at<'a>(ctx: &'a Context, principal: &Principal) -> Option<&'a Contract>
    ensures found { option_copied result
        ≡ another_under ctx.now.principal ctx.now.deployed.now.contracts principal.now }
    ensures indexed { AreIndexed ctx.now.deployed.now }
{
    ctx.deployed.are_known();
    if is_same(principal, &ctx.principal) {
        None
    } else {
        ctx.deployed.find(principal)
    }
}

/// The function of this name that other contracts may call.
pub(crate) fn callable<'a>(contract: &'a Contract, name: &Name) -> Option<&'a Function>
    ensures { option_copied result ≡ open_function name.now contract.now }
{
    let f = contract.function(name)?;
    match f.access {
        Access::Public | Access::ReadOnly => Some(f),
        Access::Private => None,
    }
}

/// Whether there are as many arguments as parameters.
pub(crate) fn has_as_many(args: &[Sexpr], f: &Function) -> bool
    ensures { result ≡ nat_eq (length args.now) (length f.now.params.items) }
{
    args.len() == f.params.len()
}

/// A copy of parameters with their types.
pub fn params_copied(
    alloc: Global,
    params: &[(Name, SizedTy)],
) -> Result<Vec<(Name, SizedTy)>, NoMemory>
    ensures { IfOk result (λ v. v.items ≡ params.now) }
{
    let mut copies = Vec::new(alloc);
    for param in params {
        let ty = param.1.copy(alloc)?;
        copies.push((param.0, ty))?;
    }
    Ok(copies)
}

/// A function of another contract with a text of this length, as its callers see it.
pub(crate) fn callee_of(alloc: Global, f: &Function, source_length: u32) -> Result<Callee, NoMemory>
    ensures access { IfOk result (λ c. c.access ≡ f.now.access) }
    ensures params { IfOk result (λ c. c.params.items ≡ f.now.params.items) }
    ensures returns { IfOk result (λ c. c.returns ≡ f.now.returns) }
    ensures height { IfOk result (λ c. c.height ≡ f.now.height) }
    ensures length { IfOk result (λ c. c.length ≡ source_length) }
{
    let params = params_copied(alloc, &f.params)?;
    let returns = f.returns.copy(alloc)?;
    Ok(Callee {
        access: f.access,
        params,
        returns,
        height: f.height,
        length: source_length,
    })
}

/// The verdict on a call with these arguments.
pub(crate) fn on_callee(
    alloc: Global,
    f: &Function,
    parts: &[Checked],
) -> Result<Concluded, Fault<Rule>>
    ensures { JudgesCallee f.now parts.now result }
{
    let types = types_of(alloc, parts)?;
    let ruled = call_type(alloc, &f.params, &f.returns, &types);
    conclude(alloc, ruled, &None, f.height, parts)
}
