//! What a node calls by itself.
ghost use Rattle.std.specs.Prelude.{◌≡◌, List};
ghost use Rattle.cl_forms.specs.HeadNames.{name_of};
ghost use Rattle.cl_forms.specs.Names.{is_one_of};
ghost use Rattle.cl_forms.specs.Writes.{writing_natives};
ghost use Rattle.cl_code.specs.Expression.{target_leaf};
ghost use Rattle.cl_code.specs.OpNames.{name_head, parts_head};
ghost use Rattle.cl_rules.specs.Acceptance.{calls_public, is_public_in};
ghost use Rattle.cl_rules.specs.Context.{Known, another_at, same_principal};
ghost use Rattle.cl_contracts.specs.Seen.{contract_under};
ghost use Rattle.cl_contracts.specs.Standings.{Knows};
ghost use Rattle.cl_readonly.specs.Publics.{public_in, public_under};
ghost use Rattle.cl_readonly.specs.Writing.{applied_writes, node_writes};

use cl_c32::Principal;
use cl_code::{Applied, NameNative, Op, PartsNative, Target};
use cl_contracts::{Contract, Deployed, contract_of_literal, what_callers_know};
use cl_keyed::HashKey;
use cl_types::{Access, Name};
use indexmap::IndexSet;

fn parts_native_writes(native: PartsNative) -> bool
    ensures { result ≡ is_one_of writing_natives (name_of (parts_head native)) }
{
    match native {
        PartsNative::SendStx | PartsNative::BurnStx => true,
        _ => false,
    }
}

fn name_native_writes(native: NameNative) -> bool
    ensures { result ≡ is_one_of writing_natives (name_of (name_head native)) }
{
    match native {
        NameNative::VarSet
        | NameNative::MapSet
        | NameNative::MapInsert
        | NameNative::MapDelete
        | NameNative::MintFt
        | NameNative::BurnFt
        | NameNative::SendFt
        | NameNative::MintNft
        | NameNative::BurnNft
        | NameNative::SendNft => true,
        _ => false,
    }
}

/// Whether a function is among those that write.
pub(crate) fn is_among(writing: &IndexSet<Name, HashKey>, name: &Name) -> bool
    ensures { result ≡ is_one_of writing.now.keys name.now }
{
    writing.contains(name)
}

fn applied_writes(writing: &IndexSet<Name, HashKey>, applied: &Applied) -> bool
    ensures { result ≡ applied_writes writing.now.keys applied.now }
{
    match applied {
        Applied::Function(function) => is_among(writing, &function.name),
        _ => false,
    }
}

#[tactic(auto, using(cl_c32::proofs::Principals::same_in_code))]
fn is_same(p: &Principal, q: &Principal) -> bool
    ensures { result ≡ same_principal p.now q.now }
{
    p == q
}

fn has_public(contract: &Contract, name: &Name) -> bool
    ensures { result ≡ public_in name.now contract.now.checked }
{
    match contract.function(name) {
        Some(function) => match function.access {
            Access::Public => true,
            _ => false,
        },
        None => false,
    }
}

fn is_public_there(deployed: &Deployed, principal: &Principal, name: &Name) -> bool
    ensures { result
        ≡ public_under name.now (contract_under principal.now deployed.now.contracts) }
{
    match deployed.find(principal) {
        Some(contract) => has_public(contract, name),
        None => false,
    }
}

fn is_public_at(deployed: &Deployed, own: &Principal, principal: &Principal, name: &Name) -> bool
    ensures { (known : List Known) → Knows deployed.now known →
        result ≡ is_public_in (another_at own.now known principal.now) name.now }
{
    what_callers_know();
    deployed.are_known();
    if is_same(principal, own) {
        return false;
    }
    is_public_there(deployed, principal, name)
}

/// Whether a literal and a name stand for a public function of another contract.
fn is_public(deployed: &Deployed, own: &Principal, target: &Target, name: &Name) -> bool
    ensures { (known : List Known) → Knows deployed.now known →
        result ≡ calls_public known own.now (target_leaf target.now) name.now }
{
    match contract_of_literal(own, target) {
        Some(principal) => is_public_at(deployed, own, &principal, name),
        None => false,
    }
}

/// Whether what a node calls by itself writes.
pub(crate) fn node_writes(
    deployed: &Deployed,
    own: &Principal,
    writing: &IndexSet<Name, HashKey>,
    op: &Op,
) -> bool
    ensures { (known : List Known) → Knows deployed.now known →
        result ≡ node_writes writing.now.keys (calls_public known own.now) op.now }
{
    match op {
        Op::OnParts { native, .. } => parts_native_writes(*native),
        Op::OnName { native, .. } => name_native_writes(*native),
        Op::Iterate { applied, .. } => applied_writes(writing, applied),
        Op::Call(function) => is_among(writing, &function.name),
        Op::ContractCall {
            target,
            function,
            ..
        } => is_public(deployed, own, target, &function.name),
        _ => false,
    }
}
