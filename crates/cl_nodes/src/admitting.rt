//! Sources that are accepted.
ghost use Rattle.std.specs.Prelude.{IfOk};
ghost use Rattle.cl_types.specs.Fault.{IfRefused};
ghost use Rattle.cl_nodes.specs.Bounded.{IsWhole, entries_of};
ghost use Rattle.cl_nodes.specs.Asked.{principal_of, text_in};
ghost use Rattle.cl_nodes.specs.Accepting.{IsAccepted, IsChecked, IsDeployRefusal, IsNew, IsRefusalOf};

use crate::asked::Deployment;
use crate::contracts::Contracts;
use crate::names::principal_of;
use crate::told::{Told, told_of};
use cl_bound::ContractBounds;
use cl_check::check;
use cl_contracts::{Checked, what_callers_know};
use cl_sexpr::Refusal;
use cl_tx::{EntryRefusal, SourceRefusal};
use cl_types::Fault;
use std::alloc::Global;

/// A contract whose source is accepted: with its bounds and the types that its functions return, as
/// the result of its deployment has them, and with the bounds as they are kept.
#[derive(Drop)]
pub struct Accepted {
    pub checked: Checked,
    pub told: Told,
    pub bounds: ContractBounds,
}

/// The refusal of an entry whose source breaks a rule.
fn refusal_of(fault: Fault<Refusal>) -> Fault<EntryRefusal>
    ensures { IsRefusalOf fault result }
{
    match fault {
        Fault::Refused(refusal) => Fault::Refused(EntryRefusal::ContractRefused(SourceRefusal::new(
            refusal,
        ))),
        Fault::NoMemory => Fault::NoMemory,
    }
}

/// A checked contract with its bounds, or the refusal for the first that is above the limit.
fn price(
    alloc: Global,
    contracts: &Contracts,
    deployment: &Deployment,
    checked: Checked,
) -> Result<Accepted, Fault<EntryRefusal>>
    requires whole { IsWhole contracts.now }
    requires new { IsNew (entries_of contracts.now) (principal_of deployment.now) }
    requires checked { IsChecked (entries_of contracts.now) (principal_of deployment.now)
        (text_in deployment.now) checked }
    ensures accepted { IfOk result (λ a. IsAccepted deployment.now contracts.now a) }
    ensures refused { IfRefused result (λ r. IsDeployRefusal deployment.now contracts.now r) }
{
    what_callers_know();
    match contracts.price(alloc, &checked) {
        Ok(priced) => {
            let own = checked.parts();
            let told = told_of(alloc, &own.definitions, priced.bounds)?;
            Ok(Accepted {
                checked,
                told,
                bounds: priced.contract,
            })
        }
        Err(fault) => Err(refusal_of(fault)),
    }
}

/// The contract that a deployment asks for, or why it isn't accepted.
pub fn accept(
    alloc: Global,
    contracts: &Contracts,
    deployment: &Deployment,
) -> Result<Accepted, Fault<EntryRefusal>>
    requires { IsWhole contracts.now }
    ensures accepted { IfOk result (λ a. IsAccepted deployment.now contracts.now a) }
    ensures refused { IfRefused result (λ r. IsDeployRefusal deployment.now contracts.now r) }
{
    what_callers_know();
    let principal = principal_of(deployment.common, deployment.name);
    let deployed = &contracts.deployed;
    deployed.are_known();
    if deployed.find(&principal).is_some() {
        return Err(Fault::Refused(EntryRefusal::NameTaken));
    }
    match check(
        alloc,
        deployed,
        &principal,
        deployment.source,
        deployment.version,
    ) {
        Ok(checked) => {
            checked.is_well_formed();
            price(alloc, contracts, deployment, checked)
        }
        Err(fault) => Err(refusal_of(fault)),
    }
}
