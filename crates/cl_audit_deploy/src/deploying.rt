//! The deployment of a contract.
ghost use Rattle.std.specs.Prelude.{◌≡◌, ◌≢◌, ◌<◌, [], false, length, slice_get, Ok, Err, Some, OnOk};
ghost use Rattle.cl_forms.specs.Order.{IsGoodOrder, ordered};
ghost use Rattle.cl_newness.specs.Newness.{AreNew, DefineOnce, HasNoTokens};
ghost use Rattle.cl_audit_steps.specs.Seen.{contract_seen};
ghost use Rattle.cl_audit_walk.specs.Evaluates.{Evaluates};
ghost use Rattle.cl_audit.specs.Agrees.{IsAgreement};
ghost use Rattle.cl_audit_deploy.specs.Deploying.{Audits, all_by, all_charged, opened, trace_of_deployment, with_defined, without_values};

use crate::defining::define;
use crate::paying::pay;
use cl_audit::{Agreement, agreement_of};
use cl_audit_steps::{Charge, Contract, Scope};
use cl_audit_walk::Run;
use cl_forms::Form;
use cl_shapes::CostName;
use cl_types::{Name, NoMemory};
use cl_values::Val;
use cl_walks::Stop;

/// Puts a constant behind the others of the contract, if there is one.
fn add(contract: &mut Contract, constant: Option<(Name, Val)>) -> Result<(), NoMemory>
    ensures added { OnOk result (contract_seen contract.new ≡ with_defined contract.old constant) }
    ensures same { without_values (contract_seen contract.new)
        ≡ without_values (contract_seen contract.old) }
{
    if let Some((name, value)) = constant {
        contract.constants.push(name, value)?;
    }
    Ok(())
}

/// The form at a place of the text.
fn form_at(contract: &Contract, place: usize) -> &Form
    requires { place < length contract.now.forms }
    ensures { slice_get contract.now.forms place ≡ Some result.now }
{
    contract.forms.at(place)
}

/// The forms at these places, one after another.
fn define_all(
    run: &mut Run,
    scope: &Scope,
    contract: &mut Contract,
    order: &[usize],
) -> Result<(), Stop>
    requires order { IsGoodOrder contract.old.forms order.now }
    requires once { DefineOnce contract.old.forms }
    requires new { AreNew contract.old.principal contract.old.forms order.now 0
        contract.old.constants run.old.world.stack.top }
    ensures evaluates { Evaluates scope.now (all_by scope.now order.now contract.old)
        run.old (opened result contract.new) run.new }
    ensures same { without_values (contract_seen contract.new)
        ≡ without_values (contract_seen contract.old) }
{
    for place in order {
        let form = form_at(contract, *place);
        let constant = define(run, scope, contract, form)?;
        add(contract, constant)?;
    }
    Ok(())
}

/// Charges the text, and defines the forms.
fn define_charged(
    run: &mut Run,
    scope: &Scope,
    contract: &mut Contract,
    order: &[usize],
) -> Result<(), Stop>
    requires order { IsGoodOrder contract.old.forms order.now }
    requires once { DefineOnce contract.old.forms }
    requires new { AreNew contract.old.principal contract.old.forms order.now 0
        contract.old.constants run.old.world.stack.top }
    ensures evaluates { Evaluates scope.now (all_charged scope.now order.now contract.old)
        run.old (opened result contract.new) run.new }
    ensures same { without_values (contract_seen contract.new)
        ≡ without_values (contract_seen contract.old) }
{
    let length = u64::from(contract.source_length);
    pay(run, scope, Charge::at(CostName::Deploy, length)?)?;
    define_all(run, scope, contract, order)
}

/// The deployment of a contract whose constants have no values yet, after the deployed ones, with
/// its forms at the places of their order: it ends as the limit leaves its meaning, and the claims
/// were compared with its trace under the limit, one after another. After it the contract has the
/// values of its constants. No name is defined twice, and no token of the contract's is there yet.
/// After want of memory nothing is known but that no state below the top has changed.
pub fn audited_deployment(
    run: &mut Run,
    scope: &Scope,
    contract: &mut Contract,
    order: &[usize],
) -> Result<(), Stop>
    requires ordered { ordered contract.old.forms ≡ Ok order.now }
    requires good { IsGoodOrder contract.old.forms order.now }
    requires once { DefineOnce contract.old.forms }
    requires constants { contract.old.constants ≡ [] }
    requires tokens { HasNoTokens contract.old.principal run.old.world.stack.top }
    ensures audits { Audits scope.now contract.old run.old (opened result contract.new) run.new }
    ensures same { without_values (contract_seen contract.new)
        ≡ without_values (contract_seen contract.old) }
{
    define_charged(run, scope, contract, order)
}

/// What the audit of a deployment found.
#[derive(Drop)]
pub struct DeploymentAudit {
    /// Whether the deployment is done, or why not.
    pub end: Result<(), Stop>,
    /// Whether the claims are those of its trace.
    pub agreement: Agreement,
}

/// Audits a deployment against the claims of the run, from the first on. They agree exactly where
/// they are the trace of its meaning under the limit; after want of memory nothing is said of them.
pub fn audit_deployment(
    run: &mut Run,
    scope: &Scope,
    contract: &mut Contract,
    order: &[usize],
) -> DeploymentAudit
    requires first { run.old.cursor.at ≡ 0 }
    requires agreed { run.old.cursor.differs ≡ false }
    requires ordered { ordered contract.old.forms ≡ Ok order.now }
    requires good { IsGoodOrder contract.old.forms order.now }
    requires once { DefineOnce contract.old.forms }
    requires constants { contract.old.constants ≡ [] }
    requires tokens { HasNoTokens contract.old.principal run.old.world.stack.top }
    ensures deployment { Audits scope.now contract.old run.old
        (opened result.end contract.new) run.new }
    ensures same { without_values (contract_seen contract.new)
        ≡ without_values (contract_seen contract.old) }
    ensures agrees { result.end ≢ Err Stop.NoMemory →
        IsAgreement (trace_of_deployment scope.now contract.old run.old)
        run.old.cursor.claims.now result.agreement }
{
    let end = audited_deployment(run, scope, contract, order);
    let agreement = agreement_of(&run.cursor);
    DeploymentAudit { end, agreement }
}
