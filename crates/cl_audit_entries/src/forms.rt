//! The forms of a text that is accepted, as the auditor reads them.
ghost use Rattle.std.specs.Prelude.{◌≡◌, [], IfOk};
ghost use Rattle.cl_sexpr.specs.Text.{Reads};
ghost use Rattle.cl_sexpr.specs.Tree.{forest};
ghost use Rattle.cl_nodes.specs.Asked.{text_in};
ghost use Rattle.cl_contracts.specs.Seen.{forms_of};
ghost use Rattle.cl_audit_entries.specs.Deploying.{IsReadAs};

use cl_audit_steps::{Contract, Forms, NamedValues};
use cl_contracts::Parts;
use cl_forms::{Form, forms_with_hash_key};
use cl_nodes::Deployment;
use cl_sexpr::{Sexpr, one_reading, read};
use cl_types::{Fault, NoMemory};
use std::alloc::Global;

/// The items of the text, read anew.
fn items_of(alloc: Global, deployment: &Deployment, own: &Parts) -> Result<Vec<Sexpr>, NoMemory>
    requires { IsReadAs (text_in deployment.now) own.now }
    ensures { IfOk result (λ items. Reads deployment.now.source.now (forest items.items)) }
{
    one_reading();
    match read(alloc, deployment.source) {
        Ok(items) => Ok(items),
        Err(Fault::Refused(_)) => unreachable!(),
        Err(Fault::NoMemory) => Err(NoMemory),
    }
}

/// The forms of the text, read anew.
fn read_forms(alloc: Global, deployment: &Deployment, own: &Parts) -> Result<Vec<Form>, NoMemory>
    requires { IsReadAs (text_in deployment.now) own.now }
    ensures { IfOk result (λ forms. forms.items ≡ forms_of own.now) }
{
    one_reading();
    let items = items_of(alloc, deployment, own)?;
    match forms_with_hash_key(alloc, own.hash_key(), items, deployment.version) {
        Ok(forms) => Ok(forms),
        Err(Fault::Refused(_)) => unreachable!(),
        Err(Fault::NoMemory) => Err(NoMemory),
    }
}

/// The contract of a text that is accepted, whose constants have no values yet.
pub(crate) fn contract_of(
    alloc: Global,
    deployment: &Deployment,
    own: &Parts,
) -> Result<Contract, NoMemory>
    requires { IsReadAs (text_in deployment.now) own.now }
    ensures principal { IfOk result (λ c. c.principal ≡ own.now.principal) }
    ensures version { IfOk result (λ c. c.version ≡ own.now.version) }
    ensures forms { IfOk result (λ c. c.forms ≡ forms_of own.now) }
    ensures length { IfOk result (λ c. c.source_length ≡ own.now.source_length) }
    ensures constants { IfOk result (λ c. c.constants ≡ []) }
{
    let forms = read_forms(alloc, deployment, own)?;
    Ok(Contract {
        principal: own.principal,
        version: own.version,
        forms: Forms::new(alloc, own.hash_key(), forms)?,
        source_length: own.source_length,
        constants: NamedValues::new(alloc, own.hash_key()),
    })
}
