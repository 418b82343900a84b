//! Other contracts, and what is called of them.
ghost use Rattle.std.specs.Prelude.{◌≡◌, [], true, option_map, option_and_then, IfSome};
ghost use Rattle.cl_values.specs.Valid.{IsPrincipal};
ghost use Rattle.cl_code.specs.Typed.{goes_by};
ghost use Rattle.cl_contracts.specs.Seen.{forms_of, function_seen, deployed_seen};
ghost use Rattle.cl_events.specs.State.{is_principal};
ghost use Rattle.cl_forms.specs.Shapes.{beside};
ghost use Rattle.cl_meaning.specs.Deployed.{contract_at, function_in};
ghost use Rattle.cl_meaning.specs.Calls.{callable};
ghost use Rattle.cl_frames.specs.Homes.{home_seen, with_opening};
ghost use Rattle.cl_frames.specs.Across.{principal_in, there};

use cl_c32::{ContractName, Principal};
use cl_code::{Function, Target};
use cl_contracts::{Checked, Deployed};
use cl_frames::{Context, Home};
use cl_types::{Access, Name};
use cl_values::one_spelling;

/// The contract of a name beside another.
pub fn beside(contract: &Principal, name: ContractName) -> Principal
    ensures { result ≡ beside contract.now name }
{
    Principal {
        address: contract.address,
        contract: Some(name),
    }
}

/// The principal that a literal names.
pub fn principal_of(context: &Context, target: &Target) -> Principal
    ensures { result ≡ principal_in context.now.frame.now.contract target.now }
{
    match target {
        Target::Standing(principal, _) => *principal,
        Target::Local(name, _) => beside(&context.frame.contract, *name),
    }
}

/// A law of each principal: it is valid.
pub fn is_valid_principal(principal: &Principal)
    ensures { IsPrincipal principal.now }
{
    let _version = principal.address.version;
    if let Some(name) = &principal.contract {
        let _bytes = name.bytes();
    }
}

/// Whether two principals are one.
pub fn same(one: &Principal, other: &Principal) -> bool
    ensures { result ≡ is_principal one.now other.now }
{
    one_spelling();
    is_valid_principal(one);
    is_valid_principal(other);
    *one == *other
}

/// The contract that is being deployed, if it has this principal.
fn opening_at<'a>(context: &'a Context, principal: &Principal) -> Option<Home<'a>>
    ensures { option_map home_seen result
        ≡ contract_at principal.now (with_opening context.now.opening []) }
{
    match context.opening {
        Some(opening) => {
            if same(&opening.checked.parts().principal, principal) {
                Some(opening)
            } else {
                None
            }
        }
        None => None,
    }
}

/// The contract that is deployed under a principal.
fn deployed_at<'a>(deployed: &'a Deployed, principal: &Principal) -> Option<Home<'a>>
    ensures { option_map home_seen result
        ≡ contract_at principal.now (deployed_seen deployed.now) }
{
    match deployed.find(principal) {
        Some(contract) => Some(Home {
            checked: contract.checked(),
            constants: contract.constants(),
        }),
        None => None,
    }
}

/// The contract of a principal.
pub fn contract_there<'a>(context: &'a Context, principal: &Principal) -> Option<Home<'a>>
    ensures { option_map home_seen result ≡ there context.now principal.now }
{
    match opening_at(context, principal) {
        Some(opening) => Some(opening),
        None => deployed_at(context.deployed, principal),
    }
}

/// A function of a contract that other contracts may call.
pub fn callable<'a>(checked: &'a Checked, name: &Name) -> Option<&'a Function>
    ensures seen { option_map (λ f. function_seen f.now) result
        ≡ option_and_then callable (function_in name.now (forms_of checked.now)) }
    ensures goes { IfSome result (λ f. goes_by checked.now.version f.now.body ≡ true) }
{
    match checked.function(name) {
        Some(function) => match function.access {
            Access::Public | Access::ReadOnly => Some(function),
            Access::Private => None,
        },
        None => None,
    }
}
