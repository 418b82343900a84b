//! Functions of contracts, and what names them.
ghost use Rattle.std.specs.List.{AllByRecursion};
ghost use Rattle.cl_types.specs.Name.{IsName};
ghost use Rattle.cl_contracts.specs.Seen.{deployed_seen};
ghost use Rattle.cl_touch.specs.CallSpots.{IsCallable};
ghost use Rattle.cl_footprint.specs.Named.{IsNamed};

use cl_c32::Principal;
use cl_code::Definition;
use cl_contracts::Deployed;

/// A law of a definition: a function has a name of the language.
fn is_named(definition: &Definition)
    ensures { IsNamed definition.now }
{
    if let Definition::Function(function) = definition {
        let _bytes = function.name.bytes();
    }
}

/// A law of definitions: each function has a name of the language.
fn are_named(definitions: &[Definition])
    ensures { AllByRecursion IsNamed definitions.now }
{
    for definition in definitions {
        is_named(definition);
    }
}

/// A law of deployed contracts: bytes that are no name of the language name no function.
pub(crate) fn has_no_function(deployed: &Deployed, contract: &Principal, function: &[u8])
    requires { IsName function.now → ⊥ }
    ensures { IsCallable (deployed_seen deployed.now) contract.now function.now → ⊥ }
{
    if let Some(found) = deployed.find(contract) {
        are_named(found.parts().definitions.as_slice());
    }
}
