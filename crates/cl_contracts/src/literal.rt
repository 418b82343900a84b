//! The contract that a literal stands for.
ghost use Rattle.std.specs.Prelude.{◌≡◌};
ghost use Rattle.cl_code.specs.Expression.{target_leaf};
ghost use Rattle.cl_rules.specs.CallShapes.{contract_literal};

use cl_c32::Principal;
use cl_code::Target;

/// The contract that a literal stands for in the text of a contract, none for an address alone.
pub fn contract_of_literal(own: &Principal, target: &Target) -> Option<Principal>
    ensures { result ≡ contract_literal own.now (target_leaf target.now) }
{
    match target {
        Target::Standing(principal, _) => match principal.contract {
            Some(_) => Some(*principal),
            None => None,
        },
        Target::Local(name, _) => Some(Principal {
            address: own.address,
            contract: Some(*name),
        }),
    }
}
