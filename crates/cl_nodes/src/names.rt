//! Who sends a transaction, and which contract it deploys.
ghost use Rattle.std.specs.Prelude.{◌≡◌};
ghost use Rattle.cl_tx.specs.Nodes.{contract_of, person};

use cl_c32::{ContractName, Principal};
use cl_tx::Common;

/// The sender, who is no contract.
pub fn person(common: &Common) -> Principal
    ensures { result ≡ person common.now.sender }
{
    Principal {
        address: common.sender,
        contract: None,
    }
}

/// The principal of a sender's contract.
pub fn principal_of(common: &Common, name: &ContractName) -> Principal
    ensures { result ≡ contract_of common.now.sender name.now }
{
    Principal {
        address: common.sender,
        contract: Some(*name),
    }
}
