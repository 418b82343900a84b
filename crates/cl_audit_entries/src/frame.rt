//! Where a transaction is evaluated.
ghost use Rattle.std.specs.Prelude.{◌≡◌, None};
ghost use Rattle.cl_tx.specs.Nodes.{person};
ghost use Rattle.cl_audit_steps.specs.Seen.{frame_seen};

use cl_audit_steps::{Contract, ContractTable, Frame, Scope};
use cl_c32::Principal;
use cl_costs::CostTable;
use cl_nodes::person;
use cl_tx::Common;
use std::alloc::Global;

/// The frame of what a sender runs in a contract.
pub(crate) fn frame_of(common: &Common, contract: &Principal, height: u64) -> Frame
    ensures { frame_seen result
        ≡ record {
          contract = contract.now;
          sender = person common.now.sender;
          caller = person common.now.sender;
          height = height;
        } }
{
    Frame {
        contract: *contract,
        sender: person(common),
        caller: person(common),
        height: u128::from(height),
    }
}

/// The surroundings of what is run in a frame, among the deployed contracts and under a table.
pub(crate) fn scope_over<'a>(
    alloc: Global,
    contracts: &'a ContractTable,
    frame: &'a Frame,
    costs: &'a CostTable,
) -> Scope<'a>
    ensures opening { result.opening ≡ None }
    ensures contracts { result.contracts.now ≡ contracts.now }
    ensures frame { result.frame.now ≡ frame.now }
    ensures costs { result.costs.now ≡ costs.now }
{
    let opening: Option<&'a Contract> = None;
    Scope {
        alloc,
        opening,
        contracts,
        frame,
        costs,
    }
}
