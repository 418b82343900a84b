//! Where code is evaluated.
use cl_c32::Principal;

/// Where code is evaluated.
#[derive(Clone, Copy)]
pub struct Frame {
    /// The contract whose code it is.
    pub contract: Principal,
    /// Who sent the transaction.
    pub sender: Principal,
    /// Who called the contract.
    pub caller: Principal,
    /// The height of the block.
    pub height: u128,
}
