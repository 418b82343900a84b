//! What stays the same while a contract is deployed.
use crate::frame::Frame;
use cl_contracts::{Checked, Deployed};
use cl_costs::CostTable;
use std::alloc::Global;

/// The deployed contracts, the one that is being deployed, its frame, and what is charged for what.
#[derive(Clone, Copy)]
pub struct Deploying<'a> {
    /// Where memory comes from.
    pub alloc: Global,
    /// The contracts that are deployed by now.
    pub deployed: &'a Deployed,
    /// The contract that is being deployed.
    pub checked: &'a Checked,
    /// Where its expressions are evaluated.
    pub frame: &'a Frame,
    /// What is charged for what.
    pub costs: &'a CostTable,
}
