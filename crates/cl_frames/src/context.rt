//! What stays the same while the body of a function is evaluated.
use crate::frame::Frame;
use crate::home::Home;
use cl_contracts::Deployed;
use cl_costs::CostTable;
use std::alloc::Global;

/// The deployed contracts, the one that is being deployed if one is, the frame with its contract, and what is charged for what.
#[derive(Clone, Copy)]
pub struct Context<'a> {
    /// Where memory comes from.
    pub alloc: Global,
    /// The contracts that are deployed by now.
    pub deployed: &'a Deployed,
    /// The contract that is being deployed, if one is.
    pub opening: Option<Home<'a>>,
    /// The contract whose code it is.
    pub home: Home<'a>,
    /// Where its code is evaluated.
    pub frame: &'a Frame,
    /// What is charged for what.
    pub costs: &'a CostTable,
}
