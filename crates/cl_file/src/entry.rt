//! The entries of a transaction file.
use crate::{Conditions, Row};
use cl_c32::{Address, ContractName, Principal};
use cl_forms::Version;
use cl_post::Mode;
use cl_values::Val;

/// What deployments and calls have in common.
#[derive(Drop)]
pub struct Common {
    /// Who sends the transaction.
    pub sender: Address,
    /// The most that may be spent in each dimension, in their order.
    pub limit: [u64; 5],
    pub mode: Mode,
    pub conditions: Conditions,
}

/// One entry.
#[derive(Drop)]
pub enum Entry {
    /// A contract is deployed under the sender's address.
    Deploy {
        common: Common,
        name: ContractName,
        /// The text of the contract, in UTF-8.
        source: Row<u8>,
        /// The version of the language that the text is written in.
        version: Version,
    },
    /// A function of a contract is called.
    Call {
        common: Common,
        contract: Principal,
        /// The name of the function as the file has it, in UTF-8.
        function: Row<u8>,
        args: Row<Val>,
    },
    /// A block of this height begins.
    Block {
        height: u64,
    },
}
