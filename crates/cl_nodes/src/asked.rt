//! What is asked of a node, and when.
ghost use Rattle.std.specs.Prelude.{◌≡◌};
ghost use Rattle.cl_nodes.specs.Asked.{asked_entry};

use cl_c32::{ContractName, Principal};
use cl_costs::CostTable;
use cl_forms::Version;
use cl_tx::{Common, Entry};
use cl_values::Val;

/// A deployment: who sends it and on what terms, the contract's name, its text, and the version of
/// that.
#[derive(Clone, Copy)]
pub struct Deployment<'a> {
    pub common: &'a Common,
    pub name: &'a ContractName,
    pub source: &'a [u8],
    pub version: Version,
}

/// A call of a function of a deployed contract with these values: who sends it and on what terms.
#[derive(Clone, Copy)]
pub struct Invocation<'a> {
    pub common: &'a Common,
    pub contract: &'a Principal,
    pub function: &'a [u8],
    pub args: &'a [Val],
}

/// The height of the block, and the costs at it.
#[derive(Clone, Copy)]
pub struct Moment<'a> {
    pub height: u64,
    pub costs: &'a CostTable,
}

/// What an entry asks for.
#[derive(Clone, Copy)]
pub enum Asked<'a> {
    Deploy(Deployment<'a>),
    Call(Invocation<'a>),
    /// A block of this height.
    Block(u64),
}

/// What an entry asks for.
pub fn asked_by(entry: &Entry) -> Asked
    ensures { asked_entry result ≡ entry.now }
{
    match entry {
        Entry::Deploy {
            common,
            name,
            source,
            version,
        } => Asked::Deploy(Deployment {
            common,
            name,
            source: source.as_slice(),
            version: *version,
        }),
        Entry::Call {
            common,
            contract,
            function,
            args,
        } => Asked::Call(Invocation {
            common,
            contract,
            function: function.as_slice(),
            args: args.as_slice(),
        }),
        Entry::Block { height } => Asked::Block(*height),
    }
}
