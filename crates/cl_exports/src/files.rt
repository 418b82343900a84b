//! The files of a node.
ghost use Rattle.std.specs.Prelude.{◌≡◌, ◌↔◌, [], Err, IfOk, IsTrue, Ok};
ghost use Rattle.cl_types.specs.Fault.{IfRefused};
ghost use Rattle.cl_exports.specs.Files.{IsCostFault, IsFile, IsFileFault, IsTable, OnlyEntries, table_in};

use cl_c32::Principal;
use cl_costs::{CostRefusal, CostTable};
use cl_ports::MAX_FILE_BYTES;
use cl_replies::FileFault;
use cl_tx::{TxFile, read};
use cl_types::{Fault, NoMemory};
use std::alloc::Global;

/// The table of a cost file; the unit table where there are no bytes.
#[tactic(auto, using(crate::proofs::Tables::unit_in, crate::proofs::Tables::file_in))]
fn table_in(alloc: Global, bytes: &[u8]) -> Result<CostTable, Fault<CostRefusal>>
    ensures found { IfOk result (λ t. table_in bytes.now ≡ Ok t) }
    ensures broken { IfRefused result (λ fault. table_in bytes.now ≡ Err fault) }
{
    if bytes.is_empty() {
        Ok(CostTable::builtin())
    } else {
        cl_costs::read(alloc, bytes)
    }
}

/// The same, of at most 16 MiB.
pub(crate) fn table(alloc: Global, bytes: &[u8]) -> Result<CostTable, Fault<FileFault>>
    ensures found { IfOk result (λ t. IsTable bytes.now t) }
    ensures broken { IfRefused result (IsCostFault bytes.now) }
{
    if bytes.len() > MAX_FILE_BYTES {
        return Err(Fault::Refused(FileFault::TooLong));
    }
    match table_in(alloc, bytes) {
        Ok(table) => Ok(table),
        Err(Fault::Refused(fault)) => Err(Fault::Refused(FileFault::Costs(fault))),
        Err(Fault::NoMemory) => Err(Fault::NoMemory),
    }
}

/// A transaction file.
pub(crate) fn transactions(alloc: Global, bytes: &[u8]) -> Result<TxFile, Fault<FileFault>>
    ensures found { IfOk result (λ f. IsFile bytes.now f) }
    ensures broken { IfRefused result (IsFileFault bytes.now) }
{
    if bytes.len() > MAX_FILE_BYTES {
        return Err(Fault::Refused(FileFault::TooLong));
    }
    match read(alloc, bytes) {
        Ok(file) => Ok(file),
        Err(Fault::Refused(fault)) => Err(Fault::Refused(FileFault::Transactions(fault))),
        Err(Fault::NoMemory) => Err(Fault::NoMemory),
    }
}

/// Whether there are neither holders nor epochs.
fn are_none(holders: &[(Principal, u128)], epochs: &[(u64, CostTable)]) -> bool
    ensures { IsTrue result ↔ (holders.now ≡ []) × (epochs.now ≡ []) }
{
    if holders.is_empty() {
        epochs.is_empty()
    } else {
        false
    }
}

/// Whether a file has entries alone, and no holders and no epochs.
pub(crate) fn has_only_entries(alloc: Global, file: &TxFile) -> Result<bool, NoMemory>
    ensures { IfOk result (λ b. IsTrue b ↔ OnlyEntries file.now) }
{
    match file.genesis(alloc) {
        Ok(holders) => Ok(are_none(&holders, file.epochs())),
        Err(_) => Err(NoMemory),
    }
}
