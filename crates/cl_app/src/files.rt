//! Reads single files.
ghost use Rattle.std.specs.Prelude.{◌≡◌, ◌<◌, ◌≤◌, ◌^◌, ◌∷◌, [], Some, length, IfOk, OnOk};
ghost use Rattle.std.specs.List.{All};
ghost use Rattle.cl_ports.specs.declared.TheConstants.{MAX_FILE_BYTES};
ghost use Rattle.cl_ports.specs.Growth.{Grows, GrowsPart};
ghost use Rattle.cl_entries.specs.Scripts.{CountsRead};
ghost use Rattle.cl_app.specs.Reading.{IsTextAt, AreClaimsAt, AreCostsAt, AreTransactionsAt, IsTransactionsOf, claims_by, claims_seen, costs_of};
ghost use Rattle.cl_audit_results.specs.Audits.{claims_of};

use cl_audit::Trace;
use cl_audit_reply::read_traces;
use cl_costs::CostTable;
use cl_entries::Stop;
use cl_file::Row;
use cl_ports::{Files, ReadRefusal};
use cl_replies::FileFault;
use cl_tx::TxFile;
use cl_types::{Fault, NoMemory};
use std::alloc::Global;

/// A file that is bad.
#[derive(Drop)]
pub struct BadFile<'a> {
    pub name: &'a str,
    pub fault: FileFault,
}

/// The bytes of a file, or that it is too long.
#[tactic(auto, using(crate::proofs::Read::text_is, crate::proofs::Read::text_is_long))]
pub(crate) fn read_text<F: Files>(
    name: &str,
    files: &mut F,
) -> Result<Result<Row<u8>, FileFault>, Stop>
    ensures text { IfOk result (λ text. IsTextAt (F.held files.old) name.now text) }
    ensures short { IfOk result
        (λ text. IfOk text (λ bytes. length bytes ≤ MAX_FILE_BYTES)) }
    ensures kept { F.held files.new ≡ F.held files.old }
    ensures cause { CountsRead (F.faults files.old) (F.faults files.new) result }
    ensures asked { OnOk result (Grows (F.asked files.old) (F.asked files.new) (name.now ∷ [])) }
    ensures part { GrowsPart (F.asked files.old) (F.asked files.new) (name.now ∷ []) }
{
    match files.read(name) {
        Ok(bytes) => Ok(Ok(Row::new(bytes))),
        Err(ReadRefusal::TooLong { .. }) => Ok(Err(FileFault::TooLong)),
        Err(ReadRefusal::Failed) => Err(Stop::ReadFailed),
        Err(ReadRefusal::NoMemory) => Err(Stop::NoMemory),
    }
}

/// The table of the bytes of a cost file.
fn costs_of(
    alloc: Global,
    text: Result<Row<u8>, FileFault>,
) -> Result<Result<CostTable, FileFault>, NoMemory>
    ensures { IfOk result (λ table. table ≡ costs_of text) }
{
    let bytes = match text {
        Ok(bytes) => bytes,
        Err(fault) => return Ok(Err(fault)),
    };
    match cl_costs::read(alloc, bytes.as_slice()) {
        Ok(table) => Ok(Ok(table)),
        Err(Fault::Refused(fault)) => Ok(Err(FileFault::Costs(fault))),
        Err(Fault::NoMemory) => Err(NoMemory),
    }
}

/// The table of a cost file.
#[tactic(auto, using(crate::proofs::Read::costs_are))]
pub(crate) fn read_costs<F: Files>(
    alloc: Global,
    name: &str,
    files: &mut F,
) -> Result<Result<CostTable, FileFault>, Stop>
    ensures costs { IfOk result (λ table. AreCostsAt (F.held files.old) name.now table) }
    ensures kept { F.held files.new ≡ F.held files.old }
    ensures cause { CountsRead (F.faults files.old) (F.faults files.new) result }
    ensures asked { OnOk result (Grows (F.asked files.old) (F.asked files.new) (name.now ∷ [])) }
    ensures part { GrowsPart (F.asked files.old) (F.asked files.new) (name.now ∷ []) }
{
    let text = read_text(name, files)?;
    Ok(costs_of(alloc, text)?)
}

/// The file of the bytes of a transaction file.
fn transactions_of(
    alloc: Global,
    text: Result<Row<u8>, FileFault>,
) -> Result<Result<TxFile, FileFault>, NoMemory>
    ensures { IfOk result (λ file. IsTransactionsOf (Some text) (Some file)) }
{
    let bytes = match text {
        Ok(bytes) => bytes,
        Err(fault) => return Ok(Err(fault)),
    };
    match cl_tx::read(alloc, bytes.as_slice()) {
        Ok(file) => Ok(Ok(file)),
        Err(Fault::Refused(fault)) => Ok(Err(FileFault::Transactions(fault))),
        Err(Fault::NoMemory) => Err(NoMemory),
    }
}

/// The entries of a transaction file.
#[tactic(auto, using(crate::proofs::Read::transactions_are))]
pub(crate) fn read_transactions<F: Files>(
    alloc: Global,
    name: &str,
    files: &mut F,
) -> Result<Result<TxFile, FileFault>, Stop>
    ensures file { IfOk result (λ file. AreTransactionsAt (F.held files.old) name.now file) }
    ensures kept { F.held files.new ≡ F.held files.old }
    ensures cause { CountsRead (F.faults files.old) (F.faults files.new) result }
    ensures asked { OnOk result (Grows (F.asked files.old) (F.asked files.new) (name.now ∷ [])) }
    ensures part { GrowsPart (F.asked files.old) (F.asked files.new) (name.now ∷ []) }
{
    let text = read_text(name, files)?;
    Ok(transactions_of(alloc, text)?)
}

/// The traces of so many entries that the bytes of a trace file hold. Nothing is left of the bytes.
fn traces_of(
    alloc: Global,
    text: Result<Row<u8>, FileFault>,
    entries: u32,
) -> Result<Result<Vec<Trace>, FileFault>, NoMemory>
    requires { IfOk text (λ bytes. length bytes ≤ MAX_FILE_BYTES) }
    ensures claims { IfOk result (λ read. claims_seen read ≡ claims_by entries text) }
    ensures count { IfOk result
        (λ read. IfOk read (λ traces. length (claims_of traces.items) ≡ entries)) }
    ensures few { IfOk result
        (λ read. IfOk read (λ traces. All (λ c. length c < 2 ^ 32) (claims_of traces.items))) }
{
    let bytes = match text {
        Ok(bytes) => bytes,
        Err(fault) => return Ok(Err(fault)),
    };
    match read_traces(alloc, bytes.as_slice(), entries) {
        Ok(traces) => Ok(Ok(traces)),
        Err(Fault::Refused(fault)) => Ok(Err(FileFault::Traces(fault))),
        Err(Fault::NoMemory) => Err(NoMemory),
    }
}

/// The traces of so many entries that a trace file holds.
#[tactic(auto, using(crate::proofs::Read::claims_are))]
pub(crate) fn read_trace_file<F: Files>(
    alloc: Global,
    name: &str,
    entries: u32,
    files: &mut F,
) -> Result<Result<Vec<Trace>, FileFault>, Stop>
    ensures claims { IfOk result
        (λ read. AreClaimsAt (F.held files.old) name.now entries (claims_seen read)) }
    ensures count { IfOk result
        (λ read. IfOk read (λ traces. length (claims_of traces.items) ≡ entries)) }
    ensures few { IfOk result
        (λ read. IfOk read (λ traces. All (λ c. length c < 2 ^ 32) (claims_of traces.items))) }
    ensures kept { F.held files.new ≡ F.held files.old }
    ensures cause { CountsRead (F.faults files.old) (F.faults files.new) result }
    ensures asked { OnOk result (Grows (F.asked files.old) (F.asked files.new) (name.now ∷ [])) }
    ensures part { GrowsPart (F.asked files.old) (F.asked files.new) (name.now ∷ []) }
{
    let text = read_text(name, files)?;
    Ok(traces_of(alloc, text, entries)?)
}
