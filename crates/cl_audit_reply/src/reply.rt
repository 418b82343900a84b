//! The reply of `audit`.
ghost use Rattle.std.specs.Prelude.{◌≡◌, length, string_bytes, IfOk};
ghost use Rattle.cl_node_sound.specs.Sound.{FileHasParts};
ghost use Rattle.cl_report.specs.Lines.{report_from};
ghost use Rattle.cl_audit_results.specs.Audits.{claims_of};
ghost use Rattle.cl_audit_reply.specs.Grouped.{AreForEntries};
ghost use Rattle.cl_audit_reply.specs.Verdicts.{IsAuditReply, IsVerdict, first_apart, report_verdict, status_of, verdict_text};

use crate::comparing::report_apart;
use cl_audit::Trace;
use cl_audit_results::{AuditRefusal, audited};
use cl_costs::CostTable;
use cl_entries::{Reply, Status, schedule_of, text_reply};
use cl_nodes::{are_holders, has_parts};
use cl_results::each_file_has_results;
use cl_tx::{TxFile, TxResult};
use cl_types::{Fault, NoMemory};
use std::alloc::{AllocError, Global};

/// What the auditor says.
#[derive(Clone, Copy)]
pub enum Verdict {
    /// The traces and the report are those of the file.
    Yes,
    /// The trace of this entry differs at this claim first.
    NoClaim { entry: u32, claim: u32 },
    /// The traces are those of the file, and the report differs at this byte first.
    NoReport { at: usize },
}

/// Values, principals and heights in a file are within the limits.
fn file_has_parts(alloc: Global, file: &TxFile) -> Result<(), NoMemory>
    ensures { IfOk result (λ _. FileHasParts file.now) }
{
    let holders = file.genesis(alloc)?;
    are_holders(holders.as_slice());
    for entry in file.entries() {
        has_parts(entry);
    }
    Ok(())
}

/// What is said of a report where the traces are those of the file, and these its results.
fn report_verdict(
    alloc: Global,
    file: &TxFile,
    results: &[TxResult],
    report: &[u8],
) -> Result<Verdict, NoMemory>
    requires { length results.now ≡ length file.now.entries }
    ensures { IfOk result (λ verdict. verdict ≡ report_verdict
        (first_apart (report_from 0 file.now.entries results.now) report.now)) }
{
    match report_apart(alloc, file.entries(), results, report)? {
        Some(at) => Ok(Verdict::NoReport { at }),
        None => Ok(Verdict::Yes),
    }
}

/// What the auditor says of the traces and the report of a file, under a table of costs.
fn verdict_of(
    alloc: Global,
    costs: &CostTable,
    file: &TxFile,
    traces: &[Trace],
    report: &[u8],
) -> Result<Verdict, NoMemory>
    requires { AreForEntries file.now (claims_of traces.now) }
    ensures { IfOk result (IsVerdict costs.now file.now (claims_of traces.now) report.now) }
{
    each_file_has_results();
    file_has_parts(alloc, file)?;
    let costs = schedule_of(alloc, costs, file)?;
    match audited(alloc, file, &costs, traces) {
        Ok(results) => report_verdict(alloc, file, results.as_slice(), report),
        Err(Fault::Refused(AuditRefusal::Claim { entry, claim })) => {
            Ok(Verdict::NoClaim { entry, claim })
        }
        Err(Fault::Refused(_)) => unreachable!(),
        Err(Fault::NoMemory) => Err(NoMemory),
    }
}

/// The line that says so.
fn verdict_text(alloc: Global, verdict: Verdict) -> Result<String, AllocError>
    ensures { IfOk result (λ text. string_bytes text ≡ verdict_text verdict) }
{
    match verdict {
        Verdict::Yes => String::from_str(alloc, "yes\n"),
        Verdict::NoClaim { entry, claim } => format!(in alloc; "no claim {entry} {claim}\n"),
        Verdict::NoReport { at } => format!(in alloc; "no report {at}\n"),
    }
}

/// The status: 0, and 6 for both answers of no.
fn status_of(verdict: Verdict) -> Status
    ensures { result ≡ status_of verdict }
{
    match verdict {
        Verdict::Yes => Status::Done,
        Verdict::NoClaim { .. } => Status::Refused,
        Verdict::NoReport { .. } => Status::Refused,
    }
}

/// The reply of `audit` for a table of costs, a transaction file, its traces and its report.
pub fn audit_reply(
    alloc: Global,
    costs: &CostTable,
    file: &TxFile,
    traces: &[Trace],
    report: &[u8],
) -> Result<Reply, NoMemory>
    requires { AreForEntries file.now (claims_of traces.now) }
    ensures { IfOk result (IsAuditReply costs.now file.now (claims_of traces.now) report.now) }
{
    let verdict = verdict_of(alloc, costs, file, traces, report)?;
    let text = verdict_text(alloc, verdict)?;
    Ok(text_reply(text, status_of(verdict)))
}
