//! The reply to a good request: the report of the entries, and the line of the two numbers.
ghost use Rattle.std.specs.Prelude.{◌≡◌, ◌≤◌, ◌++◌, IfOk, length, string_bytes};
ghost use Rattle.cl_report.specs.Lines.{lines_of, report_from};
ghost use Rattle.cl_lanes_app.specs.Reports.{IsLanesReport, counts_line};
ghost use Rattle.cl_lanes_app.specs.Running.{IsLanesText, RanDrawn};
ghost use Rattle.cl_lanes_app.specs.Words.{IsLanes, request_seen};

use crate::draws::drawn_moves;
use crate::words::Request;
use cl_costs::CostTable;
use cl_entries::{Reply, Status, bytes_reply, schedule_of};
use cl_lanes::{Progress, run_in_lanes};
use cl_lines::AddressCache;
use cl_report::lines_with;
use cl_tx::{Entry, TxFile, TxResult};
use cl_types::NoMemory;
use std::alloc::{AllocError, Global};

/// Adds the lines of an entry with this number and result.
fn write_lines(
    out: &mut Vec<u8>,
    alloc: Global,
    addresses: &mut AddressCache,
    number: u32,
    entry: &Entry,
    given: &TxResult,
) -> Result<(), NoMemory>
    ensures { IfOk result
        (λ _. out.new.items ≡ out.old.items ++ lines_of number entry.now given.now) }
{
    let lines = lines_with(alloc, addresses, number, entry, given)?;
    out.extend_from_slice(&lines)?;
    Ok(())
}

/// The report of entries with these results.
fn report(alloc: Global, entries: &[Entry], results: &[TxResult]) -> Result<Vec<u8>, NoMemory>
    requires few { length entries.now ≤ 100000 }
    requires each { length results.now ≡ length entries.now }
    ensures { IfOk result (λ text. text.items ≡ report_from 0 entries.now results.now) }
{
    let mut addresses = AddressCache::new(alloc)?;
    let mut text = Vec::new(alloc);
    for at in 0..entries.len() {
        let (entry, given) = (&entries[at], &results[at]);
        write_lines(&mut text, alloc, &mut addresses, at as u32, entry, given)?;
    }
    Ok(text)
}

#[tactic(auto, unfolding(crate::specs::Reports::counts_line))]
fn counts_line(alloc: Global, redone: u32, skipped: u32) -> Result<String, AllocError>
    ensures { IfOk result (λ line. string_bytes line ≡ counts_line redone skipped) }
{
    format!(in alloc; "lanes redone {redone} skipped {skipped}\n")
}

/// The report of all entries of a file, and the line of the two numbers.
fn lanes_text(alloc: Global, file: &TxFile, progress: &Progress) -> Result<Vec<u8>, NoMemory>
    requires { length progress.now.results ≡ length file.now.entries }
    ensures { IfOk result (λ text. IsLanesText file.now.entries progress.now text.items) }
{
    let (entries, results) = (file.entries(), progress.results());
    let mut text = report(alloc, entries, results)?;
    let line = counts_line(alloc, progress.redone(), progress.skipped())?;
    text.extend_from_slice(line.as_bytes())?;
    Ok(text)
}

/// Runs the entries of a file in lanes, by moves that are drawn.
fn run_drawn(
    alloc: Global,
    request: &Request<'_>,
    costs: &CostTable,
    file: &TxFile,
) -> Result<Progress, NoMemory>
    requires { IsLanes request.now.lanes }
    ensures { IfOk result (λ p. RanDrawn (request_seen request.now) costs.now file.now p) }
{
    let schedule = schedule_of(alloc, costs, file)?;
    let entries = file.entries();
    let count = 2 * entries.len();
    let moves = drawn_moves(alloc, request.lanes, request.seed, count)?;
    let progress = run_in_lanes(alloc, file, &schedule, request.lanes, moves.as_slice())?;
    Ok(progress)
}

/// The reply to a request, for the table and the entries of its files.
pub(crate) fn lanes_reply(
    alloc: Global,
    request: &Request<'_>,
    costs: &CostTable,
    file: &TxFile,
) -> Result<Reply, NoMemory>
    requires { IsLanes request.now.lanes }
    ensures { IfOk result (IsLanesReport (request_seen request.now) costs.now file.now) }
{
    let progress = run_drawn(alloc, request, costs, file)?;
    let text = lanes_text(alloc, file, &progress);
    drop(progress);
    Ok(bytes_reply(text?, Status::Done))
}
