//! The claims of a trace file, by their entries.
ghost use Rattle.std.specs.Prelude.{◌≡◌, ◌<◌, ◌≤◌, [], Err, Ok, length, replicate, IfOk};
ghost use Rattle.std.specs.List.{All};
ghost use Rattle.cl_types.specs.Fault.{IfRefused};
ghost use Rattle.cl_claims.specs.Files.{IsFirstBad};
ghost use Rattle.cl_audit_results.specs.Audits.{claims_of};
ghost use Rattle.cl_audit_reply.specs.Grouped.{AreTraces, put, traces_in};

use cl_audit::Trace;
use cl_audit_walk::Claim;
use cl_claims::{BadLine, ClaimLine, next_line};
use cl_types::{Fault, NoMemory};
use std::alloc::Global;

/// So many traces without claims.
fn empty_traces(alloc: Global, count: usize) -> Result<Vec<Trace>, NoMemory>
    ensures { IfOk result (λ traces. claims_of traces.items ≡ replicate count []) }
{
    let mut traces = Vec::with_capacity(alloc, count)?;
    for _ in 0..count {
        traces.push(Trace::new(alloc))?;
    }
    Ok(traces)
}

/// Puts the claim of a line behind those of its entry.
fn put(traces: &mut Vec<Trace>, line: ClaimLine) -> Result<(), NoMemory>
    requires { line.entry < length traces.old.items }
    ensures { IfOk result (λ _. claims_of traces.new.items ≡ put (claims_of traces.old.items) line) }
{
    let ClaimLine { entry, span, value } = line;
    let trace = &mut traces[entry as usize];
    trace.claims.push(Claim { span, value })?;
    Ok(())
}

/// The traces of so many entries that a trace file holds, or the first line that isn't in the
/// format. Each claim is kept once.
pub fn read_traces(alloc: Global, text: &[u8], entries: u32) -> Result<Vec<Trace>, Fault<BadLine>>
    ensures found { IfOk result
        (λ traces. traces_in entries text.now ≡ Ok (claims_of traces.items)) }
    ensures lines { IfOk result
        (λ traces. AreTraces entries text.now (claims_of traces.items)) }
    ensures count { IfOk result (λ traces. length (claims_of traces.items) ≡ entries) }
    ensures few { IfOk result
        (λ traces. All (λ c. length c ≤ length text.now) (claims_of traces.items)) }
    ensures broken { IfRefused result (λ bad. traces_in entries text.now ≡ Err bad.line) }
    ensures first { IfRefused result (λ bad. IsFirstBad entries text.now bad.line) }
{
    let mut traces = empty_traces(alloc, entries as usize)?;
    let mut rest = text;
    let mut least = 0;
    let mut count = 0;
    while !rest.is_empty() {
        let Some((line, behind)) = next_line(alloc, rest, least, entries)? else {
            return Err(Fault::Refused(BadLine { line: count }));
        };
        least = line.entry;
        rest = behind;
        count += 1;
        put(&mut traces, line)?;
    }
    Ok(traces)
}
