//! The results of a file.
ghost use Rattle.std.specs.Prelude.{◌≡◌, ◌<◌, ◌≤◌, ◌^◌, [], length, IfOk};
ghost use Rattle.std.specs.List.{All};
ghost use Rattle.cl_types.specs.Fault.{IfRefused};
ghost use Rattle.cl_events.specs.State.{genesis};
ghost use Rattle.cl_file.specs.Entries.{height_after};
ghost use Rattle.cl_audit_results.specs.Audits.{AreAudited, HasTraces, IsRefusal};
ghost use Rattle.cl_audit_results.specs.Turns.{IsAudited, IsAuditedAt, IsRefusedAt, IsRefusedFor, MayFollow};

use crate::refusal::AuditRefusal;
use cl_audit::{Agreement, Trace};
use cl_audit_entries::AuditedNode;
use cl_costs::Schedule;
use cl_nodes::{entries_have_one_trace, nodes_are_known_in_one_way};
use cl_tx::{Entry, TxFile, TxResult, heights_are_those_of_the_file, steps_have_one_result};
use cl_types::{Fault, NoMemory};
use std::alloc::Global;

/// The node before the entries of a file. Its tables hash by the file's key.
pub(crate) fn first_node<'a>(alloc: Global, file: &TxFile) -> Result<AuditedNode<'a>, NoMemory>
    ensures { IfOk result (λ n. n ≡ record {
      state = genesis file.now.genesis;
      contracts = [];
      height = 0;
    }) }
{
    let holders = file.genesis(alloc)?;
    AuditedNode::genesis(alloc, file.hash_key(), holders)
}

/// The result of the entry with this number, where its trace is that of the claims.
fn audit_entry<'a>(
    alloc: Global,
    node: &mut AuditedNode<'a>,
    costs: &Schedule,
    number: u32,
    entry: &Entry,
    trace: &'a Trace,
) -> Result<TxResult, Fault<AuditRefusal>>
    requires rises { node.old.height ≤ height_after node.old.height entry.now }
    requires few { length trace.now.claims.items < 2 ^ 32 }
    ensures right { IfOk result (λ given. IsAudited costs.now node.old entry.now
        trace.now.claims.items given node.new) }
    ensures refused { IfRefused result (λ why. IsRefusedAt number costs.now node.old entry.now
        trace.now.claims.items why) }
{
    let audited = node.step(alloc, entry, costs, &trace.claims)?;
    match audited.agreement {
        Agreement::Agrees => Ok(audited.result),
        Agreement::DiffersAt(place) => Err(Fault::Refused(AuditRefusal::Claim {
            entry: number,
            claim: place as u32,
        })),
    }
}

/// The result of the entry at a place of a file, where its trace is that of the claims there.
pub(crate) fn audit_at<'a>(
    alloc: Global,
    node: &mut AuditedNode<'a>,
    file: &TxFile,
    costs: &Schedule,
    traces: &'a [Trace],
    at: usize,
) -> Result<TxResult, Fault<AuditRefusal>>
    requires here { at < length file.now.entries }
    requires given { at < length traces.now }
    requires rises { MayFollow node.old.height file.now.entries at }
    requires few { All (λ t. length t.claims.items < 2 ^ 32) traces.now }
    ensures right { IfOk result (λ given. IsAuditedAt costs.now node.old file.now.entries traces.now
        at given node.new) }
    ensures refused { IfRefused result (λ why. IsRefusedFor costs.now node.old file.now.entries
        traces.now at why) }
{
    let entry = &file.entries()[at];
    audit_entry(alloc, node, costs, at as u32, entry, &traces[at])
}

/// The results of the entries of a file under a schedule of costs, where each trace is that of its
/// entry: 1 where there aren't as many traces as entries, 2 at the first claim that differs. Whoever
/// made the traces isn't trusted.
pub fn audited(
    alloc: Global,
    file: &TxFile,
    costs: &Schedule,
    traces: &[Trace],
) -> Result<Vec<TxResult>, Fault<AuditRefusal>>
    requires epochs { costs.now.epochs ≡ file.now.epochs }
    requires few { All (λ t. length t.claims.items < 2 ^ 32) traces.now }
    ensures results { IfOk result (λ rs. AreAudited costs.now file.now traces.now rs.items) }
    ensures refused { IfRefused result (λ r. IsRefusal costs.now file.now traces.now r) }
    ensures traced { IfRefused result (λ r. HasTraces file.now traces.now r) }
{
    nodes_are_known_in_one_way();
    entries_have_one_trace();
    steps_have_one_result();
    heights_are_those_of_the_file();
    let count = file.entries().len();
    if traces.len() != count {
        return Err(Fault::Refused(AuditRefusal::Count));
    }
    let mut node = first_node(alloc, file)?;
    let mut results = Vec::with_capacity(alloc, count)?;
    for at in 0..count {
        let given = audit_at(alloc, &mut node, file, costs, traces, at)?;
        results.push(given)?;
    }
    Ok(results)
}
