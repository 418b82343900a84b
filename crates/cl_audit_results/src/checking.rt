//! Results that are given, checked.
ghost use Rattle.std.specs.Prelude.{◌≡◌, ◌<◌, ◌^◌, length, IfOk};
ghost use Rattle.std.specs.List.{All};
ghost use Rattle.cl_types.specs.Fault.{IfRefused};
ghost use Rattle.cl_audit_results.specs.Audits.{AreAudited, HasResults, HasTraces, IsAuditRefusal};

use crate::refusal::AuditRefusal;
use crate::results::{audit_at, first_node};
use cl_audit::Trace;
use cl_costs::Schedule;
use cl_equal::equal_results;
use cl_nodes::{entries_have_one_trace, nodes_are_known_in_one_way};
use cl_tx::{TxFile, TxResult, heights_are_those_of_the_file, steps_have_one_result};
use cl_types::Fault;
use std::alloc::Global;

/// Whether these are the results of the entries of a file under a schedule of costs, and the traces
/// their traces: 1 where there aren't as many of each as entries, and else at the first entry of
/// which one is another: 2 at the first claim that differs, 3 where the trace is right and the
/// result another. Whoever made them isn't trusted.
pub fn audit(
    alloc: Global,
    file: &TxFile,
    costs: &Schedule,
    traces: &[Trace],
    results: &[TxResult],
) -> Result<(), Fault<AuditRefusal>>
    requires epochs { costs.now.epochs ≡ file.now.epochs }
    requires few { All (λ t. length t.claims.items < 2 ^ 32) traces.now }
    ensures right { IfOk result (λ _. AreAudited costs.now file.now traces.now results.now) }
    ensures refused { IfRefused result
        (λ r. IsAuditRefusal costs.now file.now traces.now results.now r) }
    ensures traced { IfRefused result (λ r. HasTraces file.now traces.now r) }
    ensures counted { IfRefused result (λ r. HasResults file.now results.now r) }
{
    nodes_are_known_in_one_way();
    entries_have_one_trace();
    steps_have_one_result();
    heights_are_those_of_the_file();
    let count = file.entries().len();
    if traces.len() != count || results.len() != count {
        return Err(Fault::Refused(AuditRefusal::Count));
    }
    let mut node = first_node(alloc, file)?;
    for at in 0..count {
        let meant = audit_at(alloc, &mut node, file, costs, traces, at)?;
        if !equal_results(&meant, &results[at]) {
            return Err(Fault::Refused(AuditRefusal::Differs { entry: at as u32 }));
        }
    }
    Ok(())
}
