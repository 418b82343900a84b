//! Where the report of results and a text differ.
ghost use Rattle.std.specs.Prelude.{◌≡◌, ◌≤◌, length, IfOk};
ghost use Rattle.cl_report.specs.Lines.{report_from};
ghost use Rattle.cl_audit_reply.specs.Verdicts.{first_apart, prefix_apart};

use cl_lines::AddressCache;
use cl_report::lines_with;
use cl_tx::{Entry, TxResult};
use cl_types::NoMemory;
use std::alloc::Global;

/// The first place at which a text isn't the beginning of another.
fn prefix_apart(text: &[u8], whole: &[u8]) -> Option<usize>
    ensures { result ≡ prefix_apart text.now whole.now }
{
    for at in 0..text.len() {
        if at >= whole.len() || text[at] != whole[at] {
            return Some(at);
        }
    }
    None
}

/// The first byte at which the report of these results differs from a text, or the shorter length.
pub(crate) fn report_apart(
    alloc: Global,
    entries: &[Entry],
    results: &[TxResult],
    text: &[u8],
) -> Result<Option<usize>, NoMemory>
    requires results { length results.now ≡ length entries.now }
    requires few { length entries.now ≤ 100000 }
    ensures { IfOk result
        (λ at. at ≡ first_apart (report_from 0 entries.now results.now) text.now) }
{
    let mut addresses = AddressCache::new(alloc)?;
    let mut done = 0;
    for number in 0..entries.len() {
        let lines = lines_with(
            alloc,
            &mut addresses,
            number as u32,
            &entries[number],
            &results[number],
        )?;
        if let Some(at) = prefix_apart(&lines, &text[done..]) {
            return Ok(Some(done + at));
        }
        done += lines.len();
    }
    if done < text.len() {
        return Ok(Some(done));
    }
    Ok(None)
}
