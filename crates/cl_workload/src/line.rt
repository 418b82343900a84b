//! The line of a workload.
ghost use Rattle.std.specs.Prelude.{◌≡◌, IfOk, string_bytes};
ghost use Rattle.cl_workload.specs.Summary.{counts_text, summary_line};

use crate::Tally;
use std::alloc::{AllocError, Global};

/// How many calls there were, and how many entries gave an ok and an err.
#[tactic(auto, unfolding(crate::specs::Summary::counts_text))]
fn counts_text(alloc: Global, count: u32, tally: &Tally) -> Result<String, AllocError>
    ensures { IfOk result (λ text. string_bytes text ≡ counts_text count tally.now) }
{
    let (ok, err) = (tally.ok(), tally.err());
    format!(in alloc; "calls {count} ok {ok} err {err}")
}

/// The line of a workload of so many calls: how many gave an ok and an err, how many coins there
/// are after them, how many the receiver has, and what all entries cost in runtime.
#[tactic(auto, unfolding(crate::specs::Summary::summary_line))]
pub fn summary(
    alloc: Global,
    count: u32,
    tally: &Tally,
    supply: u128,
    held: u128,
) -> Result<String, AllocError>
    ensures { IfOk result (λ line. string_bytes line ≡ summary_line count tally.now supply held) }
{
    let counts = counts_text(alloc, count, tally)?;
    let runtime = tally.runtime();
    format!(in alloc; "{counts} supply u{supply} p1 u{held} runtime {runtime}\n")
}
