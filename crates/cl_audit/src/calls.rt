//! Calls of functions, against the claims of their traces.
ghost use Rattle.std.specs.Prelude.{◌≡◌, ◌≢◌, false, Err};
ghost use Rattle.cl_walks.specs.declared.stop.Stop.TheVariants.{NoMemory};
ghost use Rattle.cl_audit.specs.Agrees.{IsAgreement};
ghost use Rattle.cl_audit.specs.Calls.{Audits, trace_of_call};

use crate::agreeing::{Agreement, agreement_of};
use cl_audit_steps::{Function, Scope};
use cl_audit_walk::{Run, enter};
use cl_values::Val;
use cl_walks::Stop;

/// The call of a function of a contract from outside, as a transaction makes it: it ends as the
/// limit leaves its meaning, and the claims were compared with its trace under the limit, one after
/// another. After want of memory nothing is known but that no state below the top has changed.
pub fn audited_call(
    run: &mut Run,
    scope: &Scope,
    function: &Function,
    values: &[Val],
) -> Result<Val, Stop>
    ensures { Audits scope.now function.now values.now run.old result run.new }
{
    enter(run, scope, function, values, 256)
}

/// What the audit of a call found.
#[derive(Drop)]
pub struct Audit {
    /// The value that the call gave, or why it gave none.
    pub end: Result<Val, Stop>,
    /// Whether the claims are those of its trace.
    pub agreement: Agreement,
}

/// Audits the call of a function against the claims of the run, from the first on. They agree
/// exactly where they are the trace of the call's meaning under the limit; after want of memory
/// nothing is said of them.
pub fn audit_call(run: &mut Run, scope: &Scope, function: &Function, values: &[Val]) -> Audit
    requires first { run.old.cursor.at ≡ 0 }
    requires agreed { run.old.cursor.differs ≡ false }
    ensures call { Audits scope.now function.now values.now run.old result.end run.new }
    ensures agrees { result.end ≢ Err NoMemory →
        IsAgreement (trace_of_call scope.now function.now values.now run.old)
        run.old.cursor.claims.now result.agreement }
{
    let end = audited_call(run, scope, function, values);
    let agreement = agreement_of(&run.cursor);
    Audit { end, agreement }
}
