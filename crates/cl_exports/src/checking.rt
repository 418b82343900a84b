//! A source on a node, before it is deployed.
ghost use Rattle.std.specs.Prelude.{◌≡◌, IfOk};
ghost use Rattle.cl_costs.specs.Tables.{function_of};
ghost use Rattle.cl_forms.specs.Texts.{text_of};
ghost use Rattle.cl_session.specs.Calls.{contract_in};
ghost use Rattle.cl_exports.specs.Checking.{CheckEnds, Checks, IsVerdictAfter, IsVerdictOf, outcome_of, version_of};
ghost use Rattle.cl_exports.specs.Verdicts.{verdict_numbers, verdict_text};
ghost use Rattle.cl_session.specs.Sessions.{IsSame};

use crate::outcome::Outcome;
use crate::verdict::{Verdict, lines_of, numbers_of};
use cl_bound::{KnownBounds, Priced, bound};
use cl_c32::Principal;
use cl_check::check;
use cl_contracts::{Checked, Deployed};
use cl_costs::CostTable;
use cl_forms::Version;
use cl_session::{Session, contract_in};
use cl_tx::SourceRefusal;
use cl_types::{Fault, NoMemory};
use std::alloc::Global;

/// Judges a contract by its bounds, after deployed ones and under a table.
fn judge_bounds(
    alloc: Global,
    deployed: &Deployed,
    costs: &CostTable,
    checked: &Checked,
) -> Result<Verdict, NoMemory>
    ensures { IfOk result (IsVerdictOf deployed.now (function_of costs.now) checked.now) }
{
    let known = KnownBounds::under(alloc, deployed, costs)?;
    let priced = bound(alloc, checked, &known, costs);
    drop(known);
    match priced {
        Ok(priced) => {
            let Priced { bounds, contract } = priced;
            drop(contract);
            Ok(Verdict::Accepted(bounds))
        }
        Err(Fault::Refused(refusal)) => Ok(Verdict::Refused(SourceRefusal::new(refusal))),
        Err(Fault::NoMemory) => Err(NoMemory),
    }
}

/// Judges a source of this version as the contract of a principal, after deployed ones and under a
/// table.
fn judge(
    alloc: Global,
    deployed: &Deployed,
    costs: &CostTable,
    principal: &Principal,
    version: Version,
    source: &[u8],
) -> Result<Verdict, NoMemory>
    ensures { IfOk result (IsVerdictAfter deployed.now (function_of costs.now) principal.now
        (text_of source.now version)) }
{
    deployed.are_known();
    match check(alloc, deployed, principal, source, version) {
        Ok(checked) => {
            checked.is_well_formed();
            let verdict = judge_bounds(alloc, deployed, costs, &checked);
            drop(checked);
            match verdict {
                Ok(verdict) => Ok(verdict),
                Err(_) => Err(NoMemory),
            }
        }
        Err(Fault::Refused(refusal)) => Ok(Verdict::Refused(SourceRefusal::new(refusal))),
        Err(Fault::NoMemory) => Err(NoMemory),
    }
}

/// How a check ends.
fn outcome_of(verdict: &Verdict) -> Outcome
    ensures { result ≡ outcome_of verdict.now }
{
    match verdict {
        Verdict::Accepted(_) => Outcome::Done,
        Verdict::Refused(_) => Outcome::Refused,
    }
}

/// Has the numbers and the text of a verdict.
fn keep(alloc: Global, session: &mut Session, verdict: &Verdict) -> Result<(), NoMemory>
    ensures same { IsSame session.old session.new }
    ensures numbers { IfOk result
        (λ _. session.new.numbers.items ≡ verdict_numbers verdict.now) }
    ensures text { IfOk result (λ _. session.new.text.items ≡ verdict_text verdict.now) }
{
    session.numbers = numbers_of(alloc, verdict)?;
    session.text = lines_of(alloc, verdict)?;
    Ok(())
}

/// Judges a source on a node, and has what comes of it as the numbers and the text.
fn check_as(
    alloc: Global,
    session: &mut Session,
    principal: &Principal,
    version: Version,
    source: &[u8],
) -> Result<Outcome, NoMemory>
    ensures same { IsSame session.old session.new }
    ensures checks { IfOk result (λ outcome. Checks principal.now (text_of source.now version)
        outcome session.old session.new) }
{
    let costs = session.costs.at(session.node.height());
    let verdict = judge(
        alloc,
        session.node.deployed(),
        costs,
        principal,
        version,
        source,
    )?;
    let kept = keep(alloc, session, &verdict);
    let outcome = outcome_of(&verdict);
    drop(verdict);
    match kept {
        Ok(()) => Ok(outcome),
        Err(_) => Err(NoMemory),
    }
}

/// The version of the language with this number.
fn version_of(number: u32) -> Option<Version>
    ensures { result ≡ version_of number }
{
    match number {
        1 => Some(Version::One),
        2 => Some(Version::Two),
        _ => None,
    }
}

/// Judges a source as a contract that would be deployed on the node, under the costs of its height:
/// the text has the names of its functions, each in a line, and the numbers are the bounds of the
/// deployment and of each function; or the text has the rule that it breaks first, and the numbers are
/// the span. The node stays as it is. The contract is a principal in its wire form (SIP-005).
pub fn check_source(
    alloc: Global,
    session: &mut Session,
    contract: &[u8],
    version: u32,
    source: &[u8],
) -> Outcome
    ensures { CheckEnds (contract_in contract.now) (version_of version) source.now result
        session.old session.new }
{
    session.clear();
    let Some(version) = version_of(version) else {
        return Outcome::NoRequest;
    };
    match contract_in(alloc, contract) {
        Ok(principal) => match check_as(alloc, session, &principal, version, source) {
            Ok(outcome) => outcome,
            Err(_) => Outcome::NoMemory,
        },
        Err(Fault::Refused(_)) => Outcome::NoRequest,
        Err(Fault::NoMemory) => Outcome::NoMemory,
    }
}
