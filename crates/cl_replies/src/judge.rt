//! Sources one after another, each after those before it that were accepted.
ghost use Rattle.std.specs.Prelude.{◌≡◌, ◌++◌, [], None, Some, IfOk, filter_map};
ghost use Rattle.cl_costs.specs.Tables.{function_of};
ghost use Rattle.cl_contracts.specs.Seen.{contract_under};
ghost use Rattle.cl_contracts.specs.Standings.{FitsAfter};
ghost use Rattle.cl_rules.specs.Context.{CostTable as Table};
ghost use Rattle.cl_bound.specs.Known.{AreBounds, AreBoundsOf};
ghost use Rattle.cl_lines.specs.Checks.{accepted_lines, refused_line};
ghost use Rattle.cl_replies.specs.Checked.{IsReport};
ghost use Rattle.cl_nodes.specs.Accepting.{type_returned};
ghost use Rattle.cl_replies.specs.Kept.{AreApart, AreOfPaths, IsBounded, IsChecked, IsKept, Judges, Stand};

use cl_bound::{ContractBounds, KnownBounds, Priced, bound};
use cl_check::check;
use cl_contracts::{Checked, Deployed, what_callers_know};
use cl_costs::CostTable;
use cl_engine::types_of;
use cl_entries::{Reply, Status, bytes_reply};
use cl_keyed::HashKey;
use cl_lines::{accepted_lines, refused_line};
use cl_sexpr::Refusal;
use cl_tx::{Bounds, SourceRefusal};
use cl_types::{Fault, NoMemory};
use cl_words::Source;
use indexmap::IndexMap;
use std::alloc::Global;

/// The contracts that were accepted, with their bounds.
#[derive(Drop)]
pub(crate) struct Accepted {
    deployed: Deployed,
    known: KnownBounds,
}

/// What becomes of a source, with its lines.
#[derive(Drop)]
pub(crate) enum Judged {
    Accepted(Vec<u8>),
    Refused(Vec<u8>),
}

/// The lines of an accepted contract.
fn accepted_text(alloc: Global, checked: &Checked, bounds: Bounds) -> Result<Vec<u8>, NoMemory>
    ensures { IfOk result (λ text. text.items
        ≡ accepted_lines checked.now.principal (Some bounds)
        (filter_map type_returned checked.now.definitions.items)) }
{
    let own = checked.parts();
    let types = types_of(alloc, &own.definitions)?;
    accepted_lines(alloc, &own.principal, &Some(bounds), &types)
}

/// The line of a source that breaks a rule.
fn refused_text(alloc: Global, source: &Source, refusal: Refusal) -> Result<Vec<u8>, NoMemory>
    ensures { IfOk result (λ text. text.items
        ≡ refused_line source.now.principal
        (record { rule = refusal.rule; span = refusal.span; names = refusal.names.items })) }
{
    refused_line(alloc, &source.principal, &SourceRefusal::new(refusal))
}

/// Puts a contract behind the others. No constant has a value here: nothing is evaluated.
fn keep(
    alloc: Global,
    accepted: &mut Accepted,
    checked: Checked,
    contract: ContractBounds,
) -> Result<(), NoMemory>
    requires new { contract_under checked.principal accepted.old.deployed.contracts ≡ None }
    requires fits { FitsAfter accepted.old.deployed checked }
    ensures kept { IfOk result
        (λ _. IsKept accepted.old.deployed.contracts checked
        accepted.new.deployed.contracts) }
    ensures known { IfOk result
        (λ _. (table : Table) →
        AreBounds table accepted.old.deployed.contracts accepted.old.known →
        AreBoundsOf table accepted.old.deployed.contracts checked contract →
        AreBounds table accepted.new.deployed.contracts accepted.new.known) }
{
    accepted.deployed.reserve()?;
    accepted.known.reserve()?;
    let constants = IndexMap::with_hasher(alloc, checked.hash_key());
    accepted.deployed.add(checked, constants);
    accepted.known.add(contract);
    Ok(())
}

/// Keeps a contract whose bounds are within the limit.
fn accept(
    alloc: Global,
    accepted: &mut Accepted,
    source: &Source,
    checked: Checked,
    priced: Priced,
    costs: &CostTable,
) -> Result<Judged, NoMemory>
    requires stand { Stand (function_of costs.now) accepted.old }
    requires new { contract_under source.now.principal accepted.old.deployed.contracts ≡ None }
    requires checked { IsChecked accepted.old.deployed.contracts source.now checked }
    requires bounded { IsBounded (function_of costs.now)
        accepted.old.deployed.contracts checked priced.bounds }
    requires kept { AreBoundsOf (function_of costs.now) accepted.old.deployed.contracts
        checked priced.contract }
    ensures judged { IfOk result
        (λ judged. Judges (function_of costs.now) accepted.old.deployed.contracts
        source.now judged accepted.new.deployed.contracts) }
    ensures stand { IfOk result (λ _. Stand (function_of costs.now) accepted.new) }
{
    what_callers_know();
    let text = accepted_text(alloc, &checked, priced.bounds)?;
    keep(alloc, accepted, checked, priced.contract)?;
    Ok(Judged::Accepted(text))
}

/// Judges a contract by its bounds.
fn judge_bounds(
    alloc: Global,
    accepted: &mut Accepted,
    source: &Source,
    checked: Checked,
    costs: &CostTable,
) -> Result<Judged, NoMemory>
    requires stand { Stand (function_of costs.now) accepted.old }
    requires new { contract_under source.now.principal accepted.old.deployed.contracts ≡ None }
    requires checked { IsChecked accepted.old.deployed.contracts source.now checked }
    ensures judged { IfOk result
        (λ judged. Judges (function_of costs.now) accepted.old.deployed.contracts
        source.now judged accepted.new.deployed.contracts) }
    ensures stand { IfOk result (λ _. Stand (function_of costs.now) accepted.new) }
{
    match bound(alloc, &checked, &accepted.known, costs) {
        Ok(priced) => accept(alloc, accepted, source, checked, priced, costs),
        Err(Fault::Refused(refusal)) => {
            Ok(Judged::Refused(refused_text(alloc, source, refusal)?))
        }
        Err(Fault::NoMemory) => Err(NoMemory),
    }
}

/// Judges a source after the contracts before it, and keeps its contract where it is accepted.
fn judge(
    alloc: Global,
    accepted: &mut Accepted,
    source: &Source,
    costs: &CostTable,
) -> Result<Judged, NoMemory>
    requires stand { Stand (function_of costs.now) accepted.old }
    requires new { contract_under source.now.principal accepted.old.deployed.contracts ≡ None }
    ensures judged { IfOk result
        (λ judged. Judges (function_of costs.now) accepted.old.deployed.contracts
        source.now judged accepted.new.deployed.contracts) }
    ensures stand { IfOk result (λ _. Stand (function_of costs.now) accepted.new) }
{
    let text = source.text.as_slice();
    match check(
        alloc,
        &accepted.deployed,
        &source.principal,
        text,
        source.version,
    ) {
        Ok(checked) => {
            checked.is_well_formed();
            judge_bounds(alloc, accepted, source, checked, costs)
        }
        Err(Fault::Refused(refusal)) => {
            Ok(Judged::Refused(refused_text(alloc, source, refusal)?))
        }
        Err(Fault::NoMemory) => Err(NoMemory),
    }
}

/// Puts lines behind others.
fn add_lines(text: &mut Vec<u8>, lines: &Vec<u8>) -> Result<(), NoMemory>
    ensures { IfOk result (λ _. text.new.items ≡ text.old.items ++ lines.now.items) }
{
    text.extend_from_slice(lines.as_slice())?;
    Ok(())
}

/// Judges sources, with the lines of each, up to the first that is refused, and gives the status.
fn judge_all(
    alloc: Global,
    accepted: &mut Accepted,
    text: &mut Vec<u8>,
    sources: &[Source],
    costs: &CostTable,
) -> Result<Status, NoMemory>
    requires apart { AreApart sources.now }
    requires none { accepted.old.deployed.contracts ≡ [] }
    requires stand { Stand (function_of costs.now) accepted.old }
    requires empty { text.old.items ≡ [] }
    ensures { IfOk result
        (λ status. IsReport (function_of costs.now) [] sources.now
        (record { text = text.new.items; status = status })) }
{
    for source in sources {
        let judged = judge(alloc, accepted, source, costs)?;
        match judged {
            Judged::Accepted(lines) => add_lines(text, &lines)?,
            Judged::Refused(line) => {
                add_lines(text, &line)?;
                return Ok(Status::Refused);
            }
        }
    }
    Ok(Status::Done)
}

/// The key of the texts of sources.
fn hash_key_of(sources: &[Source]) -> HashKey {
    let mut hash_key = HashKey::FIXED;
    for source in sources {
        hash_key = hash_key.with_bytes(source.text.as_slice());
    }
    hash_key
}

/// The report of sources of different contracts, up to the first that is refused.
fn report(alloc: Global, sources: &[Source], costs: &CostTable) -> Result<Reply, NoMemory>
    requires apart { AreApart sources.now }
    ensures { IfOk result (IsReport (function_of costs.now) [] sources.now) }
{
    let hash_key = hash_key_of(sources);
    let mut accepted = Accepted {
        deployed: Deployed::with_hash_key(alloc, hash_key),
        known: KnownBounds::with_hash_key(alloc, hash_key),
    };
    let mut text = Vec::new(alloc);
    let judged = judge_all(alloc, &mut accepted, &mut text, sources, costs);
    drop(accepted);
    let status = judged?;
    Ok(bytes_reply(text, status))
}

/// The reply to `check` for sources under paths whose names differ, as contracts under one address.
pub fn check_reply(alloc: Global, costs: &CostTable, sources: &[Source]) -> Result<Reply, NoMemory>
    requires { AreOfPaths sources.now }
    ensures { IfOk result (IsReport (function_of costs.now) [] sources.now) }
{
    report(alloc, sources, costs)
}
