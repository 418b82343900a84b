//! Entries one after another, each with its step.
ghost use Rattle.std.specs.Prelude.{◌≡◌, ◌≤◌, IfOk};
ghost use Rattle.cl_file.specs.Entries.{height_after};
ghost use Rattle.cl_tx.specs.Step.{if_committed};
ghost use Rattle.cl_report.specs.Lines.{lines_of};
ghost use Rattle.cl_node_sound.specs.Sound.{HasParts};
ghost use Rattle.cl_entries.specs.Entries.{end_of, step_of, Ends, IsStepOf};

use crate::status::Step;
use cl_costs::Schedule;
use cl_engine::Node;
use cl_events::Event;
use cl_file::Row;
use cl_lines::AddressCache;
use cl_report::{lines, lines_with};
use cl_tx::{Entry, Outcome, TxResult};
use cl_types::NoMemory;
use std::alloc::Global;
use std::mem::replace;

/// How an entry ended.
#[derive(Clone, Copy)]
pub enum End {
    /// With what it changed: the contract is deployed, a value or an ok was given, or a block
    /// begins.
    Good,
    /// With an err.
    Bad,
    Aborted,
    Refused,
}

/// How an entry ended, and its lines.
#[derive(Drop)]
pub struct Ended {
    pub end: End,
    pub text: Vec<u8>,
}

fn end_of(outcome: &Outcome) -> End
    ensures { result ≡ end_of outcome.now }
{
    match outcome {
        Outcome::Moved | Outcome::Done | Outcome::Good(_) | Outcome::Plain(_) => End::Good,
        Outcome::Bad(_) => End::Bad,
        Outcome::Aborted(_) => End::Aborted,
        Outcome::Refused(_) => End::Refused,
    }
}

/// How an entry with this result ended, and its lines.
fn with_lines(
    alloc: Global,
    number: u32,
    entry: &Entry,
    given: &TxResult,
) -> Result<Ended, NoMemory>
    ensures end { IfOk result (λ e. e.end ≡ end_of given.now.outcome) }
    ensures text { IfOk result (λ e. e.text.items ≡ lines_of number entry.now given.now) }
{
    let text = lines(alloc, number, entry, given)?;
    Ok(Ended {
        end: end_of(&given.outcome),
        text,
    })
}

/// Does what the entry with this number asks for, under a schedule of costs. Its result isn't kept.
pub fn end_entry(
    alloc: Global,
    node: &mut Node,
    costs: &Schedule,
    number: u32,
    entry: &Entry,
) -> Result<Ended, NoMemory>
    requires { node.now.height ≤ height_after node.now.height entry.now }
    ensures { IfOk result
        (λ e. Ends costs.now number node.old entry.now node.new e.end e.text.items) }
{
    let given = node.step(alloc, entry, costs)?;
    with_lines(alloc, number, entry, &given)
}

/// Takes the events out of a result, where the entry was committed.
fn take_committed(alloc: Global, given: &mut TxResult) -> Row<Event>
    ensures { result ≡ if_committed given.old.outcome given.old.events }
{
    match &given.outcome {
        Outcome::Done | Outcome::Good(_) | Outcome::Plain(_) => {
            replace(&mut given.events, Row::new(Vec::new(alloc)))
        }
        Outcome::Moved | Outcome::Bad(_) | Outcome::Aborted(_) | Outcome::Refused(_) => {
            Row::new(Vec::new(alloc))
        }
    }
}

/// The step of an entry with this number and result, whose events are taken out.
fn step_of(
    alloc: Global,
    addresses: &mut AddressCache,
    number: u32,
    entry: &Entry,
    given: &mut TxResult,
) -> Result<Step, NoMemory>
    ensures { IfOk result (λ step. step ≡ step_of number entry.now given.old) }
{
    let text = lines_with(alloc, addresses, number, entry, given)?;
    Ok(Step {
        events: take_committed(alloc, given),
        bytes: Row::new(text),
    })
}

/// Does what the entry with this number asks for, and makes its step.
pub(crate) fn make_step(
    alloc: Global,
    addresses: &mut AddressCache,
    node: &mut Node,
    costs: &Schedule,
    number: u32,
    entry: &Entry,
) -> Result<Step, NoMemory>
    requires { node.now.height ≤ height_after node.now.height entry.now }
    ensures parts { HasParts entry.now }
    ensures made { IfOk result
        (λ step. IsStepOf costs.now node.old number entry.now step node.new) }
{
    let mut given = node.step(alloc, entry, costs)?;
    step_of(alloc, addresses, number, entry, &mut given)
}
