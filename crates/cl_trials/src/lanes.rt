//! Calls that are tried in lanes: two calls write the variable that both read, so the second is tried again.
ghost use Rattle.std.specs.Prelude.{◌<◌, ◌^◌, length};

use cl_costs::{CostTable, Schedule};
use cl_lanes::{Held, Move, Progress, lanes};
use cl_tx::{Outcome, TxFile, TxResult, read};
use cl_values::Kind;
use std::alloc::Global;
use std::test::Fail;

// A contract that counts, and two calls that count.
const FILE: &str = "{\"version\": 1, \"genesis\": [], \"entries\": [
{\"deploy\": {\"sender\": \"SP000000000000000000002Q6VF78\", \"name\": \"n\", \"source\": \"\
(define-data-var n uint u0)\
(define-public (inc) (begin (var-set n (+ (var-get n) u1)) (ok (var-get n))))\"}},
{\"call\": {\"sender\": \"SP000000000000000000002Q6VF78\", \"contract\": \"SP000000000000000000002Q6VF78.n\", \"function\": \"inc\", \"args\": []}},
{\"call\": {\"sender\": \"SP000000000000000000002Q6VF78\", \"contract\": \"SP000000000000000000002Q6VF78.n\", \"function\": \"inc\", \"args\": []}}
]}";

const MOVES: [Move; 8] = [
    Move::Barrier,
    Move::Run { lane: 0, ahead: 0 },
    Move::Run { lane: 1, ahead: 1 },
    Move::Commit { lane: 1 },
    Move::Commit { lane: 0 },
    Move::Commit { lane: 1 },
    Move::Run { lane: 1, ahead: 0 },
    Move::Commit { lane: 1 },
];

fn file(alloc: Global) -> Result<TxFile, Fail> {
    match read(alloc, FILE.as_bytes()) {
        Ok(file) => Ok(file),
        Err(_) => Err("a transaction file".into()),
    }
}

fn made(alloc: Global, moves: &[Move]) -> Result<Progress, Fail>
    requires few { length moves.now < 2 ^ 32 }
{
    let file = file(alloc)?;
    let costs = Schedule::always(alloc, CostTable::builtin());
    Ok(lanes(alloc, &file, &costs, 2, moves)?)
}

fn is_ok(given: &TxResult, wanted: u128) -> bool {
    match &given.outcome {
        Outcome::Good(value) => match &value.value().kind {
            Kind::Uint(number) => *number == wanted,
            _ => false,
        },
        _ => false,
    }
}

// the results are those of the deployment and of so many calls
fn counts_to(results: &[TxResult], calls: usize) -> bool {
    if results.is_empty()
        || results.len() - 1 != calls
        || !matches!(&results[0].outcome, Outcome::Done)
    {
        return false;
    }
    for k in 0..calls {
        if !is_ok(&results[k + 1], k as u128 + 1) {
            return false;
        }
    }
    true
}

fn has_counted(progress: &Progress, redone: u32, skipped: u32) -> bool {
    progress.redone() == redone && progress.skipped() == skipped
}

// tried before any call was committed
fn holds(lane: &Option<Held>, entry: u32) -> bool {
    match lane {
        Some(held) => held.entry == entry && held.start == 1 && is_ok(&held.trial.result, 1),
        None => false,
    }
}

#[test]
fn trials_are_held(rt: HostRuntime) -> Result<(), Fail> {
    let progress = made(rt.alloc(), &MOVES[..3])?;
    let held = progress.held();
    assert_eq!(rt; held.len(), 2);
    assert!(rt; counts_to(progress.results(), 0) && has_counted(&progress, 0, 0));
    assert!(rt; holds(&held[0], 1) && holds(&held[1], 2));
    Ok(())
}

#[test]
fn what_was_written_since_is_redone(rt: HostRuntime) -> Result<(), Fail> {
    let progress = made(rt.alloc(), &MOVES[..6])?;
    let held = progress.held();
    assert_eq!(rt; held.len(), 2);
    assert!(rt; counts_to(progress.results(), 1) && has_counted(&progress, 1, 1));
    assert!(rt; held[0].is_none() && held[1].is_none());
    Ok(())
}

#[test]
fn all_calls_are_committed(rt: HostRuntime) -> Result<(), Fail> {
    let progress = made(rt.alloc(), &MOVES)?;
    assert!(rt; counts_to(progress.results(), 2) && has_counted(&progress, 1, 1));
    Ok(())
}
