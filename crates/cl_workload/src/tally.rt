//! What the entries of a workload come to, counted as they run.
ghost use Rattle.std.specs.Prelude.{◌≡◌, ◌++◌, ◌∷◌, [], List};
ghost use Rattle.cl_tx.specs.declared.outcome.TxResult.{TxResult as AResult};
ghost use Rattle.cl_workload.specs.Summary.{ok_of, err_of, runtime_of, counts_of, AreSmall};

use cl_shapes::Cost5;
use cl_tx::{Outcome, TxResult};
use std::marker::Model;

/// How many entries gave an ok and an err, and what all of them cost in runtime.
#[derive(Drop)]
pub struct Tally {
    ok: u64,
    err: u64,
    runtime: u128,
}

impl Model for Tally {
    ghost use Rattle.cl_workload.specs.Summary.{Counts};
    ghost use Rattle.cl_workload.specs.Codes.{counts_code};

    ghost Value = { Counts };

    ghost coded = { counts_code };

    ghost view = { λ t. record { ok = t.ok; err = t.err; runtime = t.runtime } };
}

fn ok_of(outcome: &Outcome) -> u64
    ensures { result ≡ ok_of outcome.now }
{
    match outcome {
        Outcome::Good(_) => 1,
        _ => 0,
    }
}

fn err_of(outcome: &Outcome) -> u64
    ensures { result ≡ err_of outcome.now }
{
    match outcome {
        Outcome::Bad(_) => 1,
        _ => 0,
    }
}

fn runtime_of(cost: &Option<Cost5>) -> u128
    ensures { result ≡ runtime_of cost.now }
{
    match cost {
        Some(cost) => cost.runtime,
        None => 0,
    }
}

impl Tally {
    /// Of no entry.
    pub fn new() -> Tally
        ensures { result ≡ counts_of [] }
    {
        Tally {
            ok: 0,
            err: 0,
            runtime: 0,
        }
    }

    /// Counts one more entry by its result. The results of a workload are small enough for it.
    pub fn add(&mut self, given: &TxResult)
        ensures { (results : List AResult) → AreSmall (results ++ given.now ∷ []) →
            self.old ≡ counts_of results → self.new ≡ counts_of (results ++ given.now ∷ []) }
    {
        self.ok = self.ok.saturating_add(ok_of(&given.outcome));
        self.err = self.err.saturating_add(err_of(&given.outcome));
        self.runtime = self.runtime.saturating_add(runtime_of(&given.cost));
    }

    pub(crate) fn ok(&self) -> u64
        ensures { result ≡ self.now.ok }
    {
        self.ok
    }

    pub(crate) fn err(&self) -> u64
        ensures { result ≡ self.now.err }
    {
        self.err
    }

    pub(crate) fn runtime(&self) -> u128
        ensures { result ≡ self.now.runtime }
    {
        self.runtime
    }
}
