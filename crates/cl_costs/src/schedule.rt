ghost use Rattle.std.specs.Prelude.{◌≡◌};
ghost use Rattle.cl_costs.specs.Schedules.{AreEpochs, OneTableAnEpoch, EpochsNeverFall, FirstRules, EachRules};

use crate::table::CostTable;
use std::alloc::Global;
use std::marker::Model;

/// A table of costs, and at most 64 epochs, each with the height at which it begins and the table
/// that holds from there on. The heights are at least 1 and rise strictly.
pub struct Schedule {
    first: CostTable,
    epochs: Vec<(u64, CostTable)>,
}

impl Drop for Schedule {
    fn drop(self) {
        let Schedule { first: _, epochs } = self;
        drop(epochs);
    }
}

impl Model for Schedule {
    ghost use Rattle.cl_costs.specs.Schedules.{ScheduleSeen, AreEpochs};

    ghost Value = { ScheduleSeen };

    ghost view = { λ s. record { first = s.first; epochs = s.epochs.items } };

    ghost invariant = { λ s. AreEpochs s.epochs.items };
}

impl Schedule {
    ghost use Rattle.cl_costs.specs.Schedules.{always, epoch_at, table_at};

    /// One table for all heights.
    pub fn always(alloc: Global, table: CostTable) -> Schedule
        ensures { result ≡ always table }
    {
        Schedule::new(table, Vec::new(alloc))
    }

    /// The schedule of a table and epochs.
    pub fn new(first: CostTable, epochs: Vec<(u64, CostTable)>) -> Schedule
        requires { AreEpochs epochs.items }
        ensures { result ≡ record { first = first; epochs = epochs.items } }
    {
        Schedule { first, epochs }
    }

    /// How many epochs begin at the height or below it.
    pub fn epoch(&self, height: u64) -> u32
        ensures { result ≡ epoch_at self.now height }
    {
        let mut begun = 0;
        for i in 0..self.epochs.len() {
            if self.epochs[i].0 <= height {
                begun += 1;
            }
        }
        begun
    }

    /// The table of the last epoch that begins at the height or below it, or else the first.
    pub fn at(&self, height: u64) -> &CostTable
        ensures { result.now ≡ table_at self.now height }
    {
        let mut table = &self.first;
        for i in 0..self.epochs.len() {
            if self.epochs[i].0 <= height {
                table = &self.epochs[i].1;
            }
        }
        table
    }
}

/// Where the number of the epoch is the same, so is the table; and the number doesn't fall as the
/// height rises.
pub fn one_table_an_epoch()
    ensures table { OneTableAnEpoch }
    ensures rise { EpochsNeverFall }
{}

/// From the height of an epoch on, and below that of the next, the table is the epoch's, and the
/// number of the epoch is its place; below all of them the table is the first.
pub fn epochs_begin_at_their_heights()
    ensures first { FirstRules }
    ensures each { EachRules }
{}
