//! The numbers by which calls are drawn.
ghost use Rattle.std.specs.Prelude.{◌≡◌, IfOk};
ghost use Rattle.cl_workload.specs.Workload.{next_number, drawn, call_for};

use crate::entries::call_for;
use cl_tx::Entry;
use cl_types::NoMemory;
use std::alloc::Global;
use std::marker::Model;

/// The calls of a workload, one after another. Contracts see the number that the last one was drawn
/// by.
#[derive(Drop)]
pub struct Draws {
    number: u64,
}

impl Model for Draws {
    ghost use Rattle.std.specs.Prelude.{ℕ};

    ghost Value = { ℕ };

    ghost view = { λ d. d.number };
}

fn next_number(number: u64) -> u64
    ensures { result ≡ next_number number }
{
    let product = u128::from(number) * 6_364_136_223_846_793_005 + 1_442_695_040_888_963_407;
    (product % 18_446_744_073_709_551_616) as u64
}

impl Draws {
    /// Before the first call.
    pub fn new(seed: u64) -> Draws
        ensures { result ≡ seed }
    {
        Draws { number: seed }
    }

    /// The next draw: the upper 31 bits of the sequence's next number.
    pub fn next_draw(&mut self) -> u64
        ensures number { self.new ≡ next_number self.old }
        ensures draw { result ≡ drawn self.new }
    {
        self.number = next_number(self.number);
        self.number / 8_589_934_592
    }

    /// The next call.
    pub fn next_call(&mut self, alloc: Global) -> Result<Entry, NoMemory>
        ensures number { self.new ≡ next_number self.old }
        ensures call { IfOk result (λ entry. entry ≡ call_for (drawn self.new)) }
    {
        let draw = self.next_draw();
        call_for(alloc, draw)
    }
}
