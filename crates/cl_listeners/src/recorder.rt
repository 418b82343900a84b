//! A listener in memory.
ghost use Rattle.std.specs.Prelude.{◌≡◌, ◌++◌, [], true, Some, IsErr, OnOk, OnErr, is_ok, if◌then◌else◌};
ghost use Rattle.cl_ports.specs.Growth.{next_count};
ghost use Rattle.cl_ports.specs.Memory.{is_listed};
ghost use Rattle.cl_ports.specs.Sink.{CountsWriteFault};
ghost use Rattle.cl_listeners.specs.Hearing.{with_more, one};

use crate::{Deaf, Listener};
use cl_events::Event;
use cl_ports::fails_at;
use cl_types::NoMemory;
use std::alloc::Global;
use std::marker::Model;

/// Keeps copies of the events that it hears. The calls whose numbers are listed fail, and so does one for which there is no
/// memory. Calls are numbered from 1.
#[derive(Drop)]
pub struct Recorder {
    heard: Vec<Event>,
    fails: Vec<u32>,
    calls: u64,
    faults: u64,
}

impl Model for Recorder {
    ghost use Rattle.cl_events.specs.contracts.event.Event as event;
    ghost use Rattle.cl_listeners.specs.Recording.{RecorderState};
    ghost use Rattle.cl_listeners.specs.Codes.{recorder_code};

    ghost Value = { RecorderState };

    ghost coded = { recorder_code event.the_row.coded };

    ghost view = { λ r. record {
      heard = r.heard.items;
      fails = r.fails.items;
      calls = r.calls;
      faults = r.faults;
    } };
}

// Puts a copy of the event behind those that were heard.
fn keep(heard: &mut Vec<Event>, event: &Event) -> Result<(), NoMemory>
    ensures kept { OnOk result (heard.new.items ≡ heard.old.items ++ one event.now) }
    ensures refused { OnErr result (heard.new.items ≡ heard.old.items) }
{
    let copy = event.copy(*heard.allocator())?;
    heard.push(copy)?;
    Ok(())
}

impl Recorder {
    /// It has heard nothing. The calls whose numbers are in `fails` are to fail.
    pub fn new(alloc: Global, fails: Vec<u32>) -> Recorder
        ensures { result ≡ record {
          heard = [];
          fails = fails.items;
          calls = 0;
          faults = 0;
        } }
    {
        Recorder {
            heard: Vec::new(alloc),
            fails,
            calls: 0,
            faults: 0,
        }
    }
}

impl Listener for Recorder {
    ghost heard = { λ r. Some r.heard };

    ghost faults = { λ r. r.faults };

    fn hear(&mut self, event: &Event) -> Result<(), Deaf>
        ensures heard { OnOk result (Some self.new.heard ≡ with_more (one event.now) (Some self.old.heard)) }
        ensures deaf { OnErr result (Some self.new.heard ≡ Some self.old.heard) }
        ensures cause { CountsWriteFault self.old.faults self.new.faults result }

        // Beyond the trait: each listed call fails, and each count.
        ensures listed { is_listed self.old.fails (next_count self.old.calls) ≡ true → IsErr result }
        ensures counted { self.new.calls ≡ next_count self.old.calls }
        ensures faults { self.new.faults ≡ (if is_ok result then self.old.faults else next_count self.old.faults) }
        ensures fixed { self.new.fails ≡ self.old.fails }
    {
        self.calls = self.calls.saturating_add(1);
        if fails_at(&self.fails, self.calls) || keep(&mut self.heard, event).is_err() {
            self.faults = self.faults.saturating_add(1);
            return Err(Deaf);
        }
        Ok(())
    }

    fn told(&self) -> Option<&[Event]> {
        Some(self.heard.as_slice())
    }
}
