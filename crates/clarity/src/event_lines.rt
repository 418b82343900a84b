//! The listener of the program.
ghost use Rattle.std.specs.Prelude.{None};

use cl_events::Event;
use cl_lines::{AddressCache, event_line_with};
use cl_listeners::{Deaf, Listener};
use cl_ports::Sink;
use std::alloc::Global;

/// Writes the line of each event to a sink. It counts each line that isn't written, also for want
/// of memory.
#[derive(Drop)]
pub(crate) struct EventLines<K> {
    alloc: Global,
    addresses: AddressCache,
    out: K,
    faults: u64,
}

impl<K> EventLines<K> {
    /// Writes to this sink, by the texts of addresses that are kept here.
    pub(crate) fn new(alloc: Global, addresses: AddressCache, out: K) -> Self {
        EventLines {
            alloc,
            addresses,
            out,
            faults: 0,
        }
    }
}

// Writes the line, and says whether it was written.
fn is_written<K: Sink>(
    alloc: Global,
    addresses: &mut AddressCache,
    out: &mut K,
    event: &Event,
) -> bool {
    match event_line_with(alloc, addresses, event) {
        Ok(line) => out.write(&line).is_ok(),
        Err(_) => false,
    }
}

impl<K: Sink + Drop> Listener for EventLines<K> {
    ghost heard = { λ _. None };

    ghost faults = { λ lines. lines.faults };

    fn hear(&mut self, event: &Event) -> Result<(), Deaf> {
        if is_written(self.alloc, &mut self.addresses, &mut self.out, event) {
            return Ok(());
        }
        self.faults = self.faults.saturating_add(1);
        Err(Deaf)
    }

    fn told(&self) -> Option<&[Event]> {
        None
    }
}
