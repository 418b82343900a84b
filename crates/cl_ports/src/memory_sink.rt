ghost use Rattle.std.specs.Prelude.{◌≡◌, ◌++◌, [], take, Some, IsOk, OnOk, IfOk, if◌then◌else◌, is_ok};
ghost use Rattle.cl_ports.specs.Growth.{Grows, GrowsPart, next_count};
ghost use Rattle.cl_ports.specs.Memory.{calls_after_write, is_whole, space_of};
ghost use Rattle.cl_ports.specs.Sink.{CountsWriteFault};

use crate::calls::fails_at;
use crate::{Failed, Sink};
use cl_types::NoMemory;
use std::alloc::Global;
use std::marker::Model;

/// A sink in memory with room for so many bytes, of which the listed calls fail. Calls are
/// numbered from 1, and a write of an empty piece is no call.
#[derive(Drop)]
pub struct MemorySink {
    bytes: Vec<u8>,
    room: usize,
    fails: Vec<u32>,
    calls: u64,
    faults: u64,
}

impl Model for MemorySink {
    ghost use Rattle.std.specs.Prelude.{◌≤◌, vec_len, vec_capacity};
    ghost use Rattle.cl_ports.specs.Memory.{SinkState};

    ghost Value = { SinkState };

    ghost view = { λ m. record {
      bytes = m.bytes.items;
      room = m.room;
      fails = m.fails.items;
      calls = m.calls;
      faults = m.faults;
    } };

    // A write never allocates.
    ghost invariant = { λ m. (m.room ≤ vec_capacity m.bytes) × (vec_len m.bytes ≤ m.room) };
}

impl MemorySink {
    /// Takes room for so many bytes at once. The calls whose numbers are in `fails` are to fail.
    ///
    /// # Errors
    ///
    /// `NoMemory` where there is no memory for the room.
    pub fn new(alloc: Global, room: u32, fails: Vec<u32>) -> Result<Self, NoMemory>
        ensures { IfOk result (λ sink. sink ≡ record {
          bytes = [];
          room = room;
          fails = fails.items;
          calls = 0;
          faults = 0;
        }) }
    {
        let room = room as usize;
        Ok(MemorySink {
            bytes: Vec::with_capacity(alloc, room)?,
            room,
            fails,
            calls: 0,
            faults: 0,
        })
    }

    /// The bytes that were taken.
    pub fn bytes(&self) -> &[u8]
        ensures { result.now ≡ self.now.bytes }
    {
        &self.bytes
    }

    /// How many writes have failed.
    pub fn faults(&self) -> u64
        ensures { result ≡ self.now.faults }
    {
        self.faults
    }
}

impl Sink for MemorySink {
    ghost written = { λ m. Some m.bytes };

    ghost faults = { λ m. m.faults };

    fn write(&mut self, piece: &[u8]) -> Result<(), Failed>
        ensures whole { OnOk result (Grows (Some self.old.bytes) (Some self.new.bytes) piece.now) }
        ensures part { GrowsPart (Some self.old.bytes) (Some self.new.bytes) piece.now }
        ensures empty { piece.now ≡ [] → IsOk result }
        ensures cause { CountsWriteFault self.old.faults self.new.faults result }

        // Beyond the trait: the outcome, what was taken, and each count.
        ensures exactly { is_ok result ≡ is_whole self.old piece.now }
        ensures taken { self.new.bytes ≡ self.old.bytes ++ take (space_of self.old) piece.now }
        ensures counted { self.new.calls ≡ calls_after_write self.old.calls piece.now }
        ensures faults { self.new.faults ≡
            (if is_whole self.old piece.now then self.old.faults else next_count self.old.faults) }
        ensures fixed { (self.new.room ≡ self.old.room) × (self.new.fails ≡ self.old.fails) }
    {
        if piece.is_empty() {
            return Ok(());
        }
        self.calls = self.calls.saturating_add(1);
        let space = if fails_at(&self.fails, self.calls) {
            0
        } else {
            self.room - self.bytes.len()
        };
        let taken = piece.len().min(space);
        self.bytes.extend_from_slice(&piece[..taken]).unwrap();
        if taken < piece.len() {
            self.faults = self.faults.saturating_add(1);
            return Err(Failed);
        }
        Ok(())
    }
}
