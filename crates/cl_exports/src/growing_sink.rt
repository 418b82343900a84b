//! A sink that grows.
ghost use Rattle.std.specs.Prelude.{◌≡◌, [], Some, IsOk, OnOk};
ghost use Rattle.cl_ports.specs.Growth.{Grows, GrowsPart};
ghost use Rattle.cl_ports.specs.Sink.{CountsWriteFault};

use cl_ports::{Failed, Sink};
use std::alloc::Global;

/// A sink in memory that takes as many bytes as there is memory for.
#[derive(Drop)]
pub struct GrowingSink {
    pub bytes: Vec<u8>,
    pub faults: u64,
}

impl GrowingSink {
    /// An empty sink. It takes no memory yet.
    pub(crate) fn new(alloc: Global) -> GrowingSink
        ensures { result.bytes.items ≡ [] }
    {
        GrowingSink {
            bytes: Vec::new(alloc),
            faults: 0,
        }
    }
}

impl Sink for GrowingSink {
    ghost use Rattle.std.specs.Prelude.{Some};

    ghost written = { λ s. Some s.bytes.items };

    ghost faults = { λ s. s.faults };

    fn write(&mut self, piece: &[u8]) -> Result<(), Failed>
        ensures whole { OnOk result
            (Grows (Some self.old.bytes.items) (Some self.new.bytes.items) piece.now) }
        ensures part { GrowsPart (Some self.old.bytes.items) (Some self.new.bytes.items) piece.now }
        ensures empty { piece.now ≡ [] → IsOk result }
        ensures cause { CountsWriteFault self.old.faults self.new.faults result }
    {
        if piece.is_empty() {
            return Ok(());
        }
        match self.bytes.extend_from_slice(piece) {
            Ok(()) => Ok(()),
            Err(_) => {
                self.faults = self.faults.saturating_add(1);
                Err(Failed)
            }
        }
    }
}
