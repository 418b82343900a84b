ghost use Rattle.std.specs.Prelude.{◌≡◌, ℕ, List, [], Option, IsOk, OnOk};
ghost use Rattle.cl_ports.specs.Growth.{Grows, GrowsPart};
ghost use Rattle.cl_ports.specs.Sink.{CountsWriteFault};

use crate::Failed;

/// What takes the bytes that a program writes.
pub trait Sink {
    /// The bytes that were taken, where that is told.
    ghost written: { Self → Option (List ℕ) };

    /// How often a write has failed. The count stays at the last value of a `u64`.
    ghost faults: { Self → ℕ };

    /// Writes the whole piece.
    ///
    /// # Errors
    ///
    /// `Failed` where less than the whole piece was taken: a first part of it, or nothing.
    fn write(&mut self, piece: &[u8]) -> Result<(), Failed>
        ensures whole { OnOk result (Grows (written self.old) (written self.new) piece.now) }
        ensures part { GrowsPart (written self.old) (written self.new) piece.now }
        ensures empty { piece.now ≡ [] → IsOk result }
        ensures cause { CountsWriteFault (faults self.old) (faults self.new) result };
}
