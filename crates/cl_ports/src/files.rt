ghost use Rattle.std.specs.Prelude.{◌≡◌, ◌≤◌, ℕ, List, length, Option, IfOk, IfErr};
ghost use Rattle.cl_ports.specs.declared.TheConstants.{MAX_FILE_BYTES};
ghost use Rattle.cl_ports.specs.Files.{Held, IsContent};
ghost use Rattle.cl_ports.specs.Refusal.{CountsReadFault, IsTooLongOnlyIfSo, AddsName};

use crate::ReadRefusal;

/// Files that are read whole, each by its name.
pub trait Files {
    /// What is held under each name, where that is told.
    ghost held: { Self → Option Held };

    /// How often a read has failed. The count stays at the last value of a `u64`.
    ghost faults: { Self → ℕ };

    /// The names that were asked for, in order, where that is told.
    ghost asked: { Self → Option (List (List ℕ)) };

    /// Reads the file with this name. Where it is told what is held, a missing file is a fault.
    ///
    /// # Errors
    ///
    /// `Failed` where the file is missing or can't be read, `TooLong` where it has more than
    /// `MAX_FILE_BYTES` bytes, `NoMemory` where memory runs out.
    fn read(&mut self, name: &str) -> Result<Vec<u8>, ReadRefusal>
        // The bytes are those that are held, and never too many, whatever is told.
        ensures short { IfOk result (λ bytes. length bytes.items ≤ MAX_FILE_BYTES) }
        ensures content { IfOk result (λ bytes. IsContent (held self.old) name.now bytes.items) }
        ensures too_long { IfErr result (IsTooLongOnlyIfSo (held self.old) name.now) }

        // No read changes what is held; each is counted where it fails, and noted.
        ensures kept { held self.new ≡ held self.old }
        ensures cause { CountsReadFault (faults self.old) (faults self.new) result }
        ensures asked { AddsName (asked self.old) (asked self.new) name.now result };
}
