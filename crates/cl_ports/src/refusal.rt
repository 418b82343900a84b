use std::alloc::AllocError;
use thiserror::Error;

/// Why the bytes of a file were not given.
#[derive(Clone, Copy, Debug, PartialEq, Eq, Error)]
pub enum ReadRefusal {
    /// The file is missing or could not be read. This is a fault of the files, and is counted.
    #[error("the file could not be read")]
    Failed,
    /// The file is longer than a file may be: `taken` bytes of it were read, the last of them
    /// one too many.
    #[error("the file is too long: {taken} bytes were taken")]
    TooLong { taken: u64 },
    /// Memory ran out. This is no fault of the files.
    #[error("out of memory")]
    NoMemory,
}

impl From<AllocError> for ReadRefusal {
    ghost use Rattle.cl_ports.specs.declared.refusal.ReadRefusal.TheVariants.{NoMemory};
    ghost use Rattle.std.specs.Prelude.{◌≡◌};

    ghost from_gives = { λ _ refusal. refusal ≡ NoMemory };

    fn from(_: AllocError) -> ReadRefusal {
        ReadRefusal::NoMemory
    }
}

/// A write of which the sink didn't take the whole piece.
#[derive(Clone, Copy, Debug, PartialEq, Eq, Error)]
#[error("the write failed")]
pub struct Failed;
