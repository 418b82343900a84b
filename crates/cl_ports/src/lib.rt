//! The outside of the engine: the files that it reads and the sink that it writes to.
//!
//! Code is written over the traits `Files` and `Sink`, and proved once against what they promise.
//! It runs over the two forms in memory, which tell all that they hold and fail where they are
//! told to, and over real files and standard output, of whose content nothing is told.
#![tactic(auto)]

mod calls;
mod files;
mod memory_files;
mod memory_sink;
mod real;
mod refusal;
mod sink;

pub use calls::fails_at;
pub use files::Files;
pub use memory_files::MemoryFiles;
pub use memory_sink::MemorySink;
pub use real::{DiskFiles, StandardOutput};
pub use refusal::{Failed, ReadRefusal};
pub use sink::Sink;

/// The greatest length of a file, in bytes: 16 MiB.
pub const MAX_FILE_BYTES: usize = 16_777_216;
