// The trusted edge: real files and standard output. Nothing is told of what they hold or took.
ghost use Rattle.std.specs.Prelude.{◌≡◌, [], None, IsOk, OnOk};
ghost use Rattle.cl_ports.specs.Growth.{Grows, GrowsPart};
ghost use Rattle.cl_ports.specs.Sink.{CountsWriteFault};

use crate::{Failed, Files, MAX_FILE_BYTES, ReadRefusal, Sink};
use std::alloc::Global;
use std::io::{ErrorKind, Read, Write};
use std::marker::Model;
use std::{fs, io, rt};

/// Real files. A name is a path. Contracts see them as their count of faults.
#[derive(Drop)]
pub struct DiskFiles<'a, R: rt::Files> {
    rt: &'a R,
    alloc: Global,
    faults: u64,
}

impl<'a, R: rt::Files> Model for DiskFiles<'a, R> {
    ghost use Rattle.std.specs.Prelude.{ℕ};

    ghost Value = { ℕ };

    ghost view = { λ files. files.faults };
}

impl<'a, R: rt::Files> DiskFiles<'a, R> {
    /// The files of this runtime; none has failed yet.
    pub fn new(alloc: Global, rt: &'a R) -> Self
        ensures { result ≡ 0 }
    {
        DiskFiles {
            rt,
            alloc,
            faults: 0,
        }
    }
}

// The bytes of a file, or one byte more than a file may have.
fn read_some<R: rt::Files>(rt: &R, alloc: Global, name: &str) -> io::Result<Vec<u8>> {
    let file = fs::open(rt, name)?;
    let mut bytes = Vec::new(alloc);
    file.take(MAX_FILE_BYTES as u64 + 1)
        .read_to_end(&mut bytes)?;
    Ok(bytes)
}

impl<R: rt::Files> Files for DiskFiles<'_, R> {
    ghost held = { λ _. None };

    ghost faults = { λ faults. faults };

    ghost asked = { λ _. None };

    fn read(&mut self, name: &str) -> Result<Vec<u8>, ReadRefusal> {
        match read_some(self.rt, self.alloc, name) {
            Ok(bytes) => {
                if bytes.len() > MAX_FILE_BYTES {
                    return Err(ReadRefusal::TooLong {
                        taken: MAX_FILE_BYTES as u64 + 1,
                    });
                }
                Ok(bytes)
            }
            Err(e) => {
                if e.kind() == ErrorKind::OutOfMemory {
                    return Err(ReadRefusal::NoMemory);
                }
                self.faults = self.faults.saturating_add(1);
                Err(ReadRefusal::Failed)
            }
        }
    }
}

/// Standard output, or another writer.
#[derive(Drop)]
pub struct StandardOutput<W> {
    writer: W,
    faults: u64,
}

impl<W> Model for StandardOutput<W> {
    ghost use Rattle.cl_ports.specs.Real.{OutputState};

    ghost Value = { OutputState W };

    ghost view = { λ sink. record {
      writer = sink.writer;
      faults = sink.faults;
    } };
}

impl<W: Write> StandardOutput<W> {
    /// Writes to this writer; no write has failed yet.
    pub fn new(writer: W) -> Self
        ensures { result ≡ record {
          writer = writer;
          faults = 0;
        } }
    {
        StandardOutput { writer, faults: 0 }
    }
}

impl<W: Write> Sink for StandardOutput<W> {
    ghost written = { λ _. None };

    ghost faults = { λ sink. sink.faults };

    fn write(&mut self, piece: &[u8]) -> Result<(), Failed>
        ensures whole { OnOk result (Grows None None piece.now) }
        ensures part { GrowsPart None None piece.now }
        ensures empty { piece.now ≡ [] → IsOk result }
        ensures cause { CountsWriteFault self.old.faults self.new.faults result }

        // Beyond the trait: a writer that tells what it holds was given the whole piece.
        ensures passed_on { OnOk result
            (Grows (W.contents self.old.writer) (W.contents self.new.writer) piece.now) }
    {
        if piece.is_empty() {
            return Ok(());
        }
        match self.writer.write_all(piece) {
            Ok(()) => Ok(()),
            Err(_) => {
                self.faults = self.faults.saturating_add(1);
                Err(Failed)
            }
        }
    }
}
