ghost use Rattle.std.specs.Prelude.{◌≡◌, ◌≤◌, ◌++◌, ◌∷◌, [], length, Some, IfOk, IfErr, OnOk, OnErr, map, string_bytes};
ghost use Rattle.std.specs.Option.{option_map};
ghost use Rattle.cl_ports.specs.declared.TheConstants.{MAX_FILE_BYTES};
ghost use Rattle.cl_ports.specs.Files.{IsContent, content_of};
ghost use Rattle.cl_ports.specs.Growth.{next_count};
ghost use Rattle.cl_ports.specs.Memory.{held_of, content_at, read_of, faults_after_read, GivesUnlessNoMemory};
ghost use Rattle.cl_ports.specs.Refusal.{CountsReadFault, IsTooLongOnlyIfSo, AddsName};

use crate::calls::fails_at;
use crate::{Files, MAX_FILE_BYTES, ReadRefusal};
use std::alloc::{AllocError, Global};
use std::marker::Model;

/// Files in memory, of which the listed calls fail. Calls are numbered from 1.
#[derive(Drop)]
pub struct MemoryFiles {
    alloc: Global,
    files: Vec<(String, Vec<u8>)>,
    fails: Vec<u32>,
    calls: u64,
    faults: u64,
    asked: Vec<String>,
}

impl Model for MemoryFiles {
    ghost use Rattle.std.specs.Prelude.{map, string_bytes};
    ghost use Rattle.cl_ports.specs.Memory.{FilesState, held_of};

    ghost Value = { FilesState };

    ghost view = { λ m. record {
      files = held_of m.files.items;
      fails = m.fails.items;
      calls = m.calls;
      faults = m.faults;
      asked = map string_bytes m.asked.items;
    } };
}

impl MemoryFiles {
    /// Holds these files, as names with bytes; of two entries with one name the first counts.
    /// The calls whose numbers are in `fails` are to fail.
    pub fn new(alloc: Global, files: Vec<(String, Vec<u8>)>, fails: Vec<u32>) -> Self
        ensures { result ≡ record {
          files = held_of files.items;
          fails = fails.items;
          calls = 0;
          faults = 0;
          asked = [];
        } }
    {
        MemoryFiles {
            alloc,
            files,
            fails,
            calls: 0,
            faults: 0,
            asked: Vec::new(alloc),
        }
    }

    /// The names that were asked for, in order.
    pub fn asked(&self) -> &[String]
        ensures { map string_bytes result.now ≡ self.now.asked }
    {
        &self.asked
    }

    /// How many reads have failed.
    pub fn faults(&self) -> u64
        ensures { result ≡ self.now.faults }
    {
        self.faults
    }
}

// The bytes under a name.
fn find<'a>(files: &'a [(String, Vec<u8>)], name: &str) -> Option<&'a [u8]>
    ensures { option_map (λ bytes. bytes.now) result ≡ content_of (held_of files.now) name.now }
{
    for (held, bytes) in files {
        if held.as_str() == name {
            return Some(bytes.as_slice());
        }
    }
    None
}

// The bytes under a name, unless this call is to fail.
fn find_at<'a>(
    files: &'a [(String, Vec<u8>)],
    fails: &[u32],
    call: u64,
    name: &str,
) -> Option<&'a [u8]>
    ensures { option_map (λ bytes. bytes.now) result ≡
        content_at (held_of files.now) fails.now call name.now }
{
    if fails_at(fails, call) {
        return None;
    }
    find(files, name)
}

// Notes that a name was asked for.
fn ask(alloc: Global, asked: &mut Vec<String>, name: &str) -> Result<(), AllocError>
    ensures ok { OnOk result
        (map string_bytes asked.new.items ≡ map string_bytes asked.old.items ++ name.now ∷ []) }
    ensures err { OnErr result (asked.new.items ≡ asked.old.items) }
{
    let owned = String::from_str(alloc, name)?;
    asked.push(owned)?;
    Ok(())
}

impl Files for MemoryFiles {
    ghost held = { λ m. Some m.files };

    ghost faults = { λ m. m.faults };

    ghost asked = { λ m. Some m.asked };

    fn read(&mut self, name: &str) -> Result<Vec<u8>, ReadRefusal>
        ensures short { IfOk result (λ bytes. length bytes.items ≤ MAX_FILE_BYTES) }
        ensures content { IfOk result
            (λ bytes. IsContent (Some self.old.files) name.now bytes.items) }
        ensures too_long { IfErr result (IsTooLongOnlyIfSo (Some self.old.files) name.now) }
        ensures kept { self.new.files ≡ self.old.files }
        ensures cause { CountsReadFault self.old.faults self.new.faults result }
        ensures asked { AddsName (Some self.old.asked) (Some self.new.asked) name.now result }

        // Beyond the trait: the outcome but for want of memory, and each count.
        ensures exactly { GivesUnlessNoMemory (read_of self.old name.now) result }
        ensures counted { self.new.calls ≡ next_count self.old.calls }
        ensures faults { self.new.faults ≡ faults_after_read self.old.faults result }
        ensures fails { self.new.fails ≡ self.old.fails }
    {
        self.calls = self.calls.saturating_add(1);
        ask(self.alloc, &mut self.asked, name)?;
        let Some(bytes) = find_at(&self.files, &self.fails, self.calls, name) else {
            self.faults = self.faults.saturating_add(1);
            return Err(ReadRefusal::Failed);
        };
        if bytes.len() > MAX_FILE_BYTES {
            return Err(ReadRefusal::TooLong {
                taken: MAX_FILE_BYTES as u64 + 1,
            });
        }
        Ok(bytes.to_vec(self.alloc)?)
    }
}
