//! The heights of entries.
ghost use Rattle.std.specs.Prelude.{◌↔◌, IsTrue};
ghost use Rattle.cl_file.specs.Entries.{NeverFall};

use cl_tx::Entry;

/// Whether the heights of the blocks among these entries never fall, from a height on.
pub fn never_fall(from: u64, entries: &[Entry]) -> bool
    ensures { IsTrue result ↔ NeverFall from entries.now }
{
    let mut height = from;
    for entry in entries {
        if let Entry::Block { height: next } = entry {
            if *next < height {
                return false;
            }
            height = *next;
        }
    }
    true
}
