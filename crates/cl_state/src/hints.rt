//! Where the notes of a place are.
use cl_keyed::HashKey;
use cl_tables::Note;
use cl_tokens::{Key, Stored, Table};
use cl_types::NoMemory;
use std::alloc::Global;

/// The number of a note, counted from 1; 0 for none.
#[derive(Drop)]
struct Number {
    number: usize,
}

impl Stored for Number {
    fn duplicate(&self) -> Result<Number, NoMemory> {
        Ok(Number {
            number: self.number,
        })
    }
}

/// Places have numbers once there are more notes than this, or once the notes that were added keep more bytes than `SMALL`: few
/// entries do either, and the others pay for no table.
const FEW: usize = 1024;

const SMALL: usize = 4 * 1024 * 1024;

/// For each place the number of its last note, and for each note that of the one before on its place. They only say where to look:
/// whether that note is on the place is read off the note. A hint may be missing: of the first notes, and where there was no memory.
pub(crate) struct Hints {
    alloc: Global,
    last: Table<Number>,
    earlier: Vec<usize>,
    /// Whether places have numbers.
    numbered: bool,
    /// The bytes that the notes added since the last `clear` keep.
    bytes: usize,
}

impl Drop for Hints {
    fn drop(self) {
        let Hints {
            alloc: _,
            last,
            earlier,
            numbered: _,
            bytes: _,
        } = self;
        drop(last);
        drop(earlier);
    }
}

impl Hints {
    pub(crate) fn new(alloc: Global, hash_key: HashKey) -> Hints {
        Hints {
            alloc,
            last: Table::new(alloc, hash_key),
            earlier: Vec::new(alloc),
            numbered: false,
            bytes: 0,
        }
    }

    /// The number of the last note that may be on the place of this one; 0 where none is.
    pub(crate) fn last(&self, note: &Note) -> usize {
        if !self.numbered {
            return 0;
        }
        let Some(key) = note.key() else {
            return 0;
        };
        match self.last.get(key) {
            Some(last) => last.number,
            None => 0,
        }
    }

    /// Of the note with this index, the number of the one before that may be on its place; 0 where none is.
    pub(crate) fn earlier(&self, index: usize) -> usize {
        match self.earlier.get(index) {
            Some(number) => *number,
            None => 0,
        }
    }

    // of a place that has had a number
    fn set(&mut self, note: &Note, number: usize) {
        if !self.numbered {
            return;
        }
        let Some(key) = note.key() else {
            return;
        };
        if self.last.get(key).is_some() {
            self.last.write(key, Some(Number { number }));
        }
    }

    fn put(&mut self, key: &Key, number: usize) {
        match self.last.make_slot(key) {
            Ok(()) => self.last.write(key, Some(Number { number })),
            Err(NoMemory) => {}
        }
    }

    /// Sees that a note is found, which gets this index, behind the others.
    pub(crate) fn add(&mut self, note: &Note, index: usize, before: usize) {
        if self.earlier.len() != index {
            return;
        }
        match self.earlier.push(before) {
            Ok(()) => {}
            Err(_) => return,
        }
        self.bytes = self.bytes.saturating_add(note.size());
        self.numbered = self.numbered || index >= FEW || self.bytes > SMALL;
        if !self.numbered {
            return;
        }
        if let Some(key) = note.key() {
            self.put(key, index.saturating_add(1));
        }
    }

    /// Sees that the last note, which had this index and is taken away, isn't found any more.
    pub(crate) fn remove_last(&mut self, note: &Note, index: usize) {
        let before = self.earlier(index);
        self.earlier.truncate(index);
        self.set(note, before);
    }

    /// Sees that a note that is let go isn't found any more, but the one before on its place.
    pub(crate) fn fall_back(&mut self, note: &Note, before: usize) {
        self.set(note, before);
    }

    /// Sees that a note is found at another index, which comes before its own.
    pub(crate) fn relocate(&mut self, note: &Note, from: usize, to: usize) {
        if to < self.earlier.len() && from < self.earlier.len() {
            self.earlier.swap(to, from);
        } else {
            self.earlier.truncate(to);
        }
        self.set(note, to.saturating_add(1));
    }

    /// Keeps the first so many.
    pub(crate) fn truncate(&mut self, count: usize) {
        self.earlier.truncate(count);
    }

    /// Sees that no note is found. Takes no memory.
    pub(crate) fn clear(&mut self) {
        self.earlier.clear();
        self.numbered = false;
        self.bytes = 0;
        self.last = Table::new(self.alloc, self.last.hash_key());
    }
}
