//! What is kept of a change, so that it can be undone.
ghost use Rattle.std.specs.Prelude.{◌≡◌};
ghost use Rattle.cl_tokens.specs.Table.{is_key};
ghost use Rattle.cl_tables.specs.Covering.{covers};

use crate::held::HeldValue;
use cl_tokens::{Act, Key};

/// A change. A write keeps the value that it replaced, an act on a ledger is undone by the act the other way, and the token that
/// was defined last is the last of its kind. A token is named by its number among those of its kind.
#[derive(Drop)]
pub enum Note {
    Variable(Key, Option<HeldValue>),
    Entry(Key, Option<HeldValue>),
    Stx(Act),
    Fungible(usize, Act),
    Asset(usize, Key, Option<Key>),
    FungibleDefined,
    NonFungibleDefined,
}

fn bytes_of_write(key: &Key, before: &Option<HeldValue>) -> usize {
    let bytes = key.bytes().len();
    match before {
        Some(value) => bytes.saturating_add(value.size()),
        None => bytes,
    }
}

fn is_key(a: &Key, b: &Key) -> bool
    ensures { result ≡ is_key a.now b.now }
{
    a.cmp(b).is_eq()
}

impl Note {
    /// Of a write, the key of its variable or its entry.
    pub fn key(&self) -> Option<&Key> {
        match self {
            Note::Variable(key, _) => Some(key),
            Note::Entry(key, _) => Some(key),
            _ => None,
        }
    }

    /// Of a write, the bytes of its key and of the wire form of the value that it replaced; else 0.
    pub fn size(&self) -> usize {
        match self {
            Note::Variable(key, before) => bytes_of_write(key, before),
            Note::Entry(key, before) => bytes_of_write(key, before),
            _ => 0,
        }
    }

    /// Whether both are writes to the same place, so that the earlier one alone is needed to undo both.
    pub fn covers(&self, later: &Note) -> bool
        ensures { result ≡ covers self.now later.now }
    {
        match (self, later) {
            (Note::Variable(key, _), Note::Variable(later, _)) => is_key(key, later),
            (Note::Entry(key, _), Note::Entry(later, _)) => is_key(key, later),
            _ => false,
        }
    }
}
