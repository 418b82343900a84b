//! The names that mean something in a literal.
ghost use Rattle.std.specs.Prelude.{◌≡◌};
ghost use Rattle.cl_text.specs.Literal.{name_of, word_of, word_in};

use cl_sexpr::{Node, Sexpr};
use cl_types::Name;

/// A name that is a value or stands in front of one's parts, or any other.
#[derive(Clone, Copy)]
pub enum Word {
    True,
    False,
    None,
    Some,
    Ok,
    Err,
    List,
    Tuple,
    Other,
}

/// The word that a name is.
pub(crate) fn word_of(name: &Name) -> Word
    ensures { result ≡ word_of name.now }
{
    let bytes = name.bytes();
    if bytes == b"true".as_slice() {
        Word::True
    } else if bytes == b"false".as_slice() {
        Word::False
    } else if bytes == b"none".as_slice() {
        Word::None
    } else if bytes == b"some".as_slice() {
        Word::Some
    } else if bytes == b"ok".as_slice() {
        Word::Ok
    } else if bytes == b"err".as_slice() {
        Word::Err
    } else if bytes == b"list".as_slice() {
        Word::List
    } else if bytes == b"tuple".as_slice() {
        Word::Tuple
    } else {
        Word::Other
    }
}

/// The name that an item is.
pub(crate) fn name_of(item: &Sexpr) -> Option<Name>
    ensures { result ≡ name_of item.now }
{
    match &item.node {
        Node::Atom(name) => Some(*name),
        _ => None,
    }
}

/// The word that an item is.
pub(crate) fn word_in(item: &Sexpr) -> Word
    ensures { result ≡ word_in (name_of item.now) }
{
    match name_of(item) {
        Some(name) => word_of(&name),
        None => Word::Other,
    }
}
