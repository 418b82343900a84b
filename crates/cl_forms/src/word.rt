//! The words that definitions begin with.
ghost use Rattle.std.specs.Prelude.{◌≡◌};
ghost use Rattle.cl_forms.specs.Items.{word_of, word_at};

use crate::names::is;
use cl_sexpr::{Node, Sexpr};
use cl_types::{Access, Name};

/// A define word.
#[derive(Clone, Copy)]
pub(crate) enum Word {
    Constant,
    Variable,
    MapOf,
    Fungible,
    NonFungible,
    Function(Access),
}

fn word_of(name: &Name) -> Option<Word>
    ensures { result ≡ word_of name.now }
{
    if is(name, "define-constant") {
        Some(Word::Constant)
    } else if is(name, "define-data-var") {
        Some(Word::Variable)
    } else if is(name, "define-map") {
        Some(Word::MapOf)
    } else if is(name, "define-fungible-token") {
        Some(Word::Fungible)
    } else if is(name, "define-non-fungible-token") {
        Some(Word::NonFungible)
    } else if is(name, "define-public") {
        Some(Word::Function(Access::Public))
    } else if is(name, "define-read-only") {
        Some(Word::Function(Access::ReadOnly))
    } else if is(name, "define-private") {
        Some(Word::Function(Access::Private))
    } else {
        None
    }
}

/// The define word that an item begins with.
pub(crate) fn word_at(item: &Sexpr) -> Option<Word>
    ensures { result ≡ word_at item.now }
{
    let Node::List(items) = &item.node else {
        return None;
    };
    match items.first() {
        Some(first) => match &first.node {
            Node::Atom(name) => word_of(name),
            _ => None,
        },
        None => None,
    }
}
