//! Items of one token.
ghost use Rattle.std.specs.Prelude.{◌≡◌};
ghost use Rattle.cl_sexpr.specs.Lexed.{leaf};
ghost use Rattle.cl_sexpr.specs.Tree.{LeafAt};

use crate::sexpr::{Node, Sexpr, Span};
use cl_c32::{ContractName, Principal};
use cl_types::Name;

/// What an item of one token is.
#[derive(Drop)]
pub enum Leaf {
    Named(Name),
    Int(i128),
    Uint(u128),
    Buff(Vec<u8>),
    Ascii(Vec<u8>),
    Utf8(Vec<char>),
    Standing(Principal),
    Local(ContractName),
}

impl Leaf {
    /// The item that stands there.
    pub fn item(self, span: Span) -> Sexpr
        ensures { result ≡ LeafAt (leaf self) span }
    {
        let node = match self {
            Leaf::Named(name) => Node::Atom(name),
            Leaf::Int(value) => Node::Int(value),
            Leaf::Uint(value) => Node::Uint(value),
            Leaf::Buff(bytes) => Node::Buff(bytes),
            Leaf::Ascii(text) => Node::Ascii(text),
            Leaf::Utf8(text) => Node::Utf8(text),
            Leaf::Standing(principal) => Node::Standing(principal),
            Leaf::Local(name) => Node::Local(name),
        };
        Sexpr { node, span }
    }
}
