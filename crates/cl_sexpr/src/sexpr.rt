//! Items: what a text is made of, each with the place where it stands.
ghost use Rattle.std.specs.Prelude.{◌≡◌, IfOk, option_map};
ghost use Rattle.cl_sexpr.specs.Tree.{forest, items_in};

use cl_c32::{ContractName, Principal};
use cl_types::Name;
use std::alloc::{AllocError, Global};
use std::marker::Model;

/// Places of bytes in a text, from `start` up to `end`, which is not included.
#[derive(Clone, Copy)]
pub struct Span {
    pub start: u32,
    pub end: u32,
}

/// What an item is.
#[derive(Drop)]
#[cycle(sexpr)]
pub enum Node {
    /// A name.
    Atom(Name),
    /// An int, of 128 bits with a sign.
    Int(i128),
    /// A uint, of 128 bits.
    Uint(u128),
    /// A buffer, as its bytes.
    Buff(Vec<u8>),
    /// A string of ASCII characters, with its escapes resolved.
    Ascii(Vec<u8>),
    /// A string of Unicode characters, with its escapes resolved.
    Utf8(Vec<char>),
    /// A principal that is written out.
    Standing(Principal),
    /// A contract under the address of the contract that the text is of.
    Local(ContractName),
    /// A list, in round brackets.
    List(Vec<Sexpr>),
    /// A tuple, as its keys and items in the order of the text. A key may stand twice.
    Tuple(Vec<(Name, Sexpr)>),
}

/// An item and the bytes of the text that it is spelled by.
#[cycle(sexpr)]
pub struct Sexpr {
    pub node: Node,
    pub span: Span,
}

impl Drop for Sexpr {
    #[cycle(sexpr)]
    fn drop(self) {
        let Sexpr { node, span: _ } = self;
        drop(node);
    }
}

impl Model for Sexpr {
    ghost use Rattle.cl_sexpr.specs.Tree.{Tree, tree_size};
    ghost use Rattle.cl_sexpr.specs.TreeCode.{tree_code};

    ghost Value = { Tree };

    ghost coded = { tree_code };

    ghost use Rattle.cl_sexpr.specs.View.{tree_of};

    ghost view = { λ s. tree_of s.node s.span };

    ghost size = { tree_size };

    ghost use Rattle.cl_sexpr.specs.ViewFalls.{falls};

    ghost size_decreases = { λ a h. falls a.node a.span };
}

impl Sexpr {
    /// A copy of the item.
    #[cycle(copy)]
    pub fn copy(&self, alloc: Global) -> Result<Sexpr, AllocError>
        ensures { IfOk result (λ r. r ≡ self.now) }
    {
        let span = self.span;
        let node = match &self.node {
            Node::Atom(name) => Node::Atom(*name),
            Node::Int(value) => Node::Int(*value),
            Node::Uint(value) => Node::Uint(*value),
            Node::Buff(bytes) => Node::Buff(bytes.clone()?),
            Node::Ascii(text) => Node::Ascii(text.clone()?),
            Node::Utf8(text) => Node::Utf8(text.clone()?),
            Node::Standing(principal) => Node::Standing(*principal),
            Node::Local(name) => Node::Local(*name),
            Node::List(items) => Node::List(copy_all(alloc, items)?),
            Node::Tuple(pairs) => Node::Tuple(copy_pairs(alloc, pairs)?),
        };
        Ok(Sexpr { node, span })
    }

    /// The items of a list, where it is one.
    pub fn into_items(self) -> Option<Vec<Sexpr>>
        ensures { option_map (λ v. forest v.items) result ≡ items_in self }
    {
        let Sexpr { node, span: _ } = self;
        match node {
            Node::List(items) => Some(items),
            _ => None,
        }
    }
}

#[cycle(copy)]
fn copy_all(alloc: Global, items: &[Sexpr]) -> Result<Vec<Sexpr>, AllocError>
    ensures { IfOk result (λ v. v.items ≡ items.now) }
{
    let mut copies = Vec::new(alloc);
    for item in items {
        copies.push(item.copy(alloc)?)?;
    }
    Ok(copies)
}

#[cycle(copy)]
fn copy_pairs(alloc: Global, pairs: &[(Name, Sexpr)]) -> Result<Vec<(Name, Sexpr)>, AllocError>
    ensures { IfOk result (λ v. v.items ≡ pairs.now) }
{
    let mut copies = Vec::new(alloc);
    for pair in pairs {
        copies.push((pair.0, pair.1.copy(alloc)?))?;
    }
    Ok(copies)
}
