//! Items as definitions, their types not read yet.
ghost use Rattle.std.specs.Prelude.{◌≡◌, IfOk, option_map};
ghost use Rattle.cl_forms.specs.Items.{atom_of, two_of, three_of, one_or_two_of, items_of, parts_behind, with_name, header_in, header_of, function_by, defined_by, definition, item_of};
ghost use Rattle.cl_forms.specs.Shapes.{binding_of, bindings_of};
ghost use Rattle.cl_forms.specs.ItemView.{plain_draft, plain_item, behind, binding_in, first_atom};
ghost use Rattle.cl_forms.specs.declared.word.Word.TheVariants.{Constant, Variable, MapOf, Fungible, NonFungible, Function};

use crate::kind::Draft;
use crate::word::{Word, word_at};
use cl_sexpr::{Node, Sexpr};
use cl_types::{Access, Name};
use std::alloc::{AllocError, Global};

/// What an item of a text is.
#[derive(Drop)]
pub(crate) enum Item {
    Expression(Sexpr),
    /// It begins with a define word and hasn't its shape.
    Misshapen,
    Definition(Name, Draft),
}

/// The name that an item is.
pub(crate) fn atom(item: &Sexpr) -> Option<Name>
    ensures { result ≡ atom_of item.now }
{
    match &item.node {
        Node::Atom(name) => Some(*name),
        _ => None,
    }
}

/// The items of a list.
fn items_of(item: Sexpr) -> Option<Vec<Sexpr>>
    ensures { option_map (λ v. v.items) result ≡ items_of item }
{
    item.into_items()
}

/// The items of a list; of what is no list, none.
#[tactic(auto, using(crate::proofs::Bindings::behind_items, crate::proofs::Bindings::behind_none))]
fn parts(alloc: Global, item: Sexpr) -> Vec<Sexpr>
    ensures { behind result.items ≡ parts_behind item }
{
    match items_of(item) {
        Some(items) => items,
        None => Vec::new(alloc),
    }
}

/// Two items, where there are so many.
fn pair(mut parts: Vec<Sexpr>) -> Option<(Sexpr, Sexpr)>
    ensures { result ≡ two_of parts.items }
{
    if parts.len() != 2 {
        return None;
    }
    let Some(second) = parts.pop() else {
        return None;
    };
    let Some(first) = parts.pop() else {
        return None;
    };
    Some((first, second))
}

/// The two items behind the first, where there are so many.
fn two(mut parts: Vec<Sexpr>) -> Option<(Sexpr, Sexpr)>
    ensures { result ≡ two_of (behind parts.items) }
{
    if parts.len() != 3 {
        return None;
    }
    let Some(second) = parts.pop() else {
        return None;
    };
    let Some(first) = parts.pop() else {
        return None;
    };
    Some((first, second))
}

/// The three items behind the first, where there are so many.
fn three(mut parts: Vec<Sexpr>) -> Option<(Sexpr, Sexpr, Sexpr)>
    ensures { result ≡ three_of (behind parts.items) }
{
    if parts.len() != 4 {
        return None;
    }
    let Some(third) = parts.pop() else {
        return None;
    };
    let Some(second) = parts.pop() else {
        return None;
    };
    let Some(first) = parts.pop() else {
        return None;
    };
    Some((first, second, third))
}

/// The item behind the first, and the one behind it, if there is one.
fn one_or_two(mut parts: Vec<Sexpr>) -> Option<(Sexpr, Option<Sexpr>)>
    ensures { result ≡ one_or_two_of (behind parts.items) }
{
    if parts.len() != 2 {
        return match two(parts) {
            Some((first, second)) => Some((first, Some(second))),
            None => None,
        };
    }
    match parts.pop() {
        Some(first) => Some((first, None)),
        None => None,
    }
}

fn named(name: &Sexpr, draft: Draft) -> Item
    ensures { plain_item result ≡ definition (with_name name.now (plain_draft draft)) }
{
    match atom(name) {
        Some(name) => Item::Definition(name, draft),
        None => Item::Misshapen,
    }
}

fn constant(parts: Vec<Sexpr>) -> Item
    ensures { plain_item result ≡ definition (defined_by Constant (behind parts.items)) }
{
    match two(parts) {
        Some((name, e)) => named(&name, Draft::Constant(e)),
        None => Item::Misshapen,
    }
}

fn variable(parts: Vec<Sexpr>) -> Item
    ensures { plain_item result ≡ definition (defined_by Variable (behind parts.items)) }
{
    match three(parts) {
        Some((name, t, e)) => named(&name, Draft::Variable(t, e)),
        None => Item::Misshapen,
    }
}

fn map_of(parts: Vec<Sexpr>) -> Item
    ensures { plain_item result ≡ definition (defined_by MapOf (behind parts.items)) }
{
    match three(parts) {
        Some((name, k, v)) => named(&name, Draft::MapOf(k, v)),
        None => Item::Misshapen,
    }
}

fn fungible(parts: Vec<Sexpr>) -> Item
    ensures { plain_item result ≡ definition (defined_by Fungible (behind parts.items)) }
{
    match one_or_two(parts) {
        Some((name, supply)) => named(&name, Draft::Fungible(supply)),
        None => Item::Misshapen,
    }
}

fn non_fungible(parts: Vec<Sexpr>) -> Item
    ensures { plain_item result ≡ definition (defined_by NonFungible (behind parts.items)) }
{
    match two(parts) {
        Some((name, t)) => named(&name, Draft::NonFungible(t)),
        None => Item::Misshapen,
    }
}

fn binding_by(name: &Sexpr, part: Sexpr) -> Option<(Name, Sexpr)>
    ensures { result ≡ option_map (λ x. (x, part)) (atom_of name.now) }
{
    match atom(name) {
        Some(name) => Some((name, part)),
        None => None,
    }
}

fn binding_in(parts: Vec<Sexpr>) -> Option<(Name, Sexpr)>
    ensures { result ≡ binding_in (two_of parts.items) }
{
    match pair(parts) {
        Some((name, part)) => binding_by(&name, part),
        None => None,
    }
}

/// A name and an item in round brackets.
#[tactic(auto, using(crate::proofs::Bindings::binding_parts))]
fn binding(item: Sexpr) -> Option<(Name, Sexpr)>
    ensures { result ≡ binding_of item }
{
    match items_of(item) {
        Some(parts) => binding_in(parts),
        None => None,
    }
}

/// The items behind the first as bindings, where each is one.
fn bindings(alloc: Global, items: Vec<Sexpr>) -> Result<Option<Vec<(Name, Sexpr)>>, AllocError>
    ensures { IfOk result (λ o. option_map (λ v. v.items) o ≡ bindings_of (behind items.items)) }
{
    let mut list = Vec::new(alloc);
    let mut rest = items.into_iter();
    drop(rest.next());
    for item in rest {
        match binding(item) {
            Some(pair) => list.push(pair)?,
            None => return Ok(None),
        }
    }
    Ok(Some(list))
}

pub(crate) fn first_atom(parts: &[Sexpr]) -> Option<Name>
    ensures { result ≡ first_atom parts.now }
{
    match parts.first() {
        Some(first) => atom(first),
        None => None,
    }
}

fn header_in(parts: Vec<Sexpr>) -> Option<(Name, Vec<Sexpr>)>
    ensures { option_map (λ h. (h.0, behind h.1.items)) result ≡ header_in parts.items }
{
    match first_atom(&parts) {
        Some(name) => Some((name, parts)),
        None => None,
    }
}

/// A function's name, and the items of the list that it begins.
fn header(item: Sexpr) -> Option<(Name, Vec<Sexpr>)>
    ensures { option_map (λ h. (h.0, behind h.1.items)) result ≡ header_of item }
{
    match items_of(item) {
        Some(parts) => header_in(parts),
        None => None,
    }
}

fn function_by(alloc: Global, access: Access, head: Sexpr, body: Sexpr) -> Result<Item, AllocError>
    ensures { IfOk result (λ i. plain_item i ≡ definition (function_by access body (header_of head))) }
{
    let Some((name, params)) = header(head) else {
        return Ok(Item::Misshapen);
    };
    match bindings(alloc, params)? {
        Some(params) => Ok(Item::Definition(name, Draft::Function(access, params, body))),
        None => Ok(Item::Misshapen),
    }
}

fn function(alloc: Global, access: Access, parts: Vec<Sexpr>) -> Result<Item, AllocError>
    ensures { IfOk result (λ i. plain_item i ≡ definition (defined_by (Function access) (behind parts.items))) }
{
    match two(parts) {
        Some((head, body)) => function_by(alloc, access, head, body),
        None => Ok(Item::Misshapen),
    }
}

fn defined_by(alloc: Global, word: Word, parts: Vec<Sexpr>) -> Result<Item, AllocError>
    ensures { IfOk result (λ i. plain_item i ≡ definition (defined_by word (behind parts.items))) }
{
    match word {
        Word::Constant => Ok(constant(parts)),
        Word::Variable => Ok(variable(parts)),
        Word::MapOf => Ok(map_of(parts)),
        Word::Fungible => Ok(fungible(parts)),
        Word::NonFungible => Ok(non_fungible(parts)),
        Word::Function(access) => function(alloc, access, parts),
    }
}

/// What an item of a text is.
#[tactic(auto, unfolding(crate::specs::Items::item_of))]
pub(crate) fn item_of(alloc: Global, item: Sexpr) -> Result<Item, AllocError>
    ensures { IfOk result (λ i. plain_item i ≡ item_of item) }
{
    match word_at(&item) {
        Some(word) => defined_by(alloc, word, parts(alloc, item)),
        None => Ok(Item::Expression(item)),
    }
}
