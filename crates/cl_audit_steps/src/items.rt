//! Items taken apart.
ghost use Rattle.std.specs.Prelude.{◌≡◌, option_copied, option_map, IfOk};
ghost use Rattle.cl_audit_steps.specs.Items.{one_of, two_of, three_of, one_seen, two_seen, three_seen, atom_of, uint_of, word_of, word_seen, headed, headed_seen, named_of, named_seen, worded, worded_seen, called_of, called_seen, items_of, listed, listed_seen, parts_seen, fields_seen};
ghost use Rattle.cl_forms.specs.Shapes.{binding_of, bindings_of, match_of};

use cl_sexpr::{Node, Sexpr, Span};
use cl_types::{Name, NoMemory};
use std::alloc::Global;

/// The item, where there is one.
pub(crate) fn one(items: &[Sexpr]) -> Option<&Sexpr>
    ensures { one_seen result ≡ one_of items.now }
{
    if items.len() != 1 {
        return None;
    }
    Some(&items[0])
}

/// The items, where there are two.
pub(crate) fn two(items: &[Sexpr]) -> Option<(&Sexpr, &Sexpr)>
    ensures { two_seen result ≡ two_of items.now }
{
    if items.len() != 2 {
        return None;
    }
    Some((&items[0], &items[1]))
}

/// The items, where there are three.
pub(crate) fn three(items: &[Sexpr]) -> Option<(&Sexpr, &Sexpr, &Sexpr)>
    ensures { three_seen result ≡ three_of items.now }
{
    if items.len() != 3 {
        return None;
    }
    Some((&items[0], &items[1], &items[2]))
}

/// The name that an item is.
pub(crate) fn atom(item: &Sexpr) -> Option<&Name>
    ensures { option_copied result ≡ atom_of item.now }
{
    match &item.node {
        Node::Atom(name) => Some(name),
        _ => None,
    }
}

/// The uint that an item is.
pub(crate) fn uint(item: &Sexpr) -> Option<u128>
    ensures { result ≡ uint_of item.now }
{
    match &item.node {
        Node::Uint(number) => Some(*number),
        _ => None,
    }
}

/// The name that an item is, and its span.
fn word(item: &Sexpr) -> Option<(&Name, Span)>
    ensures { word_seen result ≡ word_of item.now }
{
    match &item.node {
        Node::Atom(name) => Some((name, item.span)),
        _ => None,
    }
}

/// The name that items begin with, and the others.
pub(crate) fn name_and_rest(items: &[Sexpr]) -> Option<(&Name, &[Sexpr])>
    ensures { headed_seen result ≡ headed items.now }
{
    if items.is_empty() {
        return None;
    }
    match atom(&items[0]) {
        Some(name) => Some((name, &items[1..])),
        None => None,
    }
}

/// The same with the name's span.
pub(crate) fn word_and_rest(items: &[Sexpr]) -> Option<(&Name, Span, &[Sexpr])>
    ensures { worded_seen result ≡ worded items.now }
{
    if items.is_empty() {
        return None;
    }
    match word(&items[0]) {
        Some((name, span)) => Some((name, span, &items[1..])),
        None => None,
    }
}

/// A name and an item, where the items are these two.
pub(crate) fn name_and_item(items: &[Sexpr]) -> Option<(&Name, &Sexpr)>
    ensures { named_seen result ≡ named_of items.now }
{
    let Some((first, second)) = two(items) else {
        return None;
    };
    match atom(first) {
        Some(name) => Some((name, second)),
        None => None,
    }
}

/// The parts of `contract-call?`: the item of the contract, the function's name, the arguments.
pub(crate) fn call_parts(items: &[Sexpr]) -> Option<(&Sexpr, &Name, &[Sexpr])>
    ensures { called_seen result ≡ called_of items.now }
{
    if items.is_empty() {
        return None;
    }
    match name_and_rest(&items[1..]) {
        Some((name, rest)) => Some((&items[0], name, rest)),
        None => None,
    }
}

/// The items of the list that items begin with, and the others.
pub(crate) fn list_and_rest(items: &[Sexpr]) -> Option<(&[Sexpr], &[Sexpr])>
    ensures { listed_seen result ≡ listed items.now }
{
    if items.is_empty() {
        return None;
    }
    match list(&items[0]) {
        Some(inner) => Some((inner, &items[1..])),
        None => None,
    }
}

/// The items of a list.
pub(crate) fn list(item: &Sexpr) -> Option<&[Sexpr]>
    ensures { option_copied result ≡ items_of item.now }
{
    match &item.node {
        Node::List(items) => Some(items),
        _ => None,
    }
}

/// A name and an expression in round brackets.
pub fn binding(item: &Sexpr) -> Option<(&Name, &Sexpr)>
    ensures { named_seen result ≡ binding_of item.now }
{
    match list(item) {
        Some(items) => name_and_item(items),
        None => None,
    }
}

/// The keys and expressions of a tuple, in the order of the text.
pub(crate) fn fields<'a>(
    alloc: Global,
    pairs: &'a [(Name, Sexpr)],
) -> Result<Vec<(&'a Name, &'a Sexpr)>, NoMemory>
    ensures { IfOk result (λ fields. fields_seen fields.items ≡ pairs.now) }
{
    let mut fields = Vec::with_capacity(alloc, pairs.len())?;
    for pair in pairs {
        fields.push((&pair.0, &pair.1))?;
    }
    Ok(fields)
}

/// The names and expressions of bindings; None where an item is none.
pub(crate) fn bindings<'a>(
    alloc: Global,
    items: &'a [Sexpr],
) -> Result<Option<Vec<(&'a Name, &'a Sexpr)>>, NoMemory>
    ensures { IfOk result (λ fields. option_map
        (λ fs. fields_seen fs.items) fields ≡ bindings_of items.now) }
{
    let mut fields = Vec::with_capacity(alloc, items.len())?;
    for item in items {
        match binding(item) {
            Some(field) => fields.push(field)?,
            None => return Ok(None),
        }
    }
    Ok(Some(fields))
}

/// The parts of `match`.
pub(crate) enum MatchParts<'a> {
    Optional(&'a Sexpr, &'a Name, &'a Sexpr, &'a Sexpr),
    Response(&'a Sexpr, &'a Name, &'a Sexpr, &'a Name, &'a Sexpr),
}

/// The parts of `match`, where these items are.
pub(crate) fn match_parts(items: &[Sexpr]) -> Option<MatchParts>
    ensures { parts_seen result ≡ match_of items.now }
{
    if items.len() == 4 {
        return Some(MatchParts::Optional(&items[0], atom(&items[1])?, &items[2], &items[3]));
    }
    if items.len() == 5 {
        return Some(MatchParts::Response(
            &items[0],
            atom(&items[1])?,
            &items[2],
            atom(&items[3])?,
            &items[4],
        ));
    }
    None
}
