//! What each form names.
ghost use Rattle.std.specs.Prelude.{◌≡◌, ◌==◌, ◌<◌, [], ◌∷◌, ◌++◌, length, slice_get, IfOk, OnOk, flat_map, option_copied, MatchOption};
ghost use Rattle.cl_sexpr.specs.Tree.{forest, pairs, Named};
ghost use Rattle.cl_forms.specs.Forms.{expression_of};
ghost use Rattle.cl_forms.specs.Items.{atom_of};
ghost use Rattle.cl_forms.specs.Names.{same, place_behind, next_place, first_at, atom_at, atoms_in, atoms_of_list, atoms_of, atoms_of_pairs, atoms_of_form, named_by};
ghost use Rattle.cl_order.specs.Index.{under, IsIndex};
ghost use Rattle.cl_order.specs.Naming.{place};

use crate::index::{Index, under};
use cl_forms::{Form, FormKind};
use cl_sexpr::{Node, Sexpr};
use cl_types::Name;
use std::alloc::{AllocError, Global};

/// Where an item stands, so far as names go.
#[derive(Clone, Copy)]
pub(crate) enum Site {
    /// Where an atom names.
    Plain,
    /// Behind `get`, or behind the contract of a call: an atom is no name of a form.
    Key,
    /// Behind `contract-call?`: neither is an atom here, nor the next one.
    Contract,
    /// Behind `tuple`: a list of two that begins with an atom is a pair, and the atom its key.
    Pairs,
}

fn is(name: &Name, word: &str) -> bool
    ensures { result ≡ same name.now word.now }
{
    name.bytes() == word.as_bytes()
}

// Where the item behind the first atom of a list stands.
fn behind(name: &Name) -> Site
    ensures { place result ≡ place_behind name.now }
{
    if is(name, "get") {
        Site::Key
    } else if is(name, "contract-call?") {
        Site::Contract
    } else if is(name, "tuple") {
        Site::Pairs
    } else {
        Site::Plain
    }
}

// Where the item behind one stands.
fn next(site: Site) -> Site
    ensures { place result ≡ next_place (place site) }
{
    match site {
        Site::Plain => Site::Plain,
        Site::Key => Site::Plain,
        Site::Contract => Site::Key,
        Site::Pairs => Site::Pairs,
    }
}

// Adds the places of the forms with a name.
fn find(index: &Index, name: &Name, found: &mut Vec<u32>) -> Result<(), AllocError>
    ensures { OnOk result (found.new.items ≡ found.old.items ++ under index.now name.now) }
{
    match under(index, name) {
        [] => Ok(()),
        places => {
            found.extend_from_slice(places)?;
            Ok(())
        }
    }
}

// An atom by itself.
fn walk_atom(index: &Index, site: Site, name: &Name, found: &mut Vec<u32>) -> Result<(), AllocError>
    ensures { OnOk result (found.new.items ≡ found.old.items ++ flat_map (under index.now) (atom_at (place site) (Named name.now))) }
{
    match site {
        Site::Plain => find(index, name, found),
        Site::Key => Ok(()),
        Site::Contract => Ok(()),
        Site::Pairs => find(index, name, found),
    }
}

// The first atom of a list, with this many items behind it.
fn walk_first(
    index: &Index,
    site: Site,
    name: &Name,
    behind: usize,
    found: &mut Vec<u32>,
) -> Result<(), AllocError>
    ensures { OnOk result (found.new.items ≡ found.old.items ++ flat_map (under index.now) (first_at (place site) (behind == 1) name.now)) }
{
    match site {
        Site::Plain => find(index, name, found),
        Site::Key => find(index, name, found),
        Site::Contract => find(index, name, found),
        Site::Pairs => {
            if behind == 1 {
                Ok(())
            } else {
                find(index, name, found)
            }
        }
    }
}

fn atom(item: &Sexpr) -> Option<&Name>
    ensures { option_copied result ≡ atom_of item.now }
{
    match &item.node {
        Node::Atom(name) => Some(name),
        _ => None,
    }
}

fn first_and_rest(items: &[Sexpr]) -> Option<(&Sexpr, &[Sexpr])>
    ensures { MatchOption result (items.now ≡ []) (λ parts. items.now ≡ parts.0.now ∷ parts.1.now) }
{
    match items.split_first() {
        Some((first, rest)) => Some((first, rest)),
        None => None,
    }
}

// Adds the places of the forms that an item names.
#[cycle(walk)]
fn walk(index: &Index, site: Site, item: &Sexpr, found: &mut Vec<u32>) -> Result<(), AllocError>
    ensures { OnOk result (found.new.items ≡ found.old.items ++ flat_map (under index.now) (atoms_in (place site) item.now)) }
{
    match &item.node {
        Node::Atom(name) => walk_atom(index, site, name, found),
        Node::List(items) => walk_list(index, site, items, found),
        Node::Tuple(parts) => walk_pairs(index, parts, found),
        _ => Ok(()),
    }
}

#[cycle(walk)]
fn walk_list(
    index: &Index,
    site: Site,
    items: &[Sexpr],
    found: &mut Vec<u32>,
) -> Result<(), AllocError>
    ensures { OnOk result (found.new.items ≡ found.old.items ++ flat_map (under index.now) (atoms_of_list (place site) (forest items.now))) }
{
    let Some((first, rest)) = first_and_rest(items) else {
        return Ok(());
    };
    match atom(first) {
        Some(name) => {
            walk_first(index, site, name, rest.len(), found)?;
            walk_items(index, behind(name), rest, found)
        }
        None => {
            walk(index, Site::Plain, first, found)?;
            walk_items(index, Site::Plain, rest, found)
        }
    }
}

#[cycle(walk)]
fn walk_items(
    index: &Index,
    first: Site,
    items: &[Sexpr],
    found: &mut Vec<u32>,
) -> Result<(), AllocError>
    ensures { OnOk result (found.new.items ≡ found.old.items ++ flat_map (under index.now) (atoms_of (place first) (forest items.now))) }
{
    let mut site = first;
    for item in items {
        walk(index, site, item, found)?;
        site = next(site);
    }
    Ok(())
}

#[cycle(walk)]
fn walk_pairs(
    index: &Index,
    parts: &[(Name, Sexpr)],
    found: &mut Vec<u32>,
) -> Result<(), AllocError>
    ensures { OnOk result (found.new.items ≡ found.old.items ++ flat_map (under index.now) (atoms_of_pairs (pairs parts.now))) }
{
    for part in parts {
        walk(index, Site::Plain, &part.1, found)?;
    }
    Ok(())
}

fn expression(form: &Form) -> Option<&Sexpr>
    ensures { option_copied result ≡ expression_of form.now.kind }
{
    match &form.kind {
        FormKind::Constant(e) => Some(e),
        FormKind::Variable(_, e) => Some(e),
        FormKind::MapOf(_, _) => None,
        FormKind::Fungible(supply) => supply.as_ref(),
        FormKind::NonFungible(_) => None,
        FormKind::Function { body, .. } => Some(body),
        FormKind::Expression(e) => Some(e),
    }
}

// The places of the forms with the names of a form's atoms, one row after another.
fn gathered(alloc: Global, index: &Index, form: &Form) -> Result<Vec<u32>, AllocError>
    ensures { IfOk result (λ found. found.items ≡ flat_map (under index.now) (atoms_of_form form.now)) }
{
    let mut found = Vec::new(alloc);
    match expression(form) {
        Some(item) => {
            walk(index, Site::Plain, item, &mut found)?;
            Ok(found)
        }
        None => Ok(found),
    }
}

/// The places of the forms that the form at a place names, in the order of the text.
pub(crate) fn named(
    alloc: Global,
    forms: &[Form],
    index: &Index,
    place: u32,
) -> Result<Vec<u32>, AllocError>
    requires there { place < length forms.now }
    requires index { IsIndex forms.now index.now }
    ensures { IfOk result (λ places. places.items ≡ named_by forms.now (slice_get forms.now place)) }
{
    let mut found = gathered(alloc, index, &forms[place as usize])?;
    found.sort_unstable();
    found.dedup();
    Ok(found)
}
