//! Items looked at, before the names of the others are known.
ghost use Rattle.std.specs.Prelude.{◌≡◌, IfOk, fold, map, None};
ghost use Rattle.cl_sexpr.specs.Tree.{forest, pairs};
ghost use Rattle.cl_forms.specs.FormBreaks.{left_out_in, left_out_of, left_out_of_pairs};
ghost use Rattle.cl_forms.specs.Looks.{earliest, look_at, plain_entry};

use crate::item::{Item, item_of};
use crate::reserved::is_left_out;
use cl_sexpr::{Node, Sexpr, Span};
use cl_types::Name;
use std::alloc::{AllocError, Global};

/// An item, its span, and the atom in it that is left out of the language and ends first.
#[derive(Drop)]
pub(crate) struct Entry {
    pub(crate) item: Item,
    pub(crate) left_out: Option<Span>,
    pub(crate) span: Span,
}

fn earliest(best: Option<Span>, span: Span) -> Option<Span>
    ensures { result ≡ earliest best span }
{
    match best {
        None => Some(span),
        Some(best) => {
            if span.end < best.end {
                Some(span)
            } else {
                Some(best)
            }
        }
    }
}

/// The atom that is left out and ends first, of those in an item and one met before.
#[cycle(left_out)]
#[tactic(auto, using(crate::proofs::LeftOut::fold_append))]
fn left_out_in(item: &Sexpr, best: Option<Span>) -> Option<Span>
    ensures { result ≡ fold earliest best (left_out_in item.now) }
{
    match &item.node {
        Node::Atom(name) => {
            if is_left_out(name) {
                earliest(best, item.span)
            } else {
                best
            }
        }
        Node::List(items) => left_out_of(items, best),
        Node::Tuple(parts) => left_out_of_pairs(parts, best),
        _ => best,
    }
}

#[cycle(left_out)]
#[tactic(auto, using(cl_sexpr::specs::ViewFalls::part_falls, crate::proofs::LeftOut::part_next))]
fn left_out_of(items: &[Sexpr], best: Option<Span>) -> Option<Span>
    ensures { result ≡ fold earliest best (left_out_of (forest items.now)) }
{
    let mut found = best;
    for item in items {
        found = left_out_in(item, found);
    }
    found
}

#[cycle(left_out)]
#[tactic(auto, using(cl_sexpr::specs::ViewFalls::pair_falls, crate::proofs::LeftOut::pair_next))]
fn left_out_of_pairs(parts: &[(Name, Sexpr)], best: Option<Span>) -> Option<Span>
    ensures { result ≡ fold earliest best (left_out_of_pairs (pairs parts.now)) }
{
    let mut found = best;
    for part in parts {
        found = left_out_in(&part.1, found);
    }
    found
}

fn look_at(alloc: Global, item: Sexpr) -> Result<Entry, AllocError>
    ensures { IfOk result (λ e. plain_entry e ≡ look_at item) }
{
    let span = item.span;
    let left_out = left_out_in(&item, None);
    let item = item_of(alloc, item)?;
    Ok(Entry {
        item,
        left_out,
        span,
    })
}

/// Looks at each item.
pub(crate) fn look_at_all(alloc: Global, items: Vec<Sexpr>) -> Result<Vec<Entry>, AllocError>
    ensures { IfOk result (λ v. map plain_entry v.items ≡ map look_at items.items) }
{
    let mut entries = Vec::new(alloc);
    for item in items {
        entries.push(look_at(alloc, item)?)?;
    }
    Ok(entries)
}
