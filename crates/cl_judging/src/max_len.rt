//! Sequences with a greatest length.
ghost use Rattle.std.specs.Prelude.{◌≡◌, ◌∷◌, [], false, IfNone, IfOk, IfSome};
ghost use Rattle.cl_sexpr.specs.Tree.{LeafAt, Unsigned};
ghost use Rattle.cl_rules.specs.NativeTypes.{max_len_row, one};
ghost use Rattle.cl_typing.specs.Verdicts.{ConcludesRow};
ghost use Rattle.cl_judging.specs.MaxLen.{is_unsigned};

use cl_sexpr::{Node, Rule, Sexpr, Span};
use cl_types::Fault;
use cl_typing::{Checked, Concluded, conclude, max_len_type, types_of};
use std::alloc::{AllocError, Global};

/// The uint that an item is the literal of, and its place.
pub(crate) fn uint_at(e: &Sexpr) -> Option<(u128, Span)>
    ensures some { IfSome result (λ p. e.now ≡ LeafAt (Unsigned p.0) p.1) }
    ensures none { IfNone result (is_unsigned e.now ≡ false) }
{
    match &e.node {
        Node::Uint(n) => Some((*n, e.span)),
        _ => None,
    }
}

/// One part.
pub(crate) fn single(alloc: Global, first: Checked) -> Result<Vec<Checked>, AllocError>
    ensures { IfOk result (λ v. v.items ≡ first ∷ []) }
{
    let mut parts = Vec::new(alloc);
    parts.push(first)?;
    Ok(parts)
}

/// The verdict on a sequence with this greatest length.
pub(crate) fn on_max_len(
    alloc: Global,
    most: u128,
    parts: &[Checked],
) -> Result<Concluded, Fault<Rule>>
    ensures { ConcludesRow (one (max_len_row most)) 0 parts.now result }
{
    let types = types_of(alloc, parts)?;
    let ruled = max_len_type(alloc, most, &types);
    conclude(alloc, ruled, &None, 0, parts)
}
