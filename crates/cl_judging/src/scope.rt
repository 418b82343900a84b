//! Names that are bound.
ghost use Rattle.std.specs.Prelude.{◌≡◌, [], ◌∷◌, None, true, false, is_some, length, take, filter_map, IfOk, IfSome, IfNone, OnOk};
ghost use Rattle.cl_sexpr.specs.Tree.{ListAt, forest};
ghost use Rattle.cl_forms.specs.Items.{atom_of, two_of};
ghost use Rattle.cl_forms.specs.Shapes.{binding_of, bindings_of};
ghost use Rattle.cl_rules.specs.Context.{bind, named_in};
ghost use Rattle.cl_rules.specs.ControlShapes.{bound_name};
ghost use Rattle.cl_code.specs.Expression.{binding, bound_items, word};
ghost use Rattle.std.specs.Prelude.{if◌then◌else◌};
ghost use Rattle.std.specs.List.{list_all};
ghost use Rattle.cl_types.specs.Types.{NoType};
ghost use Rattle.cl_rules.specs.Context.{same};
ghost use Rattle.cl_rules.specs.ControlShapes.{is_atom};
ghost use Rattle.cl_judging.specs.Branching.{odd_rule};
ghost use Rattle.cl_judging.specs.Seen.{shadowed_in, taken_in};
ghost use Rattle.cl_judging.specs.LetWalk.{exprs_of, is_list};
ghost use Rattle.cl_judging.specs.Walking.{is_headed};

use crate::context::Context;
use crate::names::is_taken;
use cl_code::{Binding, Word};
use cl_keyed::HashKey;
use cl_sexpr::{Node, Rule, Sexpr, Span};
use cl_types::{Name, NoMemory, SizedTy, TyKind};
use cl_typing::of;
use indexmap::IndexMap;
use std::alloc::Global;

/// The names that are bound, with their types, the innermost last.
pub(crate) type Scope = IndexMap<Name, SizedTy, HashKey>;

/// One more name is bound.
pub(crate) fn bind(scope: &mut Scope, name: Name, ty: SizedTy) -> Result<(), NoMemory>
    requires { named_in name scope.old.entries ≡ None }
    ensures { OnOk result (scope.new.entries ≡ bind name ty scope.old.entries) }
{
    scope.insert(name, ty)?;
    Ok(())
}

/// The first so many names stay bound.
pub(crate) fn unbind(scope: &mut Scope, count: usize)
    ensures { scope.new.entries ≡ take count scope.old.entries }
{
    scope.truncate(count);
}

pub(crate) fn count(scope: &Scope) -> usize
    ensures { result ≡ length scope.now.entries }
{
    scope.len()
}

/// The name that an item is.
pub(crate) fn name_in(e: &Sexpr) -> Option<Word>
    ensures some { IfSome result (λ w. e.now ≡ word w) }
    ensures none { IfNone result (atom_of e.now ≡ None) }
    ensures headless { IfNone result (is_headed (e.now ∷ []) ≡ false) }
{
    match &e.node {
        Node::Atom(name) => Some(Word {
            name: *name,
            span: e.span,
        }),
        _ => None,
    }
}

/// The only two items.
pub(crate) fn two(items: &[Sexpr]) -> Option<(&Sexpr, &Sexpr)>
    ensures some { IfSome result (λ p. items.now ≡ p.0.now ∷ p.1.now ∷ []) }
    ensures none { IfNone result (two_of items.now ≡ None) }
{
    if items.len() == 2 {
        Some((&items[0], &items[1]))
    } else {
        None
    }
}

/// The name and the expression of a list of these items, where it is a binding.
#[tactic(auto, using(crate::proofs::Lets::binding_there, crate::proofs::Lets::not_two, crate::proofs::Lets::not_named))]
fn binding_in(items: &[Sexpr], span: Span) -> Option<(Binding, &Sexpr)>
    ensures some { IfSome result (λ p. ListAt (forest items.now) span ≡ binding p.0 p.1.now) }
    ensures none { IfNone result (binding_of (ListAt (forest items.now) span) ≡ None) }
{
    let Some((first, part)) = two(items) else {
        return None;
    };
    let Some(word) = name_in(first) else {
        return None;
    };
    Some((Binding { word, span }, part))
}

/// The name and the expression of a binding.
pub(crate) fn binding_at(e: &Sexpr) -> Option<(Binding, &Sexpr)>
    ensures some { IfSome result (λ p. e.now ≡ binding p.0 p.1.now) }
    ensures none { IfNone result (binding_of e.now ≡ None) }
{
    match &e.node {
        Node::List(items) => binding_in(items, e.span),
        _ => None,
    }
}

/// Whether the names of bindings are taken, also by those before them. The names stay bound.
fn binds_taken(
    alloc: Global,
    ctx: &Context,
    scope: &mut Scope,
    items: &[Sexpr],
) -> Result<bool, NoMemory>
    ensures found { IfOk result (λ b. b ≡ shadowed_in ctx.now scope.old.entries (filter_map bound_name items.now)) }
    ensures kept { IfOk result (λ _. take (length scope.old.entries) scope.new.entries ≡ scope.old.entries) }
{
    for item in items {
        if let Some((binding, _)) = binding_at(item) {
            if is_taken(ctx, scope, &binding.word.name) {
                return Ok(true);
            }
            let ty = of(alloc, TyKind::NoType)?;
            bind(scope, binding.word.name, ty)?;
        }
    }
    Ok(false)
}

/// Whether the names of bindings are taken, also by those before them.
pub(crate) fn is_shadowed(
    alloc: Global,
    ctx: &Context,
    scope: &mut Scope,
    items: &[Sexpr],
) -> Result<bool, NoMemory>
    ensures found { IfOk result (λ b. b ≡ shadowed_in ctx.now scope.old.entries (filter_map bound_name items.now)) }
    ensures kept { IfOk result (λ _. scope.new.entries ≡ scope.old.entries) }
{
    let bound = count(scope);
    let taken = binds_taken(alloc, ctx, scope, items)?;
    unbind(scope, bound);
    Ok(taken)
}

/// The items of an item that is a list, and its place.
pub(crate) fn items_at(e: &Sexpr) -> Option<(&[Sexpr], Span)>
    ensures some { IfSome result (λ p. e.now ≡ ListAt (forest p.0.now) p.1) }
    ensures none { IfNone result (is_list e.now ≡ false) }
{
    match &e.node {
        Node::List(items) => Some((items, e.span)),
        _ => None,
    }
}

/// Whether all items are bindings.
#[tactic(auto, using(crate::proofs::Lets::odd_among))]
pub(crate) fn are_bindings(items: &[Sexpr]) -> bool
    ensures { result ≡ is_some (bindings_of items.now) }
{
    for item in items {
        if binding_at(item).is_none() {
            return false;
        }
    }
    true
}

/// The bindings of a row of items, all of which are bindings.
pub(crate) fn bindings_in(alloc: Global, items: &[Sexpr]) -> Result<Vec<Binding>, NoMemory>
    requires { is_some (bindings_of items.now) ≡ true }
    ensures text { IfOk result (λ v. bound_items v.items (exprs_of items.now) ≡ items.now) }
    ensures count { IfOk result (λ v. length v.items ≡ length items.now) }
{
    let mut bindings = Vec::new(alloc);
    for item in items {
        let Some((binding, _)) = binding_at(item) else {
            unreachable!()
        };
        bindings.push(binding)?;
    }
    Ok(bindings)
}

/// The names that two items are.
#[tactic(auto, using(crate::proofs::MatchShapes::odd_one, crate::proofs::MatchShapes::odd_other))]
pub(crate) fn names_in(first: &Sexpr, second: &Sexpr) -> Option<(Word, Word)>
    ensures first { IfSome result (λ p. first.now ≡ word p.0) }
    ensures second { IfSome result (λ p. second.now ≡ word p.1) }
    ensures none { IfNone result (list_all is_atom (first.now ∷ second.now ∷ []) ≡ false) }
{
    let Some(one) = name_in(first) else {
        return None;
    };
    let Some(other) = name_in(second) else {
        return None;
    };
    Some((one, other))
}

fn is_same(x: &Name, y: &Name) -> bool
    ensures { result ≡ same x.now y.now }
{
    x.bytes() == y.bytes()
}

/// Whether a name is taken where another is bound.
fn is_taken_after(ctx: &Context, scope: &Scope, x: &Name, y: &Name) -> bool
    ensures { result ≡ taken_in ctx.now (bind x.now NoType scope.now.entries) y.now }
{
    is_taken(ctx, scope, y) || is_same(x, y)
}

/// Whether one of two names is taken, the second also by the first.
#[tactic(auto, using(crate::proofs::BoundPairs::pair_taken))]
pub(crate) fn is_pair_taken(ctx: &Context, scope: &Scope, x: &Name, y: &Name) -> bool
    ensures { result ≡ shadowed_in ctx.now scope.now.entries (x.now ∷ y.now ∷ []) }
{
    is_taken(ctx, scope, x) || is_taken_after(ctx, scope, x, y)
}

fn taken_rule(taken: bool) -> Rule
    ensures { result ≡ (if taken then Rule.ShadowedName else Rule.BadBinding) }
{
    if taken {
        Rule::ShadowedName
    } else {
        Rule::BadBinding
    }
}

/// The rule that two items break of which not both are names.
#[tactic(auto, using(crate::proofs::MatchShapes::odd_first, crate::proofs::MatchShapes::odd_second, crate::proofs::MatchShapes::odd_neither))]
pub(crate) fn odd_rule(ctx: &Context, scope: &Scope, first: &Sexpr, second: &Sexpr) -> Rule
    requires { list_all is_atom (first.now ∷ second.now ∷ []) ≡ false }
    ensures { result ≡ odd_rule ctx.now scope.now.entries first.now second.now }
{
    if let Some(word) = name_in(first) {
        return taken_rule(is_taken(ctx, scope, &word.name));
    }
    if let Some(word) = name_in(second) {
        return taken_rule(is_taken(ctx, scope, &word.name));
    }
    Rule::BadBinding
}
