//! Parts of lists, and of nodes.
ghost use Rattle.std.specs.Prelude.{◌≡◌, ◌<◌, ◌∷◌, ◌++◌, length, ℕ, [], false, true, List, OnOk, IfSome, IfNone, None};
ghost use Rattle.cl_sexpr.specs.declared.sexpr.Span.{Span as Place};
ghost use Rattle.cl_sexpr.specs.Tree.{Tree};
ghost use Rattle.cl_forms.specs.HeadNames.{name_of};
ghost use Rattle.cl_forms.specs.Heads.{row_of, takes};
ghost use Rattle.cl_rules.specs.Context.{bind, named_in};
ghost use Rattle.cl_code.specs.Expression.{expression, headed, word};
ghost use Rattle.cl_code.specs.Nodes.{has_own_name, has_parts};
ghost use Rattle.cl_code.specs.Typed.{type_of};
ghost use Rattle.cl_judging.specs.Walking.{GoesWith, Judges, head_at, is_headed};

use crate::controls::on_parts;
use crate::node::Evaluated;
use crate::scope::{Scope, bind, name_in};
use crate::verdicts::on_native;
use cl_code::{Op, Word};
use cl_sexpr::{Rule, Sexpr, Span};
use cl_types::{Fault, Name, NoMemory, SizedTy};
use cl_typing::{Checked, Concluded};
use std::alloc::Global;

/// The name that a row of items begins with, and the items behind it.
pub(crate) fn headed(items: &[Sexpr]) -> Option<(Word, &[Sexpr])>
    ensures some { IfSome result (λ r. items.now ≡ word r.0 ∷ r.1.now) }
    ensures none { IfNone result (is_headed items.now ≡ false) }
{
    let (head, parts) = items.split_first()?;
    let head = name_in(head)?;
    Some((head, parts))
}

/// The first item, and those behind it.
pub(crate) fn split(items: &[Sexpr]) -> Option<(&Sexpr, &[Sexpr])>
    ensures some { IfSome result (λ p. items.now ≡ p.0.now ∷ p.1.now) }
    ensures none { IfNone result (items.now ≡ []) }
{
    items.split_first()
}

/// The first two items, and those behind them.
pub(crate) fn split_two(items: &[Sexpr]) -> Option<(&Sexpr, &Sexpr, &[Sexpr])>
    ensures some { IfSome result (λ p. items.now ≡ p.0.now ∷ p.1.now ∷ p.2.now) }
    ensures none { IfNone result (length items.now < 2) }
{
    let (first, others) = items.split_first()?;
    let (second, rest) = others.split_first()?;
    Some((first, second, rest))
}

/// One more part.
pub(crate) fn push(founds: &mut Vec<Checked>, found: Checked) -> Result<(), NoMemory>
    ensures { OnOk result (founds.new.items ≡ founds.old.items ++ found ∷ []) }
{
    founds.reserve(1)?;
    founds.push_reserved(found);
    Ok(())
}

/// The verdict on a native with these parts.
pub(crate) fn judge(
    alloc: Global,
    native: Evaluated,
    parts: &[Checked],
) -> Result<Concluded, Fault<Rule>>
    ensures { Judges native parts.now result }
{
    match native {
        Evaluated::Values(native) => on_native(alloc, native, parts),
        Evaluated::Parts(native) => on_parts(alloc, native, parts),
    }
}

/// What a node of a native does.
#[tactic(auto, unfolding(cl_code::specs::Nodes::has_own_name, cl_code::specs::Nodes::goes_op))]
pub(crate) fn op_of(native: Evaluated, head: Span) -> Op
    ensures text { (es : List Tree) (at : Place) →
        expression result es at ≡ headed (name_of (head_at native)) head es at }
    ensures fit { (n : ℕ) → has_parts result n ≡ takes (row_of (head_at native)).arity n }
    ensures named { has_own_name result ≡ true }
    ensures goes { GoesWith native result }
{
    match native {
        Evaluated::Values(native) => Op::OnValues { native, head },
        Evaluated::Parts(native) => Op::OnParts { native, head },
    }
}

fn add(
    scope: &mut Scope,
    founds: &mut Vec<Checked>,
    name: Name,
    ty: SizedTy,
    found: Checked,
) -> Result<(), NoMemory>
    requires { named_in name scope.old.entries ≡ None }
    ensures bound { OnOk result (scope.new.entries ≡ bind name ty scope.old.entries) }
    ensures grown { OnOk result (founds.new.items ≡ founds.old.items ++ found ∷ []) }
{
    bind(scope, name, ty)?;
    push(founds, found)
}

/// Adds a binding to the names that are bound and to the parts.
pub(crate) fn add_binding(
    alloc: Global,
    scope: &mut Scope,
    founds: &mut Vec<Checked>,
    name: Name,
    found: Checked,
) -> Result<(), NoMemory>
    requires { named_in name scope.old.entries ≡ None }
    ensures bound { OnOk result (scope.new.entries ≡ bind name (type_of found.code) scope.old.entries) }
    ensures grown { OnOk result (founds.new.items ≡ founds.old.items ++ found ∷ []) }
{
    let ty = found.code.result().copy(alloc)?;
    add(scope, founds, name, ty, found)
}
