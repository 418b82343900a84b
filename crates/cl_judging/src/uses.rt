//! What is given by name to be applied, and verdicts on what applies it.
ghost use Rattle.std.specs.Prelude.{◌≡◌, length, Some, true, IfSome, IfNone};
ghost use Rattle.cl_code.specs.Expression.{applied_name, word};
ghost use Rattle.cl_code.specs.Nodes.{goes_applied, has_own_applied};
ghost use Rattle.cl_judging.specs.Uses.{Applies, AppliesNothing, Iterates, function_shown, iteration_verdict, native_use, takes_used};

use crate::context::{Context, Signature, function_under};
use crate::kinds::has_enough;
use crate::scope::name_in;
use cl_code::{Applied, Iteration, Word};
use cl_forms::{Head, is_by_name, native};
use cl_sexpr::{Rule, Sexpr, Span};
use cl_types::Fault;
use cl_typing::{Checked, Concluded, Usable, on_filter, on_fold, on_map};
use cl_values::Native;
use std::alloc::Global;

/// What is given by name to be applied: what a node keeps of it, and what is known of it.
#[derive(Clone, Copy)]
pub(crate) struct Use<'a> {
    pub applied: Applied,
    pub usable: Usable<'a>,
}

fn value_use<'a>(native: Native, at: Span) -> Option<Use<'a>>
    ensures { result ≡ native_use (Head.OnValues native) at }
{
    if is_by_name(Head::OnValues(native)) {
        Some(Use {
            applied: Applied::OnValues(native, at),
            usable: Usable::OnValues(native),
        })
    } else {
        None
    }
}

/// A native, where it can be given by name.
fn native_use<'a>(head: Head, at: Span) -> Option<Use<'a>>
    ensures { result ≡ native_use head at }
{
    match head {
        Head::OnValues(native) => value_use(native, at),
        Head::And => Some(Use {
            applied: Applied::And(at),
            usable: Usable::And,
        }),
        Head::Or => Some(Use {
            applied: Applied::Or(at),
            usable: Usable::Or,
        }),
        _ => None,
    }
}

/// A function of the contract.
fn function_use<'a>(f: &'a Signature, word: Word) -> Use<'a>
    ensures applied { result.applied ≡ Applied.Function word }
    ensures usable { function_shown result.usable ≡ Some (f.now.params.items, f.now.returns, f.now.height) }
{
    Use {
        applied: Applied::Function(word),
        usable: Usable::Function(&f.params, &f.returns, f.height),
    }
}

/// What a name gives to be applied.
fn use_of<'a>(ctx: &'a Context, name: Word) -> Option<Use<'a>>
    ensures text { IfSome result (λ u. applied_name u.applied ≡ word name) }
    ensures own { IfSome result (λ u. has_own_applied u.applied ≡ true) }
    ensures goes { IfSome result (λ u. goes_applied ctx.now.version u.applied ≡ true) }
    ensures some { IfSome result (λ u. Applies ctx.now (word name) u.usable) }
    ensures none { IfNone result (AppliesNothing ctx.now (word name)) }
{
    if let Some(row) = native(&name.name, ctx.version) {
        return native_use(row.head, name.span);
    }
    if let Some(f) = function_under(&ctx.functions, &name.name) {
        return Some(function_use(f, name));
    }
    None
}

/// What an item gives to be applied.
pub(crate) fn use_at<'a>(ctx: &'a Context, e: &Sexpr) -> Option<Use<'a>>
    ensures text { IfSome result (λ u. e.now ≡ applied_name u.applied) }
    ensures own { IfSome result (λ u. has_own_applied u.applied ≡ true) }
    ensures goes { IfSome result (λ u. goes_applied ctx.now.version u.applied ≡ true) }
    ensures some { IfSome result (λ u. Applies ctx.now e.now u.usable) }
    ensures none { IfNone result (AppliesNothing ctx.now e.now) }
{
    let name = name_in(e)?;
    use_of(ctx, name)
}

/// Whether what is applied takes so many values.
pub(crate) fn takes_values(usable: &Usable, args: &[Sexpr]) -> bool
    ensures { result ≡ takes_used usable.now (length args.now) }
{
    match usable {
        Usable::Function(params, _, _) => args.len() == params.len(),
        Usable::OnValues(native) => has_enough(Head::OnValues(*native), args),
        Usable::And => has_enough(Head::And, args),
        Usable::Or => has_enough(Head::Or, args),
    }
}

/// The verdict on a native that applies something to these parts.
pub(crate) fn on_iteration(
    alloc: Global,
    iteration: Iteration,
    usable: &Usable,
    parts: &[Checked],
) -> Result<Concluded, Fault<Rule>>
    ensures { Iterates (iteration_verdict iteration) usable.now parts.now result }
{
    match iteration {
        Iteration::Map => on_map(alloc, usable, parts),
        Iteration::Filter => on_filter(alloc, usable, parts),
        Iteration::Fold => on_fold(alloc, usable, parts),
    }
}
