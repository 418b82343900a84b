//! What match takes apart.
ghost use Rattle.std.specs.Prelude.{◌≡◌, ◌≢◌, ◌∷◌, [], length, IfNone, IfOk, IfSome};
ghost use Rattle.cl_code.specs.Typed.{type_of};
ghost use Rattle.cl_typing.specs.Branches.{optional_row, response_row};
ghost use Rattle.cl_typing.specs.Verdicts.{ConcludesRow};
ghost use Rattle.cl_judging.specs.Branching.{optional_part, refusal, response_parts};

use crate::node::broken;
use cl_sexpr::{Break, Rule, Sexpr, Span};
use cl_types::{Fault, NoMemory, SizedTy, TyKind};
use cl_typing::{Checked, Concluded, conclude, inner, match_optional, match_response, types_of};
use std::alloc::Global;

/// The part of what was found, where it is an optional.
pub(crate) fn part_of(alloc: Global, found: &Checked) -> Result<Option<SizedTy>, NoMemory>
    ensures { IfOk result (λ o. o ≡ optional_part (type_of found.now.code)) }
{
    optional_part(alloc, found.code.result())
}

fn optional_part(alloc: Global, ty: &SizedTy) -> Result<Option<SizedTy>, NoMemory>
    ensures { IfOk result (λ o. o ≡ optional_part ty.now) }
{
    match &ty.ty().kind {
        TyKind::Optional(part) => {
            let part = inner(alloc, part)?;
            Ok(Some(part))
        }
        _ => Ok(None),
    }
}

/// The parts of what was found, where it is a response.
pub(crate) fn parts_of(
    alloc: Global,
    found: &Checked,
) -> Result<Option<(SizedTy, SizedTy)>, NoMemory>
    ensures { IfOk result (λ o. o ≡ response_parts (type_of found.now.code)) }
{
    response_parts(alloc, found.code.result())
}

fn response_parts(alloc: Global, ty: &SizedTy) -> Result<Option<(SizedTy, SizedTy)>, NoMemory>
    ensures { IfOk result (λ o. o ≡ response_parts ty.now) }
{
    match &ty.ty().kind {
        TyKind::Response(good, bad) => {
            let good = inner(alloc, good)?;
            let bad = inner(alloc, bad)?;
            Ok(Some((good, bad)))
        }
        _ => Ok(None),
    }
}

/// The items of a match of an optional.
pub(crate) fn four(items: &[Sexpr]) -> Option<(&Sexpr, &Sexpr, &Sexpr, &Sexpr)>
    ensures some { IfSome result (λ p. items.now ≡ p.0.now ∷ p.1.now ∷ p.2.now ∷ p.3.now ∷ []) }
    ensures none { IfNone result (length items.now ≢ 4) }
{
    if items.len() == 4 {
        Some((&items[0], &items[1], &items[2], &items[3]))
    } else {
        None
    }
}

/// The items of a match of a response.
pub(crate) fn five(items: &[Sexpr]) -> Option<(&Sexpr, &Sexpr, &Sexpr, &Sexpr, &Sexpr)>
    ensures some { IfSome result (λ p. items.now ≡ p.0.now ∷ p.1.now ∷ p.2.now ∷ p.3.now ∷ p.4.now ∷ []) }
    ensures none { IfNone result (length items.now ≢ 5) }
{
    if items.len() == 5 {
        Some((&items[0], &items[1], &items[2], &items[3], &items[4]))
    } else {
        None
    }
}

/// The fault of a match of what is no optional, by what is found of its last expression.
pub(crate) fn refusal(last: Result<Checked, Fault<Break>>, span: Span) -> Fault<Break>
    ensures { result ≡ refusal last span }
{
    match last {
        Ok(_) => broken(Rule::ArgumentKind, span),
        Err(fault) => fault,
    }
}

/// The verdict on a match of an optional.
pub(crate) fn on_optional(alloc: Global, parts: &[Checked]) -> Result<Concluded, Fault<Rule>>
    ensures { ConcludesRow optional_row 0 parts.now result }
{
    let types = types_of(alloc, parts)?;
    let ruled = match_optional(alloc, &types);
    conclude(alloc, ruled, &None, 0, parts)
}

/// The verdict on a match of a response.
pub(crate) fn on_response(alloc: Global, parts: &[Checked]) -> Result<Concluded, Fault<Rule>>
    ensures { ConcludesRow response_row 0 parts.now result }
{
    let types = types_of(alloc, parts)?;
    let ruled = match_response(alloc, &types);
    conclude(alloc, ruled, &None, 0, parts)
}
