//! Rows of match and try.
ghost use Rattle.std.specs.Prelude.{◌≡◌, map, IfOk};
ghost use Rattle.std.specs.Prelude.{[], ◌∷◌};
ghost use Rattle.cl_types.specs.Types.{NoType, ResponseType};
ghost use Rattle.cl_types.specs.TypeKinds.{is_undetermined};
ghost use Rattle.cl_types.specs.Sized.{IsSized};
ghost use Rattle.cl_rules.specs.NativeTypes.{lubbed, one};
ghost use Rattle.cl_rules.specs.ControlShapes.{if_determined, tried, try_row};
ghost use Rattle.cl_typing.specs.Verdicts.{Rules, RulesWith};
ghost use Rattle.cl_typing.specs.Branches.{optional_row, response_row, tried_of};

use crate::making::{fit, lubbed, no_type, none_type};
use crate::native_types::only;
use crate::rows::{nothing, part};
use cl_sexpr::Rule;
use cl_types::{Fault, NoMemory, SizedTy, Ty, TyKind};
use std::alloc::Global;

// ---- match

/// Two branches, where what they bind is determined.
fn branches(
    alloc: Global,
    determined: bool,
    first: &SizedTy,
    second: &SizedTy,
) -> Result<SizedTy, Fault<Rule>>
    ensures { Rules (if_determined determined (lubbed first.now second.now)) result }
{
    match lubbed(alloc, first, second) {
        Ok(ty) => {
            if determined {
                Ok(ty)
            } else {
                Err(Fault::Refused(Rule::Undetermined))
            }
        }
        Err(fault) => Err(fault),
    }
}

fn is_no_type(ty: &Ty) -> bool
    ensures { result ≡ is_undetermined ty.now }
{
    matches!(ty.kind, TyKind::NoType)
}

fn optional_branches(
    alloc: Global,
    input: &SizedTy,
    some: &SizedTy,
    none: &SizedTy,
) -> Result<SizedTy, Fault<Rule>>
    ensures { Rules (optional_row (input.now ∷ some.now ∷ none.now ∷ [])) result }
{
    match &input.ty().kind {
        TyKind::Optional(part) => branches(alloc, !is_no_type(part), some, none),
        _ => Err(Fault::Refused(Rule::ArgumentKind)),
    }
}

fn response_branches(
    alloc: Global,
    input: &SizedTy,
    good: &SizedTy,
    bad: &SizedTy,
) -> Result<SizedTy, Fault<Rule>>
    ensures { Rules (response_row (input.now ∷ good.now ∷ bad.now ∷ [])) result }
{
    match &input.ty().kind {
        TyKind::Response(ok, err) => {
            branches(alloc, !(is_no_type(ok) || is_no_type(err)), good, bad)
        }
        _ => Err(Fault::Refused(Rule::ArgumentKind)),
    }
}

/// A match of an optional: its input, and the branches of its part and of none.
pub fn match_optional(alloc: Global, types: &[&SizedTy]) -> Result<SizedTy, Fault<Rule>>
    ensures { Rules (optional_row (map (λ t. t.now) types.now)) result }
{
    if types.len() == 3 {
        return optional_branches(alloc, types[0], types[1], types[2]);
    }
    Err(Fault::Refused(Rule::ArgumentKind))
}

/// A match of a response: its input, and the branches of its ok and of its err.
pub fn match_response(alloc: Global, types: &[&SizedTy]) -> Result<SizedTy, Fault<Rule>>
    ensures { Rules (response_row (map (λ t. t.now) types.now)) result }
{
    if types.len() == 3 {
        return response_branches(alloc, types[0], types[1], types[2]);
    }
    Err(Fault::Refused(Rule::ArgumentKind))
}

// ---- try

/// The type of an err alone.
fn err_alone(alloc: Global, bad: &Ty) -> Result<SizedTy, NoMemory>
    requires { IsSized (ResponseType NoType bad.now) }
    ensures { IfOk result (λ t. t ≡ ResponseType NoType bad.now) }
{
    let good = no_type(alloc)?;
    let bad = Box::new(alloc, bad.copy(alloc)?)?;
    fit(
        alloc,
        Ty {
            kind: TyKind::Response(good, bad),
        },
    )
}

/// What an optional or a response throws where it is tried: none, or the err.
pub fn tried(alloc: Global, t: &SizedTy) -> Result<Option<SizedTy>, NoMemory>
    ensures { IfOk result (λ o. o ≡ tried t.now) }
{
    match &t.ty().kind {
        TyKind::Optional(_) => {
            let thrown = none_type(alloc)?;
            Ok(Some(thrown))
        }
        TyKind::Response(_, bad) => {
            let thrown = err_alone(alloc, bad)?;
            Ok(Some(thrown))
        }
        _ => Ok(None),
    }
}

/// What the one argument throws where it is tried.
pub fn tried_argument(alloc: Global, types: &[&SizedTy]) -> Result<Option<SizedTy>, NoMemory>
    ensures { IfOk result (λ o. o ≡ tried_of (map (λ t. t.now) types.now)) }
{
    match only(types) {
        Some(t) => tried(alloc, t),
        None => Ok(None),
    }
}

/// The part of what is tried.
pub fn try_type(alloc: Global, types: &[&SizedTy]) -> Result<SizedTy, Fault<Rule>>
    ensures { RulesWith (tried_of (map (λ t. t.now) types.now)) (one try_row (map (λ t. t.now) types.now)) result }
{
    match only(types) {
        Some(t) => part(alloc, t),
        None => nothing(alloc),
    }
}
