//! Rows of the table of natives.
ghost use Rattle.std.specs.Prelude.{◌≡◌, map, IfOk};
ghost use Rattle.cl_types.specs.Types.{NoType, OptionalType};
ghost use Rattle.cl_types.specs.Sized.{IsSized};
ghost use Rattle.cl_rules.specs.NativeTypes.{fine, made, of_kind, number_row, compare_row, hash_row, default_row, part_taken, part_row, err_row};
ghost use Rattle.cl_rules.specs.ControlShapes.{truth_row, last_row};
ghost use Rattle.cl_typing.specs.Verdicts.{Rules};

use crate::kinds::{are_bools, are_numbers, is_hashed, is_response};
use crate::making::{copy_of_kind, fit, lubbed, of, of_kind, optional};
use cl_sexpr::Rule;
use cl_types::{Fault, NoMemory, SizedTy, Ty, TyKind};
use std::alloc::Global;

/// What is asked of nothing.
pub fn nothing(alloc: Global) -> Result<SizedTy, Fault<Rule>>
    ensures { Rules (fine NoType) result }
{
    let ty = of(alloc, TyKind::NoType)?;
    Ok(ty)
}

/// The type itself.
pub fn itself(alloc: Global, ty: &SizedTy) -> Result<SizedTy, Fault<Rule>>
    ensures { Rules (fine ty.now) result }
{
    let ty = ty.copy(alloc)?;
    Ok(ty)
}

/// An optional of the type.
pub fn some(alloc: Global, ty: &SizedTy) -> Result<SizedTy, Fault<Rule>>
    ensures { Rules (made (OptionalType ty.now)) result }
{
    let part = ty.copy(alloc)?;
    optional(alloc, part)
}

/// Numbers of one kind, of which the first's type is given.
pub fn number(alloc: Global, types: &[&SizedTy]) -> Result<SizedTy, Fault<Rule>>
    ensures { Rules (number_row (map (λ t. t.now) types.now)) result }
{
    match types.first() {
        Some(first) => copy_of_kind(alloc, are_numbers(types), first),
        None => of_kind(alloc, are_numbers(types), TyKind::NoType),
    }
}

/// Numbers of one kind.
pub fn compare(alloc: Global, types: &[&SizedTy]) -> Result<SizedTy, Fault<Rule>>
    ensures { Rules (compare_row (map (λ t. t.now) types.now)) result }
{
    of_kind(alloc, are_numbers(types), TyKind::Bool)
}

/// Bools.
pub fn truth(alloc: Global, types: &[&SizedTy]) -> Result<SizedTy, Fault<Rule>>
    ensures { Rules (truth_row (map (λ t. t.now) types.now)) result }
{
    of_kind(alloc, are_bools(types), TyKind::Bool)
}

/// A digest of 32 bytes.
pub fn short_hash(alloc: Global, t: &SizedTy) -> Result<SizedTy, Fault<Rule>>
    ensures { Rules (hash_row 32 t.now) result }
{
    of_kind(alloc, is_hashed(t), TyKind::Buff(32))
}

/// A digest of 64 bytes.
pub fn long_hash(alloc: Global, t: &SizedTy) -> Result<SizedTy, Fault<Rule>>
    ensures { Rules (hash_row 64 t.now) result }
{
    of_kind(alloc, is_hashed(t), TyKind::Buff(64))
}

/// A part of a type within the limits.
pub fn inner(alloc: Global, part: &Ty) -> Result<SizedTy, NoMemory>
    requires { IsSized part.now }
    ensures { IfOk result (λ t. t ≡ part.now) }
{
    let copy = part.copy(alloc)?;
    fit(alloc, copy)
}

/// A part that is taken out, and has to be determined.
fn determined(alloc: Global, part: &Ty) -> Result<SizedTy, Fault<Rule>>
    requires { IsSized part.now }
    ensures { Rules (part_taken part.now) result }
{
    if let TyKind::NoType = part.kind {
        return Err(Fault::Refused(Rule::Undetermined));
    }
    let part = inner(alloc, part)?;
    Ok(part)
}

/// The part of an optional, or the ok part of a response.
pub fn part(alloc: Global, t: &SizedTy) -> Result<SizedTy, Fault<Rule>>
    ensures { Rules (part_row t.now) result }
{
    match &t.ty().kind {
        TyKind::Optional(part) => determined(alloc, part),
        TyKind::Response(part, _) => determined(alloc, part),
        _ => Err(Fault::Refused(Rule::ArgumentKind)),
    }
}

/// The err part of a response.
pub fn err_part(alloc: Global, t: &SizedTy) -> Result<SizedTy, Fault<Rule>>
    ensures { Rules (err_row t.now) result }
{
    match &t.ty().kind {
        TyKind::Response(_, part) => determined(alloc, part),
        _ => Err(Fault::Refused(Rule::ArgumentKind)),
    }
}

/// A value and the optional for which it stands in.
pub fn default(alloc: Global, t: &SizedTy, u: &SizedTy) -> Result<SizedTy, Fault<Rule>>
    ensures { Rules (default_row t.now u.now) result }
{
    match &u.ty().kind {
        TyKind::Optional(part) => {
            let part = inner(alloc, part)?;
            lubbed(alloc, t, &part)
        }
        _ => Err(Fault::Refused(Rule::ArgumentKind)),
    }
}

/// The last type, where no other is a response.
pub fn last(alloc: Global, types: &[&SizedTy]) -> Result<SizedTy, Fault<Rule>>
    ensures { Rules (last_row (map (λ t. t.now) types.now)) result }
{
    let Some((last, others)) = types.split_last() else {
        return nothing(alloc);
    };
    for ty in others {
        if is_response(ty) {
            return Err(Fault::Refused(Rule::UnusedResponse));
        }
    }
    itself(alloc, last)
}
