//! Types that are made.
ghost use Rattle.std.specs.Prelude.{◌≡◌, ◌≤◌, true, IfOk, Ok};
ghost use Rattle.cl_types.specs.Types.{depth_of, NoType, UintType, OptionalType, ResponseType};
ghost use Rattle.cl_types.specs.Lattice.{least_supertype};
ghost use Rattle.cl_types.specs.Sized.{IsSized, everywhere, keys_rise};
ghost use Rattle.cl_types.specs.TypeView.{plain_of};
ghost use Rattle.cl_rules.specs.NativeTypes.{made, lubbed, of_kind};
ghost use Rattle.cl_typing.specs.Verdicts.{Rules, Lubs, is_fit};

use cl_sexpr::Rule;
use cl_types::{Fault, NoMemory, SizedTy, Ty, TyKind, TyRefusal, lub, measured};
use std::alloc::{AllocError, Global};

/// The least supertype of two types.
pub fn lubbed(alloc: Global, a: &SizedTy, b: &SizedTy) -> Result<SizedTy, Fault<Rule>>
    ensures ruled { Rules (lubbed a.now b.now) result }
    ensures joined { Lubs (least_supertype a.now b.now) result }
{
    match lub(alloc, a, b) {
        Ok(ty) => Ok(ty),
        Err(Fault::Refused(TyRefusal::Differ)) => Err(Fault::Refused(Rule::NotSame)),
        Err(Fault::Refused(_)) => Err(Fault::Refused(Rule::TooLarge)),
        Err(Fault::NoMemory) => Err(Fault::NoMemory),
    }
}

/// A type that is within the limits as it stands.
pub(crate) fn fit(alloc: Global, ty: Ty) -> Result<SizedTy, NoMemory>
    requires { IsSized ty }
    ensures { IfOk result (λ t. t ≡ ty) }
{
    match SizedTy::make(alloc, ty) {
        Ok(ty) => Ok(ty),
        Err(Fault::Refused(_)) => unreachable!(),
        Err(Fault::NoMemory) => Err(NoMemory),
    }
}

/// A type of this kind.
pub fn of(alloc: Global, kind: TyKind) -> Result<SizedTy, NoMemory>
    requires { is_fit (plain_of kind) ≡ true }
    ensures { IfOk result (λ t. t ≡ plain_of kind) }
{
    fit(alloc, Ty { kind })
}

/// The type, where the arguments are of the row's kinds.
pub fn where_kind(holds: bool, ty: SizedTy) -> Result<SizedTy, Fault<Rule>>
    ensures { Rules (of_kind holds ty) result }
{
    if holds {
        Ok(ty)
    } else {
        Err(Fault::Refused(Rule::ArgumentKind))
    }
}

/// A type of this kind, where the arguments are of the row's.
pub fn of_kind(alloc: Global, holds: bool, kind: TyKind) -> Result<SizedTy, Fault<Rule>>
    requires { is_fit (plain_of kind) ≡ true }
    ensures { Rules (of_kind holds (plain_of kind)) result }
{
    if !holds {
        return Err(Fault::Refused(Rule::ArgumentKind));
    }
    let ty = of(alloc, kind)?;
    Ok(ty)
}

/// The type, where the arguments are of the row's kinds.
pub fn copy_of_kind(alloc: Global, holds: bool, ty: &SizedTy) -> Result<SizedTy, Fault<Rule>>
    ensures { Rules (of_kind holds ty.now) result }
{
    if !holds {
        return Err(Fault::Refused(Rule::ArgumentKind));
    }
    let ty = ty.copy(alloc)?;
    Ok(ty)
}

/// A type that is made of types within the limits.
pub fn made(alloc: Global, ty: Ty) -> Result<SizedTy, Fault<Rule>>
    requires keys { everywhere keys_rise ty ≡ true }
    requires depth { depth_of ty ≤ 128 }
    ensures { Rules (made ty) result }
{
    let Some(_) = measured(&ty) else {
        return Err(Fault::Refused(Rule::TooLarge));
    };
    match SizedTy::make(alloc, ty) {
        Ok(ty) => Ok(ty),
        Err(Fault::Refused(_)) => Err(Fault::Refused(Rule::TooDeep)),
        Err(Fault::NoMemory) => Err(Fault::NoMemory),
    }
}

fn boxed(alloc: Global, ty: &SizedTy) -> Result<Box<Ty>, AllocError>
    ensures value { IfOk result (λ b. b.value ≡ ty.now) }
    ensures sized { IfOk result (λ b. IsSized b.value) }
{
    let copy = ty.ty().copy(alloc)?;
    Ok(Box::new(alloc, copy)?)
}

/// The tree of a type, in a box of its own.
pub(crate) fn into_box(alloc: Global, ty: SizedTy) -> Result<Box<Ty>, AllocError>
    ensures value { IfOk result (λ b. b.value ≡ ty) }
    ensures sized { IfOk result (λ b. IsSized b.value) }
{
    Ok(Box::new(alloc, ty.into_ty())?)
}

pub(crate) fn no_type(alloc: Global) -> Result<Box<Ty>, AllocError>
    ensures { IfOk result (λ b. b.value ≡ NoType) }
{
    Ok(Box::new(
        alloc,
        Ty {
            kind: TyKind::NoType,
        },
    )?)
}

/// An optional of this part.
pub fn optional(alloc: Global, part: SizedTy) -> Result<SizedTy, Fault<Rule>>
    ensures { Rules (made (OptionalType part)) result }
{
    let part = into_box(alloc, part)?;
    made(
        alloc,
        Ty {
            kind: TyKind::Optional(part),
        },
    )
}

/// A response whose ok part is this.
pub fn good(alloc: Global, part: &SizedTy) -> Result<SizedTy, Fault<Rule>>
    ensures { Rules (made (ResponseType part.now NoType)) result }
{
    let good = boxed(alloc, part)?;
    let bad = no_type(alloc)?;
    made(
        alloc,
        Ty {
            kind: TyKind::Response(good, bad),
        },
    )
}

/// A response whose err part is this.
pub fn bad(alloc: Global, part: &SizedTy) -> Result<SizedTy, Fault<Rule>>
    ensures { Rules (made (ResponseType NoType part.now)) result }
{
    let good = no_type(alloc)?;
    let bad = boxed(alloc, part)?;
    made(
        alloc,
        Ty {
            kind: TyKind::Response(good, bad),
        },
    )
}

/// An optional uint.
pub(crate) fn optional_uint(alloc: Global) -> Result<SizedTy, NoMemory>
    ensures { IfOk result (λ t. t ≡ OptionalType UintType) }
{
    let part = Box::new(alloc, Ty { kind: TyKind::Uint })?;
    fit(
        alloc,
        Ty {
            kind: TyKind::Optional(part),
        },
    )
}

/// The type of `none`.
pub fn none_type(alloc: Global) -> Result<SizedTy, NoMemory>
    ensures { IfOk result (λ t. t ≡ OptionalType NoType) }
{
    let part = no_type(alloc)?;
    fit(
        alloc,
        Ty {
            kind: TyKind::Optional(part),
        },
    )
}
