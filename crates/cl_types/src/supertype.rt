//! The least type that admits two.
ghost use Rattle.std.specs.Prelude.{◌≡◌, ◌↔◌, ◌⊎◌, IfOk, Ok, Err, Some, None, Option, option_map};
ghost use Rattle.cl_types.specs.Fault.{IfRefused};
ghost use Rattle.cl_types.specs.declared.sized.TyRefusal.TheVariants.{Differ, TooLarge};
ghost use Rattle.cl_types.specs.Types.{ListType, TupleType, OptionalType, ResponseType, fields, IsLeastSupertype, HaveNoSupertype};
ghost use Rattle.cl_types.specs.Lattice.{both, joined, joined_fields, field_joined, least_supertype, HaveLargeSupertype};

use crate::admission::{have_same_count, is_same_key};
use crate::{Fault, Name, SizedTy, Ty, TyKind, TyRefusal};
use std::alloc::{AllocError, Global};

fn boxed(alloc: Global, ty: Ty) -> Result<Box<Ty>, AllocError>
    ensures { IfOk result (λ b. b.value ≡ ty) }
{
    Ok(Box::new(alloc, ty)?)
}

fn list_of(alloc: Global, most: u32, entry: Option<Ty>) -> Result<Option<Ty>, AllocError>
    ensures { IfOk result (λ o. o ≡ option_map (ListType most) entry) }
{
    let Some(entry) = entry else {
        return Ok(None);
    };
    let entry = boxed(alloc, entry)?;
    let kind = TyKind::List(most, entry);
    Ok(Some(Ty { kind }))
}

fn tuple_of(row: Option<Vec<(Name, Ty)>>) -> Option<Ty>
    ensures { result ≡ option_map (λ v. TupleType (fields v.items)) row }
{
    let Some(row) = row else {
        return None;
    };
    let kind = TyKind::Tuple(row);
    Some(Ty { kind })
}

fn optional_of(alloc: Global, part: Option<Ty>) -> Result<Option<Ty>, AllocError>
    ensures { IfOk result (λ o. o ≡ option_map OptionalType part) }
{
    let Some(part) = part else {
        return Ok(None);
    };
    let part = boxed(alloc, part)?;
    let kind = TyKind::Optional(part);
    Ok(Some(Ty { kind }))
}

fn response_of(alloc: Global, good: Option<Ty>, bad: Option<Ty>) -> Result<Option<Ty>, AllocError>
    ensures { IfOk result (λ o. o ≡ both ResponseType good bad) }
{
    let Some(good) = good else {
        return Ok(None);
    };
    let Some(bad) = bad else {
        return Ok(None);
    };
    let good = boxed(alloc, good)?;
    let bad = boxed(alloc, bad)?;
    let kind = TyKind::Response(good, bad);
    Ok(Some(Ty { kind }))
}

/// The least type that admits both, of any size, where there is one.
#[cycle(join)]
fn join(alloc: Global, a: &Ty, b: &Ty) -> Result<Option<Ty>, AllocError>
    ensures { IfOk result (λ o. o ≡ joined a.now b.now) }
{
    let kind = match (&a.kind, &b.kind) {
        (_, TyKind::NoType) => {
            let ty = a.copy(alloc)?;
            return Ok(Some(ty));
        }
        (TyKind::NoType, _) => {
            let ty = b.copy(alloc)?;
            return Ok(Some(ty));
        }
        (TyKind::Int, TyKind::Int) => TyKind::Int,
        (TyKind::Uint, TyKind::Uint) => TyKind::Uint,
        (TyKind::Bool, TyKind::Bool) => TyKind::Bool,
        (TyKind::Principal, TyKind::Principal) => TyKind::Principal,
        (TyKind::Buff(most), TyKind::Buff(length)) => TyKind::Buff((*most).max(*length)),
        (TyKind::Ascii(most), TyKind::Ascii(length)) => TyKind::Ascii((*most).max(*length)),
        (TyKind::Utf8(most), TyKind::Utf8(length)) => TyKind::Utf8((*most).max(*length)),
        (TyKind::List(most, entry), TyKind::List(length, part)) => {
            let entry = join(alloc, entry, part)?;
            return list_of(alloc, (*most).max(*length), entry);
        }
        (TyKind::Tuple(row), TyKind::Tuple(parts)) => {
            let row = join_rows(alloc, row, parts)?;
            return Ok(tuple_of(row));
        }
        (TyKind::Optional(inner), TyKind::Optional(part)) => {
            let inner = join(alloc, inner, part)?;
            return optional_of(alloc, inner);
        }
        (TyKind::Response(good, bad), TyKind::Response(good_part, bad_part)) => {
            let good = join(alloc, good, good_part)?;
            let bad = join(alloc, bad, bad_part)?;
            return response_of(alloc, good, bad);
        }
        _ => return Ok(None),
    };
    Ok(Some(Ty { kind }))
}

#[cycle(join)]
fn join_rows(
    alloc: Global,
    a: &[(Name, Ty)],
    b: &[(Name, Ty)],
) -> Result<Option<Vec<(Name, Ty)>>, AllocError>
    ensures { IfOk result (λ o. option_map (λ v. fields v.items) o ≡ joined_fields (fields a.now) (fields b.now)) }
{
    if !have_same_count(a, b) {
        return Ok(None);
    }
    let mut row = Vec::new(alloc);
    for i in 0..a.len() {
        let Some(field) = join_field(alloc, &a[i], &b[i])? else {
            return Ok(None);
        };
        row.push(field)?;
    }
    Ok(Some(row))
}

#[cycle(join)]
fn join_field(
    alloc: Global,
    a: &(Name, Ty),
    b: &(Name, Ty),
) -> Result<Option<(Name, Ty)>, AllocError>
    ensures { IfOk result (λ o. o ≡ field_joined a.now b.now) }
{
    if !is_same_key(&a.0, &b.0) {
        return Ok(None);
    }
    let Some(ty) = join(alloc, &a.1, &b.1)? else {
        return Ok(None);
    };
    Ok(Some((a.0, ty)))
}

/// The least supertype of two types (SIP-002): the type that admits both and that every type that
/// admits both admits. It is refused with `Differ` exactly where no type of any size admits both, and
/// with `TooLarge` exactly where the least one, or a part of it, is above the greatest size. Its depth
/// is the greater depth of the two.
pub fn lub(alloc: Global, a: &SizedTy, b: &SizedTy) -> Result<SizedTy, Fault<TyRefusal>>
    ensures least { IfOk result (λ c. IsLeastSupertype a.now b.now c) }
    ensures differ { IfRefused result (λ r. (r ≡ Differ) ↔ HaveNoSupertype a.now b.now) }
    ensures too_large { IfRefused result (λ r. (r ≡ TooLarge) ↔ HaveLargeSupertype a.now b.now) }
    ensures no_other { IfRefused result (λ r. (r ≡ Differ) ⊎ (r ≡ TooLarge)) }
    ensures found { IfOk result (λ c. least_supertype a.now b.now ≡ Ok c) }
    ensures refused { IfRefused result (λ r. least_supertype a.now b.now ≡ Err r) }
{
    let Some(ty) = join(alloc, a.ty(), b.ty())? else {
        return Err(Fault::Refused(TyRefusal::Differ));
    };
    match SizedTy::of_ordered(ty) {
        Some(ty) => Ok(ty),
        None => Err(Fault::Refused(TyRefusal::TooLarge)),
    }
}
