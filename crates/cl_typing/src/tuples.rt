//! Rows of tuples.
ghost use Rattle.std.specs.Prelude.{◌≡◌, ◌≤◌, ◌<◌, ◌++◌, [], ◌∷◌, length, map, true, false, IfOk, IfSome};
ghost use Rattle.std.specs.Option.{option_copied};
ghost use Rattle.cl_types.specs.Types.{TupleType, OptionalType, fields, depths_of};
ghost use Rattle.cl_types.specs.Sized.{IsSized, AreSized, everywhere_in, keys_rise, has_key, differ, is_among, in_order};
ghost use Rattle.cl_rules.specs.NativeTypes.{fine, made, one, merge_row, type_of_key, under_key, get_row};
ghost use Rattle.cl_rules.specs.DataShapes.{stands_twice, tuple_row};
ghost use Rattle.cl_typing.specs.Verdicts.{Rules};
ghost use Rattle.cl_typing.specs.Tuples.{unlike, paired};

use crate::making::{made, optional};
use crate::native_types::only;
use crate::rows::{inner, nothing};
use cl_sexpr::Rule;
use cl_types::{Fault, Name, SizedTy, Ty, TyKind, sort_row};
use std::alloc::{AllocError, Global};

fn sorted(alloc: Global, mut row: Vec<(Name, Ty)>) -> Result<Vec<(Name, Ty)>, AllocError>
    ensures { IfOk result (λ v. fields v.items ≡ in_order (fields row.items)) }
{
    sort_row(alloc, &mut row)?;
    Ok(row)
}

/// A tuple of these keys, which differ, and types, put in rising order.
fn tuple(alloc: Global, row: Vec<(Name, Ty)>) -> Result<SizedTy, Fault<Rule>>
    requires rise { everywhere_in keys_rise (fields row.items) ≡ true }
    requires depth { depths_of (fields row.items) ≤ 32 }
    requires keyed { has_key (TupleType (fields row.items)) ≡ true }
    requires differ { differ (fields row.items) ≡ true }
    ensures { Rules (made (TupleType (in_order (fields row.items)))) result }
{
    let row = sorted(alloc, row)?;
    made(
        alloc,
        Ty {
            kind: TyKind::Tuple(row),
        },
    )
}

/// The keys with the types in their places.
fn pairs(alloc: Global, keys: &[Name], types: &[&SizedTy]) -> Result<Vec<(Name, Ty)>, AllocError>
    requires { length keys.now ≡ length types.now }
    ensures value { IfOk result (λ v. v.items ≡ paired keys.now (map (λ t. t.now) types.now)) }
    ensures rise { IfOk result (λ v. everywhere_in keys_rise (fields v.items) ≡ true) }
    ensures depth { IfOk result (λ v. depths_of (fields v.items) ≤ 32) }
{
    let mut row = Vec::new(alloc);
    for i in 0..keys.len() {
        let part = types[i].ty().copy(alloc)?;
        row.push((keys[i], part))?;
    }
    Ok(row)
}

/// A tuple of these keys, of which none stands twice, with the types in their places.
pub fn tuple_type(alloc: Global, keys: &[Name], types: &[&SizedTy]) -> Result<SizedTy, Fault<Rule>>
    requires count { length keys.now ≡ length types.now }
    requires some { 0 < length keys.now }
    requires once { stands_twice keys.now ≡ false }
    ensures { Rules (tuple_row keys.now (map (λ t. t.now) types.now)) result }
{
    let row = pairs(alloc, keys, types)?;
    tuple(alloc, row)
}

fn is_among(key: &Name, row: &[(Name, Ty)]) -> bool
    ensures { result ≡ is_among key.now (fields row.now) }
{
    for field in row {
        if *key == field.0 {
            return true;
        }
    }
    false
}

fn push_copy(alloc: Global, row: &mut Vec<(Name, Ty)>, field: &(Name, Ty)) -> Result<(), AllocError>
    ensures { IfOk result (λ _. row.new.items ≡ row.old.items ++ field.now ∷ []) }
{
    let part = field.1.copy(alloc)?;
    row.push((field.0, part))?;
    Ok(())
}

/// One more field, unless the others have its key.
fn push_unlike(
    alloc: Global,
    row: &mut Vec<(Name, Ty)>,
    field: &(Name, Ty),
    others: &[(Name, Ty)],
) -> Result<(), AllocError>
    ensures { IfOk result (λ _. row.new.items ≡ row.old.items ++ unlike others.now (field.now ∷ [])) }
{
    if is_among(&field.0, others) {
        return Ok(());
    }
    push_copy(alloc, row, field)
}

/// The fields of the first whose keys the second hasn't, and those of the second.
fn merged(
    alloc: Global,
    first: &[(Name, Ty)],
    second: &[(Name, Ty)],
) -> Result<Vec<(Name, Ty)>, AllocError>
    ensures { IfOk result (λ v. v.items ≡ unlike second.now first.now ++ second.now) }
{
    let mut row = Vec::new(alloc);
    for field in first {
        push_unlike(alloc, &mut row, field, second)?;
    }
    for field in second {
        push_copy(alloc, &mut row, field)?;
    }
    Ok(row)
}

/// The fields of two tuples, where those of the second count.
pub(crate) fn merge(alloc: Global, t: &SizedTy, u: &SizedTy) -> Result<SizedTy, Fault<Rule>>
    ensures { Rules (merge_row t.now u.now) result }
{
    match (&t.ty().kind, &u.ty().kind) {
        (TyKind::Tuple(first), TyKind::Tuple(second)) => {
            let row = merged(alloc, first, second)?;
            tuple(alloc, row)
        }
        _ => Err(Fault::Refused(Rule::ArgumentKind)),
    }
}

/// The type under a key.
fn under<'a>(key: &Name, row: &'a [(Name, Ty)]) -> Option<&'a Ty>
    requires { AreSized (fields row.now) }
    ensures found { option_copied result ≡ type_of_key key.now (fields row.now) }
    ensures sized { IfSome result (λ t. IsSized t.now) }
{
    for field in row {
        if *key == field.0 {
            return Some(&field.1);
        }
    }
    None
}

/// The part of a tuple.
fn field(alloc: Global, key: &Name, row: &[(Name, Ty)]) -> Result<SizedTy, Fault<Rule>>
    requires { AreSized (fields row.now) }
    ensures { Rules (under_key (type_of_key key.now (fields row.now)) fine) result }
{
    match under(key, row) {
        Some(part) => {
            let part = inner(alloc, part)?;
            Ok(part)
        }
        None => Err(Fault::Refused(Rule::NoSuchKey)),
    }
}

/// The optional part of an optional tuple.
fn optional_field(alloc: Global, key: &Name, row: &[(Name, Ty)]) -> Result<SizedTy, Fault<Rule>>
    requires { AreSized (fields row.now) }
    ensures { Rules (under_key (type_of_key key.now (fields row.now)) (λ t. made (OptionalType t))) result }
{
    match under(key, row) {
        Some(part) => {
            let part = inner(alloc, part)?;
            optional(alloc, part)
        }
        None => Err(Fault::Refused(Rule::NoSuchKey)),
    }
}

/// The part of a tuple, or the optional part of an optional tuple.
pub fn get(alloc: Global, key: &Name, t: &SizedTy) -> Result<SizedTy, Fault<Rule>>
    ensures { Rules (get_row key.now t.now) result }
{
    match &t.ty().kind {
        TyKind::Tuple(row) => field(alloc, key, row),
        TyKind::Optional(part) => match &part.kind {
            TyKind::Tuple(row) => optional_field(alloc, key, row),
            _ => Err(Fault::Refused(Rule::ArgumentKind)),
        },
        _ => Err(Fault::Refused(Rule::ArgumentKind)),
    }
}

/// The part of the one argument.
#[tactic(auto, using(crate::proofs::NativeRows::one_at, crate::proofs::NativeRows::one_else))]
pub fn get_type(alloc: Global, key: &Name, types: &[&SizedTy]) -> Result<SizedTy, Fault<Rule>>
    ensures { Rules (one (get_row key.now) (map (λ t. t.now) types.now)) result }
{
    match only(types) {
        Some(t) => get(alloc, key, t),
        None => nothing(alloc),
    }
}
