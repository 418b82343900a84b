//! Least supertypes of several types.
ghost use Rattle.std.specs.Prelude.{map};
ghost use Rattle.cl_types.specs.Types.{ListType};
ghost use Rattle.cl_types.specs.Lattice.{least_supertype};
ghost use Rattle.cl_rules.specs.NativeTypes.{made, and_lub, equal_row, list_row};
ghost use Rattle.cl_typing.specs.Verdicts.{Rules, Joins};

use crate::making::{lubbed, of};
use crate::rows::nothing;
use crate::sequences::list_of;
use cl_sexpr::Rule;
use cl_types::{Fault, SizedTy, TyKind};
use std::alloc::Global;

/// The least supertype of types, taken from the left one by one: the first that is refused decides.
pub fn joined(alloc: Global, first: &SizedTy, others: &[&SizedTy]) -> Result<SizedTy, Fault<Rule>>
    ensures { Joins first.now (map (λ t. t.now) others.now) result }
{
    let mut joined = first.copy(alloc)?;
    for next in others {
        match lubbed(alloc, &joined, next) {
            Ok(ty) => joined = ty,
            Err(fault) => return Err(fault),
        }
    }
    Ok(joined)
}

/// Values with a common supertype.
pub fn equal(alloc: Global, types: &[&SizedTy]) -> Result<SizedTy, Fault<Rule>>
    ensures { Rules (equal_row (map (λ t. t.now) types.now)) result }
{
    let Some((first, others)) = types.split_first() else {
        return nothing(alloc);
    };
    match joined(alloc, first, others) {
        Ok(_) => {
            let ty = of(alloc, TyKind::Bool)?;
            Ok(ty)
        }
        Err(fault) => Err(fault),
    }
}

/// A list of as many entries as there are types, of their least supertype.
pub fn list(alloc: Global, types: &[&SizedTy]) -> Result<SizedTy, Fault<Rule>>
    ensures { Rules (list_row (map (λ t. t.now) types.now)) result }
{
    let none = of(alloc, TyKind::NoType)?;
    match joined(alloc, &none, types) {
        Ok(entry) => list_of(alloc, types.len() as u128, entry),
        Err(fault) => Err(fault),
    }
}

/// A list of at most so many entries, of the least supertype of two types.
pub(crate) fn joined_list(
    alloc: Global,
    most: u128,
    a: &SizedTy,
    b: &SizedTy,
) -> Result<SizedTy, Fault<Rule>>
    ensures { Rules (and_lub (least_supertype a.now b.now) (λ c. made (ListType most c))) result }
{
    match lubbed(alloc, a, b) {
        Ok(entry) => list_of(alloc, most, entry),
        Err(fault) => Err(fault),
    }
}
