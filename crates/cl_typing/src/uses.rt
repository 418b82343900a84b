//! What is given by name to be applied.
ghost use Rattle.std.specs.Prelude.{◌≡◌, ◌&&◌, [], ◌∷◌, map, if◌then◌else◌};
ghost use Rattle.std.specs.List.{list_any};
ghost use Rattle.cl_types.specs.TypeKinds.{is_undetermined, is_sequence, entry_of};
ghost use Rattle.cl_types.specs.Lattice.{least_supertype};
ghost use Rattle.cl_rules.specs.NativeTypes.{of_kind, and_lub, wrong_kind};
ghost use Rattle.cl_rules.specs.CallShapes.{Usable as SomeUsable, all_admit, use_row, use_height, entries_row, is_native, fold_native};
ghost use Rattle.cl_typing.specs.Verdicts.{Rules};
ghost use Rattle.cl_typing.specs.Uses.{IsUsed, RulesUse};

use crate::kinds::{is_sequence, is_undetermined};
use crate::making::{copy_of_kind, lubbed};
use crate::native_types::native_type;
use crate::rows::truth;
use crate::sequences::entry;
use crate::stated::all_admit;
use cl_sexpr::Rule;
use cl_types::{Fault, Name, SizedTy};
use cl_values::Native;
use std::alloc::Global;

/// What is given by name to be applied.
#[derive(Clone, Copy)]
pub enum Usable<'a> {
    /// A function of the contract: its parameters, its type, and the height of its application.
    Function(&'a [(Name, SizedTy)], &'a SizedTy, u32),
    /// A native on values.
    OnValues(Native),
    /// `and`
    And,
    /// `or`
    Or,
}

/// The type of a call with arguments of these types.
pub fn call_type(
    alloc: Global,
    params: &[(Name, SizedTy)],
    returns: &SizedTy,
    types: &[&SizedTy],
) -> Result<SizedTy, Fault<Rule>>
    ensures { Rules (of_kind (all_admit (map (λ p. p.1) params.now) (map (λ t. t.now) types.now)) returns.now) result }
{
    copy_of_kind(alloc, all_admit(params, types), returns)
}

/// The height of the application.
pub fn use_height(used: &Usable) -> u32
    ensures { (u : SomeUsable) → IsUsed used.now u → result ≡ use_height u }
{
    match used {
        Usable::Function(_, _, height) => *height,
        _ => 1,
    }
}

/// The type of an application to values of these types.
pub fn use_type(alloc: Global, used: &Usable, types: &[&SizedTy]) -> Result<SizedTy, Fault<Rule>>
    ensures { RulesUse (λ u. use_row u (map (λ t. t.now) types.now)) used.now result }
{
    match used {
        Usable::Function(params, returns, _) => call_type(alloc, params, returns, types),
        Usable::OnValues(native) => native_type(alloc, *native, types),
        Usable::And | Usable::Or => truth(alloc, types),
    }
}

fn is_native(used: &Usable) -> bool
    ensures { (u : SomeUsable) → IsUsed used.now u → result ≡ is_native u }
{
    match used {
        Usable::Function(_, _, _) => false,
        _ => true,
    }
}

fn any_undetermined(types: &[&SizedTy]) -> bool
    ensures { result ≡ list_any is_undetermined (map (λ t. t.now) types.now) }
{
    for ty in types {
        if is_undetermined(ty) {
            return true;
        }
    }
    false
}

/// Whether an entry of no type is given to a native.
fn is_undetermined_use(used: &Usable, entries: &[&SizedTy]) -> bool
    ensures { (u : SomeUsable) → IsUsed used.now u → result ≡ (is_native u && list_any is_undetermined (map (λ t. t.now) entries.now)) }
{
    is_native(used) && any_undetermined(entries)
}

/// The type of an application to entries of these types, which a native wants determined.
pub fn use_of_entries(
    alloc: Global,
    used: &Usable,
    entries: &[&SizedTy],
) -> Result<SizedTy, Fault<Rule>>
    ensures { RulesUse (λ u. entries_row u (map (λ t. t.now) entries.now) (λ v. use_row v (map (λ t. t.now) entries.now))) used.now result }
{
    if is_undetermined_use(used, entries) {
        return Err(Fault::Refused(Rule::Undetermined));
    }
    use_type(alloc, used, entries)
}

/// The fold by what is applied of entries of this type, from a value of this type.
fn fold_by(
    alloc: Global,
    used: &Usable,
    entry: &SizedTy,
    initial: &SizedTy,
) -> Result<SizedTy, Fault<Rule>>
    ensures { RulesUse (λ u. fold_native u entry.now initial.now) used.now result }
{
    match use_type(alloc, used, &[entry, initial]) {
        Ok(given) => fold_again(alloc, used, entry, initial, &given),
        Err(fault) => Err(fault),
    }
}

/// The fold by what gives this type at first: its type, at which what is applied holds again.
fn fold_again(
    alloc: Global,
    used: &Usable,
    entry: &SizedTy,
    initial: &SizedTy,
    given: &SizedTy,
) -> Result<SizedTy, Fault<Rule>>
    ensures { RulesUse (λ u. and_lub (least_supertype initial.now given.now) (λ t. record (use_row u (entry.now ∷ t ∷ [])) { type = t })) used.now result }
{
    match lubbed(alloc, initial, given) {
        Ok(ty) => match use_type(alloc, used, &[entry, &ty]) {
            Ok(_) => Ok(ty),
            Err(fault) => Err(fault),
        },
        Err(fault) => Err(fault),
    }
}

/// The fold of a sequence by a native, whose entries have to be determined.
pub fn fold_of_entries(
    alloc: Global,
    used: &Usable,
    s: &SizedTy,
    initial: &SizedTy,
) -> Result<SizedTy, Fault<Rule>>
    ensures { RulesUse (λ u. if is_sequence s.now then entries_row u (entry_of s.now ∷ []) (λ v. fold_native v (entry_of s.now) initial.now) else wrong_kind) used.now result }
{
    if !is_sequence(s) {
        return Err(Fault::Refused(Rule::ArgumentKind));
    }
    let entry = entry(alloc, s)?;
    if is_undetermined_use(used, &[&entry]) {
        return Err(Fault::Refused(Rule::Undetermined));
    }
    fold_by(alloc, used, &entry, initial)
}
