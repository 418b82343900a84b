//! Rows of map, filter and fold.
ghost use Rattle.std.specs.Prelude.{◌≡◌, ◌&&◌, map, drop, IfOk};
ghost use Rattle.std.specs.List.{list_all};
ghost use Rattle.cl_types.specs.TypeKinds.{is_sequence, entry_of};
ghost use Rattle.cl_rules.specs.Context.{Signature};
ghost use Rattle.cl_rules.specs.CallShapes.{least_length, map_row, filter_row, fold_row, fold_function, admits_first, map_verdict, filter_verdict, fold_verdict};
ghost use Rattle.cl_typing.specs.Verdicts.{Rules};
ghost use Rattle.cl_typing.specs.Uses.{RulesUse, Iterates};

use crate::concluding::{Checked, Concluded, conclude};
use crate::kinds::{is_bool, is_sequence};
use crate::making::{copy_of_kind, lubbed, where_kind};
use crate::sequences::{entry, greatest_length, list_of};
use crate::uses::{Usable, fold_of_entries, use_height, use_of_entries};
use crate::verdicts::types_of;
use cl_sexpr::Rule;
use cl_types::{Fault, Name, NoMemory, SizedTy, admits};
use std::alloc::{AllocError, Global};

// ---- map

fn are_sequences(types: &[&SizedTy]) -> bool
    ensures { result ≡ list_all is_sequence (map (λ t. t.now) types.now) }
{
    for ty in types {
        if !is_sequence(ty) {
            return false;
        }
    }
    true
}

/// The types of the entries of sequences.
fn entries(alloc: Global, types: &[&SizedTy]) -> Result<Vec<SizedTy>, NoMemory>
    ensures { IfOk result (λ v. v.items ≡ map entry_of (map (λ t. t.now) types.now)) }
{
    let mut entries = Vec::new(alloc);
    for ty in types {
        let entry = entry(alloc, ty)?;
        entries.push(entry)?;
    }
    Ok(entries)
}

fn each<'a>(alloc: Global, types: &'a [SizedTy]) -> Result<Vec<&'a SizedTy>, AllocError>
    ensures { IfOk result (λ v. map (λ t. t.now) v.items ≡ types.now) }
{
    let mut each = Vec::new(alloc);
    for ty in types {
        each.push(ty)?;
    }
    Ok(each)
}

/// The least of the greatest lengths of sequences.
fn least_length(types: &[&SizedTy]) -> u32
    ensures { result ≡ least_length (map (λ t. t.now) types.now) }
{
    let Some((first, others)) = types.split_first() else {
        return 0;
    };
    let mut least = greatest_length(first);
    for ty in others {
        least = least.min(greatest_length(ty));
    }
    least
}

/// A list of what is given at entries of these sequences.
pub fn map_type(alloc: Global, used: &Usable, types: &[&SizedTy]) -> Result<SizedTy, Fault<Rule>>
    ensures { RulesUse (λ u. map_row u (map (λ t. t.now) types.now)) used.now result }
{
    if !are_sequences(types) {
        return Err(Fault::Refused(Rule::ArgumentKind));
    }
    let entries = entries(alloc, types)?;
    let each = each(alloc, &entries)?;
    match use_of_entries(alloc, used, &each) {
        Ok(ty) => list_of(alloc, u128::from(least_length(types)), ty),
        Err(fault) => Err(fault),
    }
}

// ---- filter

/// The sequence's type, where what is applied gives bools at its entries.
pub fn filter_type(alloc: Global, used: &Usable, s: &SizedTy) -> Result<SizedTy, Fault<Rule>>
    ensures { RulesUse (λ u. filter_row u s.now) used.now result }
{
    if !is_sequence(s) {
        return Err(Fault::Refused(Rule::ArgumentKind));
    }
    let entry = entry(alloc, s)?;
    match use_of_entries(alloc, used, &[&entry]) {
        Ok(ty) => copy_of_kind(alloc, is_bool(&ty), s),
        Err(fault) => Err(fault),
    }
}

// ---- fold

/// Whether the first parameter admits the type.
fn admits_first(params: &[(Name, SizedTy)], ty: &SizedTy) -> bool
    ensures { result ≡ admits_first (map (λ p. p.1) params.now) ty.now }
{
    match params.split_first() {
        Some((first, _)) => admits(&first.1, ty),
        None => false,
    }
}

/// Whether the second parameter admits the type.
fn admits_second(params: &[(Name, SizedTy)], ty: &SizedTy) -> bool
    ensures { result ≡ admits_first (drop 1 (map (λ p. p.1) params.now)) ty.now }
{
    match params.split_first() {
        Some((_, others)) => admits_first(others, ty),
        None => false,
    }
}

fn may_fold(params: &[(Name, SizedTy)], s: &SizedTy, entry: &SizedTy) -> bool
    ensures { result ≡ (is_sequence s.now && admits_first (map (λ p. p.1) params.now) entry.now) }
{
    is_sequence(s) && admits_first(params, entry)
}

/// The fold of a sequence by a function: its first parameter admits the entries, and its second the type of the fold.
fn fold_by_function(
    alloc: Global,
    params: &[(Name, SizedTy)],
    returns: &SizedTy,
    s: &SizedTy,
    initial: &SizedTy,
) -> Result<SizedTy, Fault<Rule>>
    ensures { (f : Signature) → f.params ≡ params.now → f.returns ≡ returns.now → Rules (fold_function f s.now initial.now) result }
{
    let entry = entry(alloc, s)?;
    if !may_fold(params, s, &entry) {
        return Err(Fault::Refused(Rule::ArgumentKind));
    }
    match lubbed(alloc, initial, returns) {
        Ok(ty) => {
            let holds = admits_second(params, &ty);
            where_kind(holds, ty)
        }
        Err(fault) => Err(fault),
    }
}

/// The fold of a sequence from a value of the second type.
pub fn fold_type(
    alloc: Global,
    used: &Usable,
    s: &SizedTy,
    initial: &SizedTy,
) -> Result<SizedTy, Fault<Rule>>
    ensures { RulesUse (λ u. fold_row u s.now initial.now) used.now result }
{
    match used {
        Usable::Function(params, returns, _) => {
            fold_by_function(alloc, params, returns, s, initial)
        }
        _ => fold_of_entries(alloc, used, s, initial),
    }
}

// ---- verdicts

/// The verdict on a map of these parts.
pub fn on_map(alloc: Global, used: &Usable, parts: &[Checked]) -> Result<Concluded, Fault<Rule>>
    ensures { Iterates map_verdict used.now parts.now result }
{
    let types = types_of(alloc, parts)?;
    let ruled = map_type(alloc, used, &types);
    conclude(alloc, ruled, &None, use_height(used), parts)
}

/// The verdict on a filter of these parts.
pub fn on_filter(alloc: Global, used: &Usable, parts: &[Checked]) -> Result<Concluded, Fault<Rule>>
    ensures { Iterates filter_verdict used.now parts.now result }
{
    let [part] = parts else {
        return Err(Fault::Refused(Rule::ArgumentKind));
    };
    let ruled = filter_type(alloc, used, part.code.result());
    conclude(alloc, ruled, &None, use_height(used), parts)
}

/// The verdict on a fold of these parts.
pub fn on_fold(alloc: Global, used: &Usable, parts: &[Checked]) -> Result<Concluded, Fault<Rule>>
    ensures { Iterates fold_verdict used.now parts.now result }
{
    let [sequence, initial] = parts else {
        return Err(Fault::Refused(Rule::ArgumentKind));
    };
    let ruled = fold_type(alloc, used, sequence.code.result(), initial.code.result());
    conclude(alloc, ruled, &None, use_height(used), parts)
}
