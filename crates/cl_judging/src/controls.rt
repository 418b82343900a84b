//! Rows of natives whose arguments are all evaluated and that aren't on values.
ghost use Rattle.std.specs.Prelude.{◌≡◌, map, Some, None, IfOk};
ghost use Rattle.cl_rules.specs.NativeTypes.{fine, if_kind, lubbed, one, two};
ghost use Rattle.cl_types.specs.TypeKinds.{is_bool};
ghost use Rattle.cl_rules.specs.ControlShapes.{asserts_row, unwrap_row, unwrap_err_row};
ghost use Rattle.cl_typing.specs.Verdicts.{Rules, RulesWith};
ghost use Rattle.cl_judging.specs.Controls.{if_row, parts_row, own_of, second_of};
ghost use Rattle.cl_judging.specs.Walking.{Judges};
ghost use Rattle.cl_judging.specs.declared.node.Evaluated.TheVariants.{Parts as PartsOf};

use crate::named::{act, amount};
use cl_code::PartsNative;
use cl_sexpr::Rule;
use cl_types::{Fault, NoMemory, SizedTy, TyKind};
use cl_typing::{
    Checked, Concluded, Wanted, conclude, err_part, is_bool, itself, last, lubbed, nothing,
    of_kind, only, pair, part, tried_argument, truth, try_type, types_of,
};
use std::alloc::Global;

#[tactic(auto, using(crate::proofs::ControlRows::kind_fails))]
fn if_three(
    alloc: Global,
    test: &SizedTy,
    yes: &SizedTy,
    other: &SizedTy,
) -> Result<SizedTy, Fault<Rule>>
    ensures { Rules (if_kind (is_bool test.now) (lubbed yes.now other.now)) result }
{
    if !is_bool(test) {
        return Err(Fault::Refused(Rule::ArgumentKind));
    }
    lubbed(alloc, yes, other)
}

/// A condition and two branches.
#[tactic(auto, using(crate::proofs::ControlRows::if_at, crate::proofs::ControlRows::if_else))]
fn if_type(alloc: Global, types: &[&SizedTy]) -> Result<SizedTy, Fault<Rule>>
    ensures { Rules (if_row (map (λ t. t.now) types.now)) result }
{
    if types.len() == 3 {
        return if_three(alloc, types[0], types[1], types[2]);
    }
    nothing(alloc)
}

/// The one type.
#[tactic(auto, using(cl_typing::proofs::NativeRows::one_at, cl_typing::proofs::NativeRows::one_else))]
fn one_fine(alloc: Global, types: &[&SizedTy]) -> Result<SizedTy, Fault<Rule>>
    ensures { Rules (one fine (map (λ t. t.now) types.now)) result }
{
    match only(types) {
        Some(t) => itself(alloc, t),
        None => nothing(alloc),
    }
}

/// What is thrown by a native that throws its second argument.
fn second(alloc: Global, types: &[&SizedTy]) -> Result<Option<SizedTy>, NoMemory>
    ensures { IfOk result (λ o. o ≡ second_of (map (λ t. t.now) types.now)) }
{
    let Some((_, thrown)) = pair(types) else {
        return Ok(None);
    };
    let thrown = thrown.copy(alloc)?;
    Ok(Some(thrown))
}

/// A condition, and what is thrown.
#[tactic(auto, using(crate::proofs::ControlRows::throwing_else))]
fn asserts(alloc: Global, types: &[&SizedTy]) -> Result<SizedTy, Fault<Rule>>
    ensures { RulesWith (second_of (map (λ t. t.now) types.now)) (two asserts_row (map (λ t. t.now) types.now)) result }
{
    match pair(types) {
        Some((test, _)) => of_kind(alloc, is_bool(test), TyKind::Bool),
        None => nothing(alloc),
    }
}

/// An optional or a response, and what is thrown.
#[tactic(auto, using(crate::proofs::ControlRows::throwing_else))]
fn unwrapped(alloc: Global, types: &[&SizedTy]) -> Result<SizedTy, Fault<Rule>>
    ensures { RulesWith (second_of (map (λ t. t.now) types.now)) (two unwrap_row (map (λ t. t.now) types.now)) result }
{
    match pair(types) {
        Some((test, _)) => part(alloc, test),
        None => nothing(alloc),
    }
}

/// A response, and what is thrown.
#[tactic(auto, using(crate::proofs::ControlRows::throwing_else))]
fn unwrapped_err(alloc: Global, types: &[&SizedTy]) -> Result<SizedTy, Fault<Rule>>
    ensures { RulesWith (second_of (map (λ t. t.now) types.now)) (two unwrap_err_row (map (λ t. t.now) types.now)) result }
{
    match pair(types) {
        Some((test, _)) => err_part(alloc, test),
        None => nothing(alloc),
    }
}

/// The type of a control form at these types, or the first rule that they break.
fn parts_type(
    alloc: Global,
    native: PartsNative,
    types: &[&SizedTy],
) -> Result<SizedTy, Fault<Rule>>
    ensures { RulesWith (own_of native (map (λ t. t.now) types.now)) (parts_row native (map (λ t. t.now) types.now)) result }
{
    match native {
        PartsNative::If => if_type(alloc, types),
        PartsNative::Begin => last(alloc, types),
        PartsNative::And | PartsNative::Or => truth(alloc, types),
        PartsNative::Asserts => asserts(alloc, types),
        PartsNative::Unwrap => unwrapped(alloc, types),
        PartsNative::UnwrapErr => unwrapped_err(alloc, types),
        PartsNative::AsContract | PartsNative::Print => one_fine(alloc, types),
        PartsNative::Try => try_type(alloc, types),
        PartsNative::StxBalance => amount(alloc, &[Wanted::Principal], types),
        PartsNative::SendStx => act(
            alloc,
            &[Wanted::Uint, Wanted::Principal, Wanted::Principal],
            types,
        ),
        PartsNative::BurnStx => act(alloc, &[Wanted::Uint, Wanted::Principal], types),
    }
}

/// What a control form throws itself.
fn parts_own(
    alloc: Global,
    native: PartsNative,
    types: &[&SizedTy],
) -> Result<Option<SizedTy>, NoMemory>
    ensures { IfOk result (λ o. o ≡ own_of native (map (λ t. t.now) types.now)) }
{
    match native {
        PartsNative::Asserts | PartsNative::Unwrap | PartsNative::UnwrapErr => {
            second(alloc, types)
        }
        PartsNative::Try => tried_argument(alloc, types),
        _ => Ok(None),
    }
}

/// The verdict on a control form.
pub(crate) fn on_parts(
    alloc: Global,
    native: PartsNative,
    parts: &[Checked],
) -> Result<Concluded, Fault<Rule>>
    ensures { Judges (PartsOf native) parts.now result }
{
    let types = types_of(alloc, parts)?;
    let own = parts_own(alloc, native, &types)?;
    let ruled = parts_type(alloc, native, &types);
    conclude(alloc, ruled, &own, 0, parts)
}
