//! The type half of the table of natives.
ghost use Rattle.std.specs.Prelude.{◌≡◌, map, [], ◌∷◌, false, IfSome, IfNone, None};
ghost use Rattle.cl_rules.specs.NativeTypes.{native_type};
ghost use Rattle.cl_typing.specs.Verdicts.{Rules, one_of, two_of, three_of, is_list_row};

use crate::joining::{equal, list};
use crate::kinds::{have_order, is_bool, is_int, is_optional, is_response, is_sequence, is_uint};
use crate::making::{bad, copy_of_kind, good, of_kind};
use crate::rows::{compare, default, err_part, long_hash, nothing, number, part, short_hash, some};
use crate::sequences::{append, concat, consensus, element, index, part_between, replaced};
use crate::tuples::merge;
use cl_sexpr::Rule;
use cl_types::{Fault, SizedTy, TyKind};
use cl_values::Native;
use std::alloc::Global;

/// The only type.
pub fn only<'a>(types: &[&'a SizedTy]) -> Option<&'a SizedTy>
    ensures some { IfSome result (λ t. map (λ u. u.now) types.now ≡ t.now ∷ []) }
    ensures none { IfNone result (one_of (map (λ u. u.now) types.now) ≡ None) }
{
    if types.len() == 1 {
        Some(types[0])
    } else {
        None
    }
}

/// The only two types.
pub fn pair<'a>(types: &[&'a SizedTy]) -> Option<(&'a SizedTy, &'a SizedTy)>
    ensures some { IfSome result (λ p. map (λ u. u.now) types.now ≡ p.0.now ∷ p.1.now ∷ []) }
    ensures none { IfNone result (two_of (map (λ u. u.now) types.now) ≡ None) }
{
    if types.len() == 2 {
        Some((types[0], types[1]))
    } else {
        None
    }
}

/// The only three types.
pub fn triple<'a>(types: &[&'a SizedTy]) -> Option<(&'a SizedTy, &'a SizedTy, &'a SizedTy)>
    ensures some { IfSome result (λ p. map (λ u. u.now) types.now ≡
        p.0.now ∷ p.1.now ∷ p.2.now ∷ []) }
    ensures none { IfNone result (three_of (map (λ u. u.now) types.now) ≡ None) }
{
    if types.len() == 3 {
        Some((types[0], types[1], types[2]))
    } else {
        None
    }
}

/// The natives of one argument.
#[tactic(auto, unfolding(cl_rules::specs::NativeTypes::native_type))]
fn one_type(alloc: Global, native: Native, t: &SizedTy) -> Result<SizedTy, Fault<Rule>>
    requires { is_list_row native ≡ false }
    ensures { Rules (native_type native (t.now ∷ [])) result }
{
    match native {
        Native::ToInt => of_kind(alloc, is_uint(t), TyKind::Int),
        Native::ToUint => of_kind(alloc, is_int(t), TyKind::Uint),
        Native::Not => of_kind(alloc, is_bool(t), TyKind::Bool),
        Native::Sha256 | Native::Sha512Of256 => short_hash(alloc, t),
        Native::Sha512 => long_hash(alloc, t),
        Native::MakeSome => some(alloc, t),
        Native::MakeOk => good(alloc, t),
        Native::MakeErr => bad(alloc, t),
        Native::IsSome | Native::IsNone => of_kind(alloc, is_optional(t), TyKind::Bool),
        Native::IsOk | Native::IsErr => of_kind(alloc, is_response(t), TyKind::Bool),
        Native::UnwrapPanic => part(alloc, t),
        Native::UnwrapErrPanic => err_part(alloc, t),
        Native::Len => of_kind(alloc, is_sequence(t), TyKind::Uint),
        Native::ToConsensusBuff => consensus(alloc, t),
        _ => nothing(alloc),
    }
}

/// The natives of two arguments.
#[tactic(auto, unfolding(cl_rules::specs::NativeTypes::native_type))]
fn two_type(alloc: Global, native: Native, t: &SizedTy, u: &SizedTy) -> Result<SizedTy, Fault<Rule>>
    requires { is_list_row native ≡ false }
    ensures { Rules (native_type native (t.now ∷ u.now ∷ [])) result }
{
    match native {
        Native::DefaultTo => default(alloc, t, u),
        Native::Append => append(alloc, t, u),
        Native::Concat => concat(alloc, t, u),
        Native::ElementAt | Native::EntryAt => element(alloc, t, u),
        Native::IndexOf | Native::PlaceOf => index(alloc, t, u),
        Native::Merge => merge(alloc, t, u),
        Native::ContentLess
        | Native::ContentAtMost
        | Native::ContentGreater
        | Native::ContentAtLeast => of_kind(alloc, have_order(t, u), TyKind::Bool),
        Native::ShiftLeft | Native::ShiftRight => {
            copy_of_kind(alloc, (is_int(t) || is_uint(t)) && is_uint(u), t)
        }
        _ => nothing(alloc),
    }
}

/// The natives of three arguments.
#[tactic(auto, unfolding(cl_rules::specs::NativeTypes::native_type))]
fn three_type(
    alloc: Global,
    native: Native,
    t: &SizedTy,
    u: &SizedTy,
    s: &SizedTy,
) -> Result<SizedTy, Fault<Rule>>
    requires { is_list_row native ≡ false }
    ensures { Rules (native_type native (t.now ∷ u.now ∷ s.now ∷ [])) result }
{
    match native {
        Native::Slice => part_between(alloc, t, u, s),
        Native::ReplaceAt => replaced(alloc, t, u, s),
        _ => nothing(alloc),
    }
}

#[tactic(auto, using(crate::proofs::NativeRows::no_row))]
fn few_type(alloc: Global, native: Native, types: &[&SizedTy]) -> Result<SizedTy, Fault<Rule>>
    requires { is_list_row native ≡ false }
    ensures { Rules (native_type native (map (λ t. t.now) types.now)) result }
{
    if let Some(t) = only(types) {
        return one_type(alloc, native, t);
    }
    if let Some((t, u)) = pair(types) {
        return two_type(alloc, native, t, u);
    }
    if let Some((t, u, s)) = triple(types) {
        return three_type(alloc, native, t, u, s);
    }
    nothing(alloc)
}

/// The type of a native on values at these types of its arguments, or the first rule that they break.
#[tactic(auto, unfolding(cl_rules::specs::NativeTypes::native_type))]
pub fn native_type(
    alloc: Global,
    native: Native,
    types: &[&SizedTy],
) -> Result<SizedTy, Fault<Rule>>
    ensures { Rules (native_type native (map (λ t. t.now) types.now)) result }
{
    match native {
        Native::Add
        | Native::Subtract
        | Native::Multiply
        | Native::Divide
        | Native::Modulo
        | Native::Power
        | Native::Xor
        | Native::SquareRoot
        | Native::Log2
        | Native::BitAnd
        | Native::BitOr
        | Native::BitXor
        | Native::BitNot => number(alloc, types),
        Native::Less | Native::AtMost | Native::Greater | Native::AtLeast => compare(alloc, types),
        Native::Same => equal(alloc, types),
        Native::MakeList => list(alloc, types),
        native => few_type(alloc, native, types),
    }
}
