//! Arguments of stated kinds.
ghost use Rattle.std.specs.Prelude.{◌≡◌, map, IfOk};
ghost use Rattle.cl_types.specs.Types.{OptionalType, PrincipalType};
ghost use Rattle.cl_rules.specs.NativeTypes.{fine, made};
ghost use Rattle.cl_rules.specs.Shapes.{Admitted, is_wanted, are_wanted, stated};
ghost use Rattle.cl_rules.specs.CallShapes.{all_admit};
ghost use Rattle.cl_rules.specs.DataShapes.{act_answer};
ghost use Rattle.cl_typing.specs.Verdicts.{Rules};
ghost use Rattle.cl_typing.specs.Stated.{wanted_of};

use crate::kinds::{is_principal, is_uint};
use crate::making::{fit, of, where_kind};
use crate::rows::some;
use cl_sexpr::Rule;
use cl_types::{Fault, Name, NoMemory, SizedTy, Ty, TyKind, admits};
use std::alloc::Global;

/// What a row wants of an argument.
#[derive(Clone, Copy)]
pub enum Wanted<'a> {
    /// A uint.
    Uint,
    /// A principal.
    Principal,
    /// What the type admits.
    Admitted(&'a SizedTy),
}

fn is_wanted(wanted: &Wanted, ty: &SizedTy) -> bool
    ensures { result ≡ is_wanted (wanted_of wanted.now) ty.now }
{
    match wanted {
        Wanted::Uint => is_uint(ty),
        Wanted::Principal => is_principal(ty),
        Wanted::Admitted(declared) => admits(declared, ty),
    }
}

/// Whether each argument is what is wanted in its place.
pub fn are_wanted(wanted: &[Wanted], types: &[&SizedTy]) -> bool
    ensures { result ≡ are_wanted (map wanted_of wanted.now) (map (λ t. t.now) types.now) }
{
    if wanted.len() != types.len() {
        return false;
    }
    for i in 0..wanted.len() {
        if !is_wanted(&wanted[i], types[i]) {
            return false;
        }
    }
    true
}

/// Whether each parameter admits the argument in its place.
pub fn all_admit(params: &[(Name, SizedTy)], types: &[&SizedTy]) -> bool
    ensures { result ≡ all_admit (map (λ p. p.1) params.now) (map (λ t. t.now) types.now) }
{
    if params.len() != types.len() {
        return false;
    }
    for i in 0..params.len() {
        if !admits(&params[i].1, types[i]) {
            return false;
        }
    }
    true
}

/// The answer, where each argument is what is wanted in its place.
pub fn stated_type(
    wanted: &[Wanted],
    answer: SizedTy,
    types: &[&SizedTy],
) -> Result<SizedTy, Fault<Rule>>
    ensures { Rules (stated (map wanted_of wanted.now) (fine answer) (map (λ t. t.now) types.now)) result }
{
    where_kind(are_wanted(wanted, types), answer)
}

/// An optional of this part, where each argument is what is wanted in its place.
pub fn stated_optional(
    alloc: Global,
    wanted: &[Wanted],
    part: &SizedTy,
    types: &[&SizedTy],
) -> Result<SizedTy, Fault<Rule>>
    ensures { Rules (stated (map wanted_of wanted.now) (made (OptionalType part.now)) (map (λ t. t.now) types.now)) result }
{
    if !are_wanted(wanted, types) {
        return Err(Fault::Refused(Rule::ArgumentKind));
    }
    some(alloc, part)
}

/// The type of an act on tokens.
pub fn act_answer(alloc: Global) -> Result<SizedTy, NoMemory>
    ensures { IfOk result (λ t. t ≡ act_answer) }
{
    let good = Box::new(alloc, Ty { kind: TyKind::Bool })?;
    let bad = Box::new(alloc, Ty { kind: TyKind::Uint })?;
    fit(
        alloc,
        Ty {
            kind: TyKind::Response(good, bad),
        },
    )
}

/// The type of an owner that is looked for.
pub fn optional_principal(alloc: Global) -> Result<SizedTy, NoMemory>
    ensures { IfOk result (λ t. t ≡ OptionalType PrincipalType) }
{
    let part = Box::new(
        alloc,
        Ty {
            kind: TyKind::Principal,
        },
    )?;
    fit(
        alloc,
        Ty {
            kind: TyKind::Optional(part),
        },
    )
}
