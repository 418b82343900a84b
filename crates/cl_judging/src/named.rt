//! Verdicts on natives with a name that isn't evaluated.
ghost use Rattle.std.specs.Prelude.{[], ◌∷◌, map};
ghost use Rattle.cl_types.specs.Types.{BoolType, OptionalType, PrincipalType, UintType};
ghost use Rattle.cl_rules.specs.DataShapes.{act_answer as act_type};
ghost use Rattle.cl_rules.specs.NativeTypes.{fine};
ghost use Rattle.cl_rules.specs.Shapes.{Admitted, stated as stated_row};
ghost use Rattle.cl_typing.specs.Stated.{wanted_of};
ghost use Rattle.cl_typing.specs.Verdicts.{Rules};
ghost use Rattle.cl_judging.specs.Named.{Fungible, JudgesNamed, Key, MapOf as MapOfTypes, NonFungible, Variable, name_row, seen_given};

use crate::given::Given;
use cl_code::NameNative;
use cl_sexpr::Rule;
use cl_types::{Fault, Name, SizedTy, TyKind};
use cl_typing::{
    Checked, Concluded, Wanted, act_answer, conclude, get_type, itself, nothing, of,
    optional_principal, stated_optional, stated_type, types_of,
};
use std::alloc::Global;

/// The part of a tuple under a key.
fn on_key(
    alloc: Global,
    native: NameNative,
    key: &Name,
    types: &[&SizedTy],
) -> Result<SizedTy, Fault<Rule>>
    ensures { Rules (name_row native (Key key.now) (map (λ t. t.now) types.now)) result }
{
    match native {
        NameNative::Get => get_type(alloc, key, types),
        _ => nothing(alloc),
    }
}

/// A bool, where each argument is what is wanted in its place.
fn truth(alloc: Global, wanted: &[Wanted], types: &[&SizedTy]) -> Result<SizedTy, Fault<Rule>>
    ensures { Rules (stated_row (map wanted_of wanted.now) (fine BoolType) (map (λ t. t.now) types.now)) result }
{
    let answer = of(alloc, TyKind::Bool)?;
    stated_type(wanted, answer, types)
}

/// A uint, where each argument is what is wanted in its place.
pub(crate) fn amount(
    alloc: Global,
    wanted: &[Wanted],
    types: &[&SizedTy],
) -> Result<SizedTy, Fault<Rule>>
    ensures { Rules (stated_row (map wanted_of wanted.now) (fine UintType) (map (λ t. t.now) types.now)) result }
{
    let answer = of(alloc, TyKind::Uint)?;
    stated_type(wanted, answer, types)
}

/// What an act on tokens answers, where each argument is what is wanted in its place.
pub(crate) fn act(
    alloc: Global,
    wanted: &[Wanted],
    types: &[&SizedTy],
) -> Result<SizedTy, Fault<Rule>>
    ensures { Rules (stated_row (map wanted_of wanted.now) (fine act_type) (map (λ t. t.now) types.now)) result }
{
    let answer = act_answer(alloc)?;
    stated_type(wanted, answer, types)
}

/// A read or a write of a variable of this type.
fn on_variable(
    alloc: Global,
    native: NameNative,
    ty: &SizedTy,
    types: &[&SizedTy],
) -> Result<SizedTy, Fault<Rule>>
    ensures { Rules (name_row native (Variable ty.now) (map (λ t. t.now) types.now)) result }
{
    match native {
        NameNative::VarGet => itself(alloc, ty),
        NameNative::VarSet => truth(alloc, &[Wanted::Admitted(ty)], types),
        _ => nothing(alloc),
    }
}

/// A read or a write of a map with keys and values of these types.
fn on_map(
    alloc: Global,
    native: NameNative,
    key: &SizedTy,
    value: &SizedTy,
    types: &[&SizedTy],
) -> Result<SizedTy, Fault<Rule>>
    ensures { Rules (name_row native (MapOfTypes key.now value.now) (map (λ t. t.now) types.now)) result }
{
    match native {
        NameNative::MapGet => stated_optional(alloc, &[Wanted::Admitted(key)], value, types),
        NameNative::MapSet | NameNative::MapInsert => truth(
            alloc,
            &[Wanted::Admitted(key), Wanted::Admitted(value)],
            types,
        ),
        NameNative::MapDelete => truth(alloc, &[Wanted::Admitted(key)], types),
        _ => nothing(alloc),
    }
}

/// A read of a fungible token, or an act on it.
fn on_fungible(
    alloc: Global,
    native: NameNative,
    types: &[&SizedTy],
) -> Result<SizedTy, Fault<Rule>>
    ensures { Rules (name_row native Fungible (map (λ t. t.now) types.now)) result }
{
    match native {
        NameNative::FtBalance => amount(alloc, &[Wanted::Principal], types),
        NameNative::FtSupply => amount(alloc, &[], types),
        NameNative::MintFt | NameNative::BurnFt => {
            act(alloc, &[Wanted::Uint, Wanted::Principal], types)
        }
        NameNative::SendFt => act(
            alloc,
            &[Wanted::Uint, Wanted::Principal, Wanted::Principal],
            types,
        ),
        _ => nothing(alloc),
    }
}

/// The owner of an asset with an id of this type.
fn owner(alloc: Global, id: &SizedTy, types: &[&SizedTy]) -> Result<SizedTy, Fault<Rule>>
    ensures { Rules (stated_row (Admitted id.now ∷ []) (fine (OptionalType PrincipalType)) (map (λ t. t.now) types.now)) result }
{
    let answer = optional_principal(alloc)?;
    stated_type(&[Wanted::Admitted(id)], answer, types)
}

/// A read of a non-fungible token whose assets have ids of this type, or an act on it.
fn on_asset(
    alloc: Global,
    native: NameNative,
    id: &SizedTy,
    types: &[&SizedTy],
) -> Result<SizedTy, Fault<Rule>>
    ensures { Rules (name_row native (NonFungible id.now) (map (λ t. t.now) types.now)) result }
{
    match native {
        NameNative::NftOwner => owner(alloc, id, types),
        NameNative::MintNft | NameNative::BurnNft => {
            act(alloc, &[Wanted::Admitted(id), Wanted::Principal], types)
        }
        NameNative::SendNft => act(
            alloc,
            &[Wanted::Admitted(id), Wanted::Principal, Wanted::Principal],
            types,
        ),
        _ => nothing(alloc),
    }
}

/// The type of a native at what its name gives and these types, or the first rule that they break.
fn name_type(
    alloc: Global,
    native: NameNative,
    given: &Given,
    types: &[&SizedTy],
) -> Result<SizedTy, Fault<Rule>>
    ensures { Rules (name_row native (seen_given given.now) (map (λ t. t.now) types.now)) result }
{
    match given {
        Given::Key(key) => on_key(alloc, native, key, types),
        Given::Variable(ty) => on_variable(alloc, native, ty, types),
        Given::MapOf(key, value) => on_map(alloc, native, key, value, types),
        Given::Fungible => on_fungible(alloc, native, types),
        Given::NonFungible(id) => on_asset(alloc, native, id, types),
    }
}

/// The verdict on a native at what its name gives.
pub(crate) fn on_name(
    alloc: Global,
    native: NameNative,
    given: &Given,
    parts: &[Checked],
) -> Result<Concluded, Fault<Rule>>
    ensures { JudgesNamed native (seen_given given.now) parts.now result }
{
    let types = types_of(alloc, parts)?;
    let ruled = name_type(alloc, native, given, &types);
    conclude(alloc, ruled, &None, 0, parts)
}
