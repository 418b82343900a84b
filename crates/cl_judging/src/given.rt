//! What names that aren't evaluated give.
ghost use Rattle.std.specs.Prelude.{◌≡◌, option_map};
ghost use Rattle.cl_judging.specs.Named.{Fungibles, Maps, NonFungibles, Variables, given_in, missing_rule, seen_given, sort_of};

use crate::context::{Context, is_in, map_under, type_under};
use cl_code::NameNative;
use cl_sexpr::Rule;
use cl_types::{Name, SizedTy};

/// What a name gives to a native that doesn't evaluate it.
#[derive(Clone, Copy)]
pub(crate) enum Given<'a> {
    /// Itself, as the key of a tuple.
    Key(Name),
    /// A variable's type.
    Variable(&'a SizedTy),
    /// The types of a map's keys and values.
    MapOf(&'a SizedTy, &'a SizedTy),
    /// A fungible token.
    Fungible,
    /// The type of the id of a non-fungible token's assets.
    NonFungible(&'a SizedTy),
}

fn variable<'a>(ctx: &'a Context, name: &Name) -> Option<Given<'a>>
    ensures { option_map seen_given result ≡ given_in Variables ctx.now name.now }
{
    let ty = type_under(&ctx.variables, name)?;
    Some(Given::Variable(ty))
}

fn map<'a>(ctx: &'a Context, name: &Name) -> Option<Given<'a>>
    ensures { option_map seen_given result ≡ given_in Maps ctx.now name.now }
{
    let types = map_under(&ctx.maps, name)?;
    Some(Given::MapOf(&types.0, &types.1))
}

fn fungible<'a>(ctx: &'a Context, name: &Name) -> Option<Given<'a>>
    ensures { option_map seen_given result ≡ given_in Fungibles ctx.now name.now }
{
    if is_in(&ctx.fungibles, name) {
        Some(Given::Fungible)
    } else {
        None
    }
}

fn asset<'a>(ctx: &'a Context, name: &Name) -> Option<Given<'a>>
    ensures { option_map seen_given result ≡ given_in NonFungibles ctx.now name.now }
{
    let ty = type_under(&ctx.nonfungibles, name)?;
    Some(Given::NonFungible(ty))
}

/// What a name gives to a native, if it is one of what the native takes.
pub(crate) fn given_by<'a>(ctx: &'a Context, native: NameNative, name: &Name) -> Option<Given<'a>>
    ensures { option_map seen_given result ≡ given_in (sort_of native) ctx.now name.now }
{
    match native {
        NameNative::Get => Some(Given::Key(*name)),
        NameNative::VarGet | NameNative::VarSet => variable(ctx, name),
        NameNative::MapGet | NameNative::MapSet | NameNative::MapInsert | NameNative::MapDelete =>
            map(ctx, name),
        NameNative::FtBalance
        | NameNative::FtSupply
        | NameNative::MintFt
        | NameNative::BurnFt
        | NameNative::SendFt => fungible(ctx, name),
        NameNative::NftOwner | NameNative::MintNft | NameNative::BurnNft | NameNative::SendNft =>
            asset(ctx, name),
    }
}

/// The rule that is broken where a name gives a native nothing.
pub(crate) fn missing(native: NameNative) -> Rule
    ensures { result ≡ missing_rule (sort_of native) }
{
    match native {
        NameNative::Get => Rule::NoSuchKey,
        NameNative::VarGet | NameNative::VarSet => Rule::NoSuchVariable,
        NameNative::MapGet | NameNative::MapSet | NameNative::MapInsert | NameNative::MapDelete =>
            Rule::NoSuchMap,
        _ => Rule::NoSuchToken,
    }
}
