//! Kinds of natives: how what stands behind a native's name is looked at.
ghost use Rattle.std.specs.Prelude.{◌≡◌, length};
ghost use Rattle.cl_forms.specs.Heads.{row_of, takes};
ghost use Rattle.cl_judging.specs.Kinds.{kind_head};

use crate::node::Evaluated;
use cl_code::{Iteration, NameNative, PartsNative};
use cl_forms::{Head, TokenNative, arity_of};
use cl_sexpr::Sexpr;

/// How the arguments of a native are looked at.
#[derive(Clone, Copy)]
pub(crate) enum Kind {
    /// All of them are evaluated.
    Evaluated(Evaluated),
    /// The first is a name that isn't evaluated.
    Named(NameNative),
    /// The first is the name of what is applied.
    Iterate(Iteration),
    Let,
    Match,
    TupleOf,
    AsMaxLen,
    ContractCall,
}

/// Whether a native takes so many arguments.
pub(crate) fn has_enough(head: Head, args: &[Sexpr]) -> bool
    ensures { result ≡ takes (row_of head).arity (length args.now) }
{
    arity_of(head).takes(args.len())
}

fn token_kind(native: TokenNative) -> Kind
    ensures { kind_head result ≡ Head.OnToken native }
{
    match native {
        TokenNative::MintFt => Kind::Named(NameNative::MintFt),
        TokenNative::BurnFt => Kind::Named(NameNative::BurnFt),
        TokenNative::SendFt => Kind::Named(NameNative::SendFt),
        TokenNative::MintNft => Kind::Named(NameNative::MintNft),
        TokenNative::BurnNft => Kind::Named(NameNative::BurnNft),
        TokenNative::SendNft => Kind::Named(NameNative::SendNft),
        TokenNative::SendStx => Kind::Evaluated(Evaluated::Parts(PartsNative::SendStx)),
        TokenNative::BurnStx => Kind::Evaluated(Evaluated::Parts(PartsNative::BurnStx)),
    }
}

/// The kind of a native.
pub(crate) fn kind_of(head: Head) -> Kind
    ensures { kind_head result ≡ head }
{
    match head {
        Head::OnValues(native) => Kind::Evaluated(Evaluated::Values(native)),
        Head::OnToken(native) => token_kind(native),
        Head::TupleOf => Kind::TupleOf,
        Head::AsMaxLen => Kind::AsMaxLen,
        Head::Get => Kind::Named(NameNative::Get),
        Head::VarGet => Kind::Named(NameNative::VarGet),
        Head::VarSet => Kind::Named(NameNative::VarSet),
        Head::MapGet => Kind::Named(NameNative::MapGet),
        Head::MapSet => Kind::Named(NameNative::MapSet),
        Head::MapInsert => Kind::Named(NameNative::MapInsert),
        Head::MapDelete => Kind::Named(NameNative::MapDelete),
        Head::FtBalance => Kind::Named(NameNative::FtBalance),
        Head::FtSupply => Kind::Named(NameNative::FtSupply),
        Head::StxBalance => Kind::Evaluated(Evaluated::Parts(PartsNative::StxBalance)),
        Head::NftOwner => Kind::Named(NameNative::NftOwner),
        Head::Print => Kind::Evaluated(Evaluated::Parts(PartsNative::Print)),
        Head::If => Kind::Evaluated(Evaluated::Parts(PartsNative::If)),
        Head::Let => Kind::Let,
        Head::Begin => Kind::Evaluated(Evaluated::Parts(PartsNative::Begin)),
        Head::And => Kind::Evaluated(Evaluated::Parts(PartsNative::And)),
        Head::Or => Kind::Evaluated(Evaluated::Parts(PartsNative::Or)),
        Head::Asserts => Kind::Evaluated(Evaluated::Parts(PartsNative::Asserts)),
        Head::Unwrap => Kind::Evaluated(Evaluated::Parts(PartsNative::Unwrap)),
        Head::UnwrapErr => Kind::Evaluated(Evaluated::Parts(PartsNative::UnwrapErr)),
        Head::Try => Kind::Evaluated(Evaluated::Parts(PartsNative::Try)),
        Head::Match => Kind::Match,
        Head::AsContract => Kind::Evaluated(Evaluated::Parts(PartsNative::AsContract)),
        Head::Map => Kind::Iterate(Iteration::Map),
        Head::Filter => Kind::Iterate(Iteration::Filter),
        Head::Fold => Kind::Iterate(Iteration::Fold),
        Head::ContractCall => Kind::ContractCall,
    }
}
