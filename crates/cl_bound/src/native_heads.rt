//! The natives of nodes, as the table of natives has them.
ghost use Rattle.std.specs.Prelude.{◌≡◌};
ghost use Rattle.cl_code.specs.OpNames.{parts_head, name_head};

use cl_code::{NameNative, PartsNative};
use cl_forms::{Head, TokenNative};

pub(crate) fn parts_head(native: PartsNative) -> Head
    ensures { result ≡ parts_head native }
{
    match native {
        PartsNative::If => Head::If,
        PartsNative::Begin => Head::Begin,
        PartsNative::And => Head::And,
        PartsNative::Or => Head::Or,
        PartsNative::Asserts => Head::Asserts,
        PartsNative::Unwrap => Head::Unwrap,
        PartsNative::UnwrapErr => Head::UnwrapErr,
        PartsNative::Try => Head::Try,
        PartsNative::AsContract => Head::AsContract,
        PartsNative::Print => Head::Print,
        PartsNative::StxBalance => Head::StxBalance,
        PartsNative::SendStx => Head::OnToken(TokenNative::SendStx),
        PartsNative::BurnStx => Head::OnToken(TokenNative::BurnStx),
    }
}

pub(crate) fn name_head(native: NameNative) -> Head
    ensures { result ≡ name_head native }
{
    match native {
        NameNative::Get => Head::Get,
        NameNative::VarGet => Head::VarGet,
        NameNative::VarSet => Head::VarSet,
        NameNative::MapGet => Head::MapGet,
        NameNative::MapSet => Head::MapSet,
        NameNative::MapInsert => Head::MapInsert,
        NameNative::MapDelete => Head::MapDelete,
        NameNative::FtBalance => Head::FtBalance,
        NameNative::FtSupply => Head::FtSupply,
        NameNative::NftOwner => Head::NftOwner,
        NameNative::MintFt => Head::OnToken(TokenNative::MintFt),
        NameNative::BurnFt => Head::OnToken(TokenNative::BurnFt),
        NameNative::SendFt => Head::OnToken(TokenNative::SendFt),
        NameNative::MintNft => Head::OnToken(TokenNative::MintNft),
        NameNative::BurnNft => Head::OnToken(TokenNative::BurnNft),
        NameNative::SendNft => Head::OnToken(TokenNative::SendNft),
    }
}
