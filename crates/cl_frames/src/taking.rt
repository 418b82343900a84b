//! Which parts natives with a name take.
ghost use Rattle.std.specs.Prelude.{◌≡◌};
ghost use Rattle.cl_frames.specs.Tails.{taking_of};

use cl_code::NameNative;

/// Which parts a native with a name takes.
#[derive(Clone, Copy)]
pub enum Taking {
    /// It has no parts.
    Nothing,
    /// It has one.
    One,
    /// All of them.
    All,
}

/// Which parts a native takes.
pub fn taking_of(native: NameNative) -> Taking
    ensures { result ≡ taking_of native }
{
    match native {
        NameNative::VarGet | NameNative::FtSupply => Taking::Nothing,
        NameNative::Get
        | NameNative::VarSet
        | NameNative::MapGet
        | NameNative::MapDelete
        | NameNative::FtBalance
        | NameNative::NftOwner => Taking::One,
        NameNative::MapSet
        | NameNative::MapInsert
        | NameNative::MintFt
        | NameNative::BurnFt
        | NameNative::SendFt
        | NameNative::MintNft
        | NameNative::BurnNft
        | NameNative::SendNft => Taking::All,
    }
}
