//! What stands first in a list: the natives of the language (SIP-002).
use cl_values::Native;

/// A native that changes balances or owners.
#[derive(Clone, Copy)]
pub enum TokenNative {
    /// `ft-mint?`
    MintFt,
    /// `ft-burn?`
    BurnFt,
    /// `ft-transfer?`
    SendFt,
    /// `nft-mint?`
    MintNft,
    /// `nft-burn?`
    BurnNft,
    /// `nft-transfer?`
    SendNft,
    /// `stx-transfer?`
    SendStx,
    /// `stx-burn?`
    BurnStx,
}

/// A native.
#[derive(Clone, Copy)]
pub enum Head {
    /// A native on values alone.
    OnValues(Native),
    /// A native that changes balances or owners.
    OnToken(TokenNative),
    /// `tuple`
    TupleOf,
    /// `as-max-len?`
    AsMaxLen,
    /// `get`
    Get,
    /// `var-get`
    VarGet,
    /// `var-set`
    VarSet,
    /// `map-get?`
    MapGet,
    /// `map-set`
    MapSet,
    /// `map-insert`
    MapInsert,
    /// `map-delete`
    MapDelete,
    /// `ft-get-balance`
    FtBalance,
    /// `ft-get-supply`
    FtSupply,
    /// `stx-get-balance`
    StxBalance,
    /// `nft-get-owner?`
    NftOwner,
    /// `print`
    Print,
    /// `if`
    If,
    /// `let`
    Let,
    /// `begin`
    Begin,
    /// `and`
    And,
    /// `or`
    Or,
    /// `asserts!`
    Asserts,
    /// `unwrap!`
    Unwrap,
    /// `unwrap-err!`
    UnwrapErr,
    /// `try!`
    Try,
    /// `match`
    Match,
    /// `as-contract`
    AsContract,
    /// `map`
    Map,
    /// `filter`
    Filter,
    /// `fold`
    Fold,
    /// `contract-call?`
    ContractCall,
}
