//! Rows: what a state keeps, one thing a row.
use cl_c32::Principal;
use cl_types::Name;
use cl_values::Val;

/// What a row tells of.
#[derive(Clone, Copy)]
pub enum RowKind {
    Variable,
    MapEntry,
    /// Of a fungible token, above 0.
    Balance,
    /// Of a fungible token.
    Supply,
    /// Of an asset of a non-fungible token.
    Owner,
    /// Above 0.
    StxBalance,
}

/// One thing that a state keeps.
#[derive(Drop)]
pub struct StateRow {
    pub kind: RowKind,
    /// Whose variable, map or token it is; None for STX.
    pub contract: Option<Principal>,
    /// The name of the variable, the map or the token; None for STX.
    pub name: Option<Name>,
    /// The key of an entry, the holder of a balance or the identifier of an asset; None for a variable and for a supply.
    pub key: Option<Val>,
    /// What the variable or the entry holds, the amount as a uint, or the owner as a principal.
    pub value: Val,
}
