//! What a transaction tells, and what it moves.
ghost use Rattle.std.specs.Prelude.{◌≡◌, IfOk};

use cl_c32::Principal;
use cl_types::{Name, NoMemory};
use cl_values::Val;
use std::alloc::Global;

/// What the code of a contract did, for those who listen.
#[derive(Drop)]
pub struct Event {
    /// The contract whose code did it; of a token, the contract that defines it.
    pub contract: Principal,
    pub kind: EventKind,
}

impl Event {
    /// A copy of the event.
    pub fn copy(&self, alloc: Global) -> Result<Event, NoMemory>
        ensures { IfOk result (λ e. e ≡ self.now) }
    {
        let kind = self.kind.copy(alloc)?;
        Ok(Event {
            contract: self.contract,
            kind,
        })
    }
}

/// What was done.
pub enum EventKind {
    /// A value was printed.
    Print(Val),
    FtMint {
        token: Name,
        amount: u128,
        to: Principal,
    },
    FtTransfer {
        token: Name,
        amount: u128,
        from: Principal,
        to: Principal,
    },
    FtBurn {
        token: Name,
        amount: u128,
        from: Principal,
    },
    NftMint {
        token: Name,
        id: Val,
        to: Principal,
    },
    NftTransfer {
        token: Name,
        id: Val,
        from: Principal,
        to: Principal,
    },
    NftBurn {
        token: Name,
        id: Val,
        from: Principal,
    },
    StxTransfer {
        amount: u128,
        from: Principal,
        to: Principal,
    },
    StxBurn {
        amount: u128,
        from: Principal,
    },
}

impl Drop for EventKind {
    fn drop(self) {
        match self {
            EventKind::Print(value) => drop(value),
            EventKind::FtMint {
                token: _,
                amount: _,
                to: _,
            } => {}
            EventKind::FtTransfer {
                token: _,
                amount: _,
                from: _,
                to: _,
            } => {}
            EventKind::FtBurn {
                token: _,
                amount: _,
                from: _,
            } => {}
            EventKind::NftMint {
                token: _,
                id,
                to: _,
            } => drop(id),
            EventKind::NftTransfer {
                token: _,
                id,
                from: _,
                to: _,
            } => drop(id),
            EventKind::NftBurn {
                token: _,
                id,
                from: _,
            } => drop(id),
            EventKind::StxTransfer {
                amount: _,
                from: _,
                to: _,
            } => {}
            EventKind::StxBurn { amount: _, from: _ } => {}
        }
    }
}

impl EventKind {
    /// A copy of what was done.
    pub fn copy(&self, alloc: Global) -> Result<EventKind, NoMemory>
        ensures { IfOk result (λ k. k ≡ self.now) }
    {
        match self {
            EventKind::Print(value) => Ok(EventKind::Print(value.copy(alloc)?)),
            EventKind::NftMint { token, id, to } => Ok(EventKind::NftMint {
                token: *token,
                id: id.copy(alloc)?,
                to: *to,
            }),
            EventKind::NftTransfer {
                token,
                id,
                from,
                to,
            } => Ok(EventKind::NftTransfer {
                token: *token,
                id: id.copy(alloc)?,
                from: *from,
                to: *to,
            }),
            EventKind::NftBurn { token, id, from } => Ok(EventKind::NftBurn {
                token: *token,
                id: id.copy(alloc)?,
                from: *from,
            }),
            EventKind::FtMint { token, amount, to } => Ok(EventKind::FtMint {
                token: *token,
                amount: *amount,
                to: *to,
            }),
            EventKind::FtTransfer {
                token,
                amount,
                from,
                to,
            } => Ok(EventKind::FtTransfer {
                token: *token,
                amount: *amount,
                from: *from,
                to: *to,
            }),
            EventKind::FtBurn {
                token,
                amount,
                from,
            } => Ok(EventKind::FtBurn {
                token: *token,
                amount: *amount,
                from: *from,
            }),
            EventKind::StxTransfer { amount, from, to } => Ok(EventKind::StxTransfer {
                amount: *amount,
                from: *from,
                to: *to,
            }),
            EventKind::StxBurn { amount, from } => Ok(EventKind::StxBurn {
                amount: *amount,
                from: *from,
            }),
        }
    }
}

/// What can be moved: STX, a fungible token of a contract, or one asset of a non-fungible token of a contract, by its identifier.
pub enum Asset {
    Stx,
    Ft(Principal, Name),
    Nft(Principal, Name, Val),
}

impl Drop for Asset {
    fn drop(self) {
        match self {
            Asset::Stx => {}
            Asset::Ft(_, _) => {}
            Asset::Nft(_, _, id) => drop(id),
        }
    }
}

/// An amount of an asset that left a principal (SIP-005, post-conditions). A burn is a move, a mint isn't. The amount of an `Nft` is 1.
#[derive(Drop)]
pub struct Move {
    pub from: Principal,
    pub asset: Asset,
    pub amount: u128,
}
