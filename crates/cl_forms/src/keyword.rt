//! The keywords (SIP-002).

/// A name that stands for a value in every contract.
#[derive(Clone, Copy)]
pub enum Keyword {
    /// `true`
    True,
    /// `false`
    False,
    /// `none`
    None,
    /// `tx-sender`
    TxSender,
    /// `contract-caller`
    ContractCaller,
    /// `block-height`
    BlockHeight,
}
