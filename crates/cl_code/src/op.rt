//! What a node does.
use cl_c32::{ContractName, Principal};
use cl_forms::Keyword;
use cl_sexpr::Span;
use cl_types::{Access, Name, SizedTy};
use cl_values::Native;

/// A name that isn't evaluated, and the bytes of the text that it is spelled by.
#[derive(Clone, Copy)]
pub struct Word {
    pub name: Name,
    pub span: Span,
}

/// A name in round brackets with an expression, which is a part of the node: the name, and the
/// bytes of the brackets.
#[derive(Clone, Copy)]
pub struct Binding {
    pub word: Word,
    pub span: Span,
}

/// A native all of whose arguments are parts, and that isn't on values alone.
#[derive(Clone, Copy)]
pub enum PartsNative {
    /// `if`
    If,
    /// `begin`
    Begin,
    /// `and`
    And,
    /// `or`
    Or,
    /// `asserts!`
    Asserts,
    /// `unwrap!`
    Unwrap,
    /// `unwrap-err!`
    UnwrapErr,
    /// `try!`
    Try,
    /// `as-contract`
    AsContract,
    /// `print`
    Print,
    /// `stx-get-balance`
    StxBalance,
    /// `stx-transfer?`
    SendStx,
    /// `stx-burn?`
    BurnStx,
}

/// A native whose first argument is the name of a key, a variable, a map or a token, which isn't
/// evaluated.
#[derive(Clone, Copy)]
pub enum NameNative {
    /// `get`
    Get,
    /// `var-get`
    VarGet,
    /// `var-set`
    VarSet,
    /// `map-get?`
    MapGet,
    /// `map-set`
    MapSet,
    /// `map-insert`
    MapInsert,
    /// `map-delete`
    MapDelete,
    /// `ft-get-balance`
    FtBalance,
    /// `ft-get-supply`
    FtSupply,
    /// `nft-get-owner?`
    NftOwner,
    /// `ft-mint?`
    MintFt,
    /// `ft-burn?`
    BurnFt,
    /// `ft-transfer?`
    SendFt,
    /// `nft-mint?`
    MintNft,
    /// `nft-burn?`
    BurnNft,
    /// `nft-transfer?`
    SendNft,
}

/// A native that applies what is given by name to the entries of sequences.
#[derive(Clone, Copy)]
pub enum Iteration {
    /// `map`
    Map,
    /// `filter`
    Filter,
    /// `fold`
    Fold,
}

/// What is given by name to be applied, and the place of the name.
#[derive(Clone, Copy)]
pub enum Applied {
    /// A function of the same contract.
    Function(Word),
    /// A native on values that can be given by name.
    OnValues(Native, Span),
    /// `and`
    And(Span),
    /// `or`
    Or(Span),
}

/// The literal that stands for a contract.
#[derive(Clone, Copy)]
pub enum Target {
    /// A principal that is written out.
    Standing(Principal, Span),
    /// A contract under the address of the contract that the text is of.
    Local(ContractName, Span),
}

/// A function of another contract as its callers see it, and the length of that contract's text.
pub struct Callee {
    pub access: Access,
    pub params: Vec<(Name, SizedTy)>,
    pub returns: SizedTy,
    pub height: u32,
    pub length: u32,
}

impl Drop for Callee {
    fn drop(self) {
        let Callee {
            access: _,
            params,
            returns,
            height: _,
            length: _,
        } = self;
        drop(params);
        drop(returns);
    }
}

/// What a node does, with the names and literals that aren't evaluated. `head` is the place of the
/// native's name.
#[derive(Drop)]
pub enum Op {
    /// An int literal.
    Int(i128),
    /// A uint literal.
    Uint(u128),
    /// A buffer.
    Buff(Vec<u8>),
    /// A string of ASCII characters.
    Ascii(Vec<u8>),
    /// A string of Unicode characters.
    Utf8(Vec<char>),
    /// A principal that is written out.
    Standing(Principal),
    /// A contract under the address of the contract that the text is of.
    Local(ContractName),
    /// A keyword.
    Keyword(Keyword),
    /// A bound name.
    Bound(Name),
    /// A constant.
    Constant(Name),
    /// A native on the values of all parts.
    OnValues {
        native: Native,
        head: Span,
    },
    /// Another native all of whose arguments are parts.
    OnParts {
        native: PartsNative,
        head: Span,
    },
    /// A native with a name that isn't evaluated; the other arguments are the parts.
    OnName {
        native: NameNative,
        head: Span,
        name: Word,
    },
    /// `map`, `filter` or `fold`; what it is applied to are the parts.
    Iterate {
        iteration: Iteration,
        head: Span,
        applied: Applied,
    },
    /// `as-max-len?` with a greatest length, written at `at`.
    AsMaxLen {
        head: Span,
        most: u128,
        at: Span,
    },
    /// `{ k: e, .. }`
    Tuple(Vec<Name>),
    /// `(tuple (k e) ..)`
    TupleOf {
        head: Span,
        pairs: Vec<Binding>,
    },
    /// `let`, whose first parts are bound, and written in brackets at `at`.
    Let {
        head: Span,
        at: Span,
        bindings: Vec<Binding>,
    },
    /// `match` of an optional.
    MatchOptional {
        head: Span,
        part: Word,
    },
    /// `match` of a response.
    MatchResponse {
        head: Span,
        good: Word,
        bad: Word,
    },
    /// A call of a function of the same contract.
    Call(Word),
    /// A call of a function of another contract.
    ContractCall {
        head: Span,
        target: Target,
        function: Word,
        callee: Callee,
    },
}
