//! What comes next where a node is evaluated, as data.
use crate::charge::Charge;
use crate::scope::{Callee, Function};
use cl_c32::Principal;
use cl_forms::TokenNative;
use cl_sexpr::{Sexpr, Span};
use cl_shapes::CostName;
use cl_types::Name;
use cl_values::{Native, Val};
use cl_walks::Why;

/// The end of a node.
#[derive(Drop)]
pub enum Last<'a> {
    /// A value.
    Give(Val),
    /// An early return of a value.
    Throw(Val),
    /// An abort.
    Abort(Why),
    /// The node is wrong, as none of an accepted contract is.
    Wrong,
    /// That of a part.
    As(&'a Sexpr),
    /// An early return of a part's value.
    Throwing(&'a Sexpr),
    /// That of a part that sees one more name.
    With(&'a Name, Val, &'a Sexpr),
    /// That of a part whose sender and caller are the contract itself.
    AsContract(&'a Sexpr),
    /// That of a function on values.
    Enter(Function<'a>, Vec<Val>),
    /// That of another contract's function on values.
    EnterIn(&'a Principal, Function<'a>, Vec<Val>),
    /// The list of the results at the entries of sequences side by side.
    Map(Callee<'a>, Vec<Val>),
    /// The entries of a sequence at which the result is true.
    Filter(Callee<'a>, Val),
    /// The fold of a sequence from a first value.
    Fold(Callee<'a>, Val, Val),
}

/// The end of a node, and what is charged before it.
#[derive(Drop)]
pub struct End<'a> {
    pub charge: Option<Charge>,
    pub last: Last<'a>,
}

/// What follows the value of one part.
#[derive(Clone, Copy)]
pub enum OnOne<'a> {
    /// `if`: by a truth value one of two parts.
    Choose(&'a Sexpr, &'a Sexpr),
    /// `asserts!`: true, or the part that is thrown.
    Assert(&'a Sexpr),
    /// `unwrap!`: what some or ok holds, or the part that is thrown.
    Unwrap(&'a Sexpr),
    /// `unwrap-err!`: what err holds, or the part that is thrown.
    UnwrapErr(&'a Sexpr),
    /// `try!`: what some or ok holds; none and err are thrown.
    Try,
    /// `match` on an optional: a name and its part, or the other part.
    Optional(&'a Name, &'a Sexpr, &'a Sexpr),
    /// `match` on a response: a name and its part, each.
    Response(&'a Name, &'a Sexpr, &'a Name, &'a Sexpr),
    /// `get`: the part at a key.
    Get(&'a Name),
    /// `as-max-len?`: the sequence, where it has at most so many entries.
    AsMaxLen(u128),
    /// `filter`, by what is given under a name.
    Filter(&'a Name, Span),
}

/// What follows the values of all parts.
#[derive(Clone, Copy)]
pub enum OnAll<'a> {
    /// `begin`, `let`: the last.
    Last,
    /// A native on values, with its charge.
    Native(Native, CostName),
    /// A function of the contract.
    Call(&'a Name),
    /// `contract-call?`: the contract that an item names, and the function.
    Across(&'a Sexpr, &'a Name),
    /// `map`, by what is given under a name.
    Map(&'a Name, Span),
    /// `fold`, by what is given under a name.
    Fold(&'a Name, Span),
}

/// What is read of the state, without a part.
#[derive(Clone, Copy)]
pub enum OnRead<'a> {
    /// `var-get`
    Variable(&'a Name),
    /// `ft-get-supply`
    Supply(&'a Name),
}

/// What is done on the state with the value of a part.
#[derive(Clone, Copy)]
pub enum OnAct<'a> {
    /// `print`
    Print,
    /// `var-set`
    SetVariable(&'a Name),
    /// `map-get?`
    ReadEntry(&'a Name),
    /// `map-delete`
    DeleteEntry(&'a Name),
    /// `ft-get-balance`
    ReadBalance(&'a Name),
    /// `stx-get-balance`
    ReadStx,
    /// `nft-get-owner?`
    ReadOwner(&'a Name),
}

/// What is done on the state with the values of all parts.
#[derive(Clone, Copy)]
pub enum OnActs<'a> {
    /// `map-set`
    WriteEntry(&'a Name),
    /// `map-insert`
    InsertEntry(&'a Name),
    /// A native on a token with a name.
    Token(TokenNative, &'a Name),
    /// `stx-transfer?`
    SendStx,
    /// `stx-burn?`
    BurnStx,
}

/// `and` and `or`.
#[derive(Clone, Copy)]
pub enum Chain {
    And,
    Or,
}

/// What `and` or `or` does behind the value of a part.
#[derive(Drop)]
pub enum Link {
    /// It gives a value.
    Ends(Val),
    /// It takes the next part.
    More,
    /// It is wrong.
    Wrong,
}

/// What a node evaluates first.
#[derive(Drop)]
pub enum Part<'a> {
    /// Nothing.
    Ends(Last<'a>),
    /// A part.
    One(&'a Sexpr, OnOne<'a>),
    /// All parts, from the left.
    All(&'a [Sexpr], OnAll<'a>),
    /// The parts of `and` or `or`.
    Truths(Chain, &'a [Sexpr]),
    /// Bindings, one after another, and then the parts of a body.
    Let(&'a [Sexpr], &'a [Sexpr]),
    /// The parts of a tuple, with their keys.
    Tuple(Vec<(&'a Name, &'a Sexpr)>),
    /// Nothing, and then something is read.
    Read(OnRead<'a>),
    /// A part, with whose value something is done.
    Act(&'a Sexpr, OnAct<'a>),
    /// All parts, with whose values something is done.
    Acts(&'a [Sexpr], OnActs<'a>),
}

/// What a node evaluates first, and what is charged before it.
#[derive(Drop)]
pub struct Start<'a> {
    pub charge: Option<Charge>,
    pub part: Part<'a>,
}
