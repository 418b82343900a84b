//! What becomes of an entry.
ghost use Rattle.std.specs.Prelude.{◌≡◌};

use cl_c32::Principal;
use cl_events::Event;
use cl_file::Row;
use cl_sexpr::Refusal;
use cl_shapes::{Cost5, Dimension, Over};
use cl_types::{Name, SizedTy};
use cl_values::Val;
use std::marker::Model;

/// Why an entry stops in the middle. All that it changed is undone, and its charges stay.
#[derive(Clone, Copy)]
pub enum Stop {
    /// A1: a result above the greatest number of its type.
    Overflow,
    /// A2: a result below the least number of its type.
    Underflow,
    /// A3: a divisor of 0.
    DivideByZero,
    /// A4: a negative argument where none can be.
    NegativeArgument,
    /// A5: an unwrapped part isn't there.
    Panic,
    /// A6: a mint above the greatest supply.
    SupplyOverflow,
    /// A7: an early return at the top of a contract.
    EarlyTop,
    /// A8: the charges are above the limit.
    CostLimit(Over),
    /// A9: the first post-condition that fails, by its place; in deny mode, where each holds and an
    /// asset moved that none names, their number.
    PostCondition { index: u32 },
}

/// Why the source of a deployment is refused. Contracts see it as plain data.
#[derive(Drop)]
pub struct SourceRefusal {
    refusal: Refusal,
}

impl Model for SourceRefusal {
    ghost use Rattle.cl_tx.specs.Seen.{SourceBreak};

    ghost Value = { SourceBreak };

    ghost view = { λ r. record {
      rule = r.refusal.rule;
      span = r.refusal.span;
      names = r.refusal.names.items;
    } };
}

impl SourceRefusal {
    /// The refusal of a source.
    pub fn new(refusal: Refusal) -> SourceRefusal
        ensures { result ≡ record {
          rule = refusal.rule;
          span = refusal.span;
          names = refusal.names.items;
        } }
    {
        SourceRefusal { refusal }
    }

    /// The rule, the span and the names.
    pub fn refusal(&self) -> &Refusal
        ensures rule { result.now.rule ≡ self.now.rule }
        ensures span { result.now.span ≡ self.now.span }
        ensures names { result.now.names.items ≡ self.now.names }
    {
        &self.refusal
    }
}

/// Why an entry isn't run. It changes nothing and costs nothing.
pub enum EntryRefusal {
    /// E1: no such contract is deployed.
    NoContract,
    /// E2: the contract has no such function.
    NoFunction,
    /// E3: the function is private.
    NotPublic,
    /// E4: not as many arguments as the function has parameters.
    ArgumentCount,
    /// E5: the first argument, by its place, that isn't of its parameter's type.
    Argument { index: u32 },
    /// E6: a contract of this name is deployed under the sender's address.
    NameTaken,
    /// E7: the source breaks a rule.
    ContractRefused(SourceRefusal),
    /// E8: under the table of the height the function's bound is above 2^128-1, in this dimension
    /// first.
    NoBound(Dimension),
}

impl Drop for EntryRefusal {
    fn drop(self) {
        match self {
            EntryRefusal::NoContract => {}
            EntryRefusal::NoFunction => {}
            EntryRefusal::NotPublic => {}
            EntryRefusal::ArgumentCount => {}
            EntryRefusal::Argument { index: _ } => {}
            EntryRefusal::NameTaken => {}
            EntryRefusal::ContractRefused(refusal) => drop(refusal),
            EntryRefusal::NoBound(_) => {}
        }
    }
}

/// What becomes of an entry.
pub enum Outcome {
    /// A block begins.
    Moved,
    /// The contract is deployed.
    Done,
    /// A public function answered ok with this.
    Good(Val),
    /// A public function answered err with this, and all that it changed is undone.
    Bad(Val),
    /// A read-only function gave this.
    Plain(Val),
    /// The entry stopped in the middle.
    Aborted(Stop),
    /// The entry wasn't run.
    Refused(EntryRefusal),
}

impl Drop for Outcome {
    fn drop(self) {
        match self {
            Outcome::Moved => {}
            Outcome::Done => {}
            Outcome::Good(value) => drop(value),
            Outcome::Bad(value) => drop(value),
            Outcome::Plain(value) => drop(value),
            Outcome::Aborted(_) => {}
            Outcome::Refused(refusal) => drop(refusal),
        }
    }
}

/// The bounds of an accepted contract.
#[derive(Drop)]
pub struct Bounds {
    /// That of its deployment.
    pub deploy: Cost5,
    /// That of each function, by name, in the order of the text.
    pub functions: Row<(Name, Cost5)>,
}

/// What the bound of a function is under a table of costs.
#[derive(Clone, Copy)]
pub enum Reach {
    /// This cost.
    Bound(Cost5),
    /// It is above 2^128-1, in this dimension first.
    Over(Dimension),
}

/// A function of a deployed contract, with its bound under the table that begins with a block.
#[derive(Drop)]
pub struct Rebound {
    pub contract: Principal,
    pub name: Name,
    pub reach: Reach,
    /// The type that the function returns.
    pub returns: SizedTy,
}

/// What becomes of an entry, and what goes with it.
pub struct TxResult {
    pub outcome: Outcome,
    /// What the entry is charged; up to the first sum that is above the limit. None where it is
    /// refused, and of a block.
    pub cost: Option<Cost5>,
    /// The bounds, where a deployment's source is accepted, also if it then aborts.
    pub bounds: Option<Bounds>,
    /// With the bounds: the type that each function returns, in the order of the text.
    pub types: Row<SizedTy>,
    /// The events of a deployment that is done, of an ok and of a plain value, in order.
    pub events: Row<Event>,
    /// Of a block at which the number of the epoch changes: each function of each deployed
    /// contract, in the order of the deployments and then of the text.
    pub rebounds: Row<Rebound>,
}

impl Drop for TxResult {
    fn drop(self) {
        let TxResult {
            outcome,
            cost: _,
            bounds,
            types,
            events,
            rebounds,
        } = self;
        drop(outcome);
        drop(bounds);
        drop(types);
        drop(events);
        drop(rebounds);
    }
}
