//! Typed trees: the expressions of a contract as they are evaluated, each with its type and its
//! place in the text.
#![tactic(auto)]

mod charges;
mod code;
mod definition;
mod op;
mod watch;

pub use charges::native_cost;
pub use code::Code;
pub use definition::{
    Constant, Definition, Function, Fungible, MapOf, NonFungible, TopLevel, Variable,
};
pub use op::{Applied, Binding, Callee, Iteration, NameNative, Op, PartsNative, Target, Word};
pub use watch::{Silent, Watch};
