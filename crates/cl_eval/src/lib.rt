//! The evaluation of typed trees: each step is charged to a meter as it is made, and changes a world.
#![tactic(auto)]

mod across;
mod calls;
mod control;
mod iterate;
mod on_names;
mod on_parts;
mod scopes;
mod stx;
mod tuples;
mod walk;

pub use calls::enter;
pub use walk::evaluate;
