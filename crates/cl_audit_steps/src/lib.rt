//! The rules of the language's meaning as steps: what each form evaluates first, and what follows
//! the values of its parts, one function a form. Nothing here evaluates a part, pays a charge or
//! compares a claim.
#![tactic(auto)]

mod across;
mod acting;
mod chains;
mod charge;
mod control;
mod data;
mod forms;
mod items;
mod leaves;
mod named_values;
mod names;
mod places;
mod scope;
mod sequences;
mod start;
mod step;
mod table;
mod tokens;
mod tuples;
mod values;

pub use acting::{on_act, on_acts, on_read};
pub use chains::{link, link_end};
pub use charge::Charge;
pub use forms::Forms;
pub use items::binding;
pub use named_values::NamedValues;
pub use names::Names;
pub use scope::{Callee, Contract, Frame, Function, Scope};
pub use start::first_step;
pub use step::{Chain, End, Last, Link, OnAct, OnActs, OnAll, OnOne, OnRead, Part, Start};
pub use table::ContractTable;
pub use values::{last, on_all, on_name, on_one, on_tuple};
