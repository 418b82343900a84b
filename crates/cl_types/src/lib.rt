//! What every crate speaks of: names, texts, and the ways in which a call fails.
#![tactic(auto)]

mod admission;
mod depth;
mod fault;
mod keys;
mod lattice_laws;
mod laws;
mod measure;
mod name;
mod order;
mod sized;
mod supertype;
mod text;
mod ty;

pub use admission::admits;
pub use fault::{Fault, NoMemory};
pub use lattice_laws::{admission_orders, least_supertype_is, one_least_supertype};
pub use laws::{keys_are_ordered, made_is_sized, parts_are_sized, placed_keys_rise, sized_is_made};
pub use measure::measured;
pub use name::{Name, fits_pattern, is_digit, is_letter};
pub use order::sort_row;
pub use sized::{Access, SizedTy, TyRefusal, size};
pub use supertype::lub;
pub use text::Text;
pub use ty::{Ty, TyKind};
