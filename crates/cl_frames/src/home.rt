//! Contracts whose code is evaluated.
use cl_contracts::Checked;
use cl_keyed::HashKey;
use cl_types::Name;
use cl_values::Val;
use indexmap::IndexMap;

/// A contract whose code is evaluated, with the values that its constants have by now.
#[derive(Clone, Copy)]
pub struct Home<'a> {
    /// The contract, as it was checked.
    pub checked: &'a Checked,
    /// The values of its constants by their names.
    pub constants: &'a IndexMap<Name, Val, HashKey>,
}
