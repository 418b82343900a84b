//! What the tables of a state hold.
ghost use Rattle.std.specs.Prelude.{◌≡◌, IfOk};

use cl_tokens::Stored;
use cl_types::NoMemory;
use cl_values::Val;
use std::alloc::Global;
use std::marker::Model;

/// A value in a table, with the allocator of its copies. Contracts see the value.
#[derive(Drop)]
pub struct HeldValue {
    alloc: Global,
    value: Val,
}

impl Model for HeldValue {
    ghost use Rattle.cl_values.specs.Tree.{Tree};
    ghost use Rattle.cl_values.specs.TreeCode.{tree_code};

    ghost Value = { Tree };

    ghost coded = { tree_code };

    ghost view = { λ h. h.value };
}

impl HeldValue {
    pub(crate) fn new(alloc: Global, value: Val) -> HeldValue
        ensures { result ≡ value }
    {
        HeldValue { alloc, value }
    }

    pub(crate) fn copy_out(&self) -> Result<Val, NoMemory>
        ensures { IfOk result (λ v. v ≡ self.now) }
    {
        self.value.copy(self.alloc)
    }

    pub(crate) fn into_value(self) -> Val
        ensures { result ≡ self }
    {
        self.value
    }

    /// The bytes of the value's wire form.
    pub(crate) fn size(&self) -> usize {
        self.value.size() as usize
    }
}

impl Stored for HeldValue {
    fn duplicate(&self) -> Result<HeldValue, NoMemory> {
        Ok(HeldValue {
            alloc: self.alloc,
            value: self.value.copy(self.alloc)?,
        })
    }
}
