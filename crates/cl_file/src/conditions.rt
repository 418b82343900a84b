//! The conditions of an entry.
ghost use Rattle.std.specs.Prelude.{◌≡◌, ◌<◌, ◌^◌, [], length};

use cl_post::Condition;
use std::alloc::Global;
use std::marker::Model;

/// Conditions, fewer than 2^32.
#[derive(Drop)]
pub struct Conditions {
    items: Vec<Condition>,
}

impl Model for Conditions {
    ghost use Rattle.std.specs.Prelude.{◌<◌, ◌^◌, List, length};
    ghost use Rattle.cl_post.specs.declared.condition.Condition.{Condition as ACondition};
    ghost use Rattle.std.specs.Coded.{coded_list};
    ghost use Rattle.cl_post.specs.contracts.condition.Condition as condition;

    ghost Value = { List ACondition };

    ghost coded = { coded_list condition.the_row.coded };

    ghost view = { λ c. c.items.items };

    ghost invariant = { λ c. length c.items.items < 2 ^ 32 };
}

impl Conditions {
    /// No conditions.
    pub fn none(alloc: Global) -> Conditions
        ensures { result ≡ [] }
    {
        Conditions {
            items: Vec::new(alloc),
        }
    }

    /// These conditions.
    pub fn new(items: Vec<Condition>) -> Conditions
        requires { length items.items < 2 ^ 32 }
        ensures { result ≡ items.items }
    {
        Conditions { items }
    }

    /// The conditions, in their order.
    pub fn as_slice(&self) -> &[Condition]
        ensures value { result.now ≡ self.now }
        ensures within { length result.now < 2 ^ 32 }
    {
        self.items.as_slice()
    }
}
