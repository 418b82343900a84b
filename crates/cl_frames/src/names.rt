//! Names that are bound to values.
ghost use Rattle.std.specs.Prelude.{◌≡◌, ◌++◌, ◌∷◌, [], option_copied};
ghost use Rattle.std.specs.Option.{option_or};
ghost use Rattle.cl_meaning.specs.Deployed.{value_of};
ghost use Rattle.cl_frames.specs.Named.{own_seen, paired};

use crate::own::Own;
use cl_code::Function;
use cl_types::Name;
use cl_values::Val;
use std::marker::Model;

/// Names that are bound to values: those of the scope round this one, if there is one, and then its own. Contracts see them in
/// this order.
#[derive(Drop)]
pub struct Names<'a> {
    outer: Option<&'a Names<'a>>,
    own: Own<'a>,
}

impl<'a> Model for Names<'a> {
    ghost use Rattle.cl_frames.specs.Named.{Named, named, named_code, own_seen};

    ghost Value = { Named };

    ghost coded = { named_code };

    ghost view = { λ n. named n.outer (own_seen n.own) };

    ghost size = { λ n. n.depth };
}

impl<'a> Names<'a> {
    /// The names of a scope that stands alone.
    pub fn alone(own: &'a [(Name, Val)]) -> Names<'a>
        ensures { result.values ≡ own.now }
    {
        Names {
            outer: None,
            own: Own::Pairs(own),
        }
    }

    /// The parameters of a function that is called with values.
    pub fn of_call(function: &'a Function, values: &'a [Val]) -> Names<'a>
        ensures { result.values ≡ paired function.now.params.items values.now }
    {
        Names {
            outer: None,
            own: Own::Call(function, values),
        }
    }

    /// The names of a scope within another.
    pub fn within(outer: &'a Names<'a>, own: &'a [(Name, Val)]) -> Names<'a>
        ensures { result.values ≡ outer.now.values ++ own.now }
    {
        Names {
            outer: Some(outer),
            own: Own::Pairs(own),
        }
    }

    /// The names of a scope, and one more.
    pub fn with_one(outer: &'a Names<'a>, name: &'a Name, value: &'a Val) -> Names<'a>
        ensures { result.values ≡ outer.now.values ++ (name.now, value.now) ∷ [] }
    {
        Names {
            outer: Some(outer),
            own: Own::One(name, value),
        }
    }

    /// The first value of a name.
    pub fn find(&self, name: &Name) -> Option<&Val>
        ensures { option_copied result ≡ value_of name.now self.now.values }
    {
        match self.outer {
            Some(outer) => or_first_under(outer.find(name), &self.own, name),
            None => self.own.first_under(name),
        }
    }
}

/// What was found, or else the first value of a name among these.
fn or_first_under<'a>(found: Option<&'a Val>, own: &Own<'a>, name: &Name) -> Option<&'a Val>
    ensures { option_copied result ≡ option_or (option_copied found.entry) (value_of name.now (own_seen own.now)) }
{
    match found {
        Some(value) => Some(value),
        None => own.first_under(name),
    }
}
