//! The names of one scope, with their values.
ghost use Rattle.std.specs.Prelude.{◌≡◌, ◌∷◌, [], option_copied};
ghost use Rattle.std.specs.Str.{bytes_eq};
ghost use Rattle.cl_meaning.specs.Deployed.{value_of};
ghost use Rattle.cl_frames.specs.Named.{own_seen, paired};

use cl_code::Function;
use cl_types::Name;
use cl_values::Val;

/// The names of one scope, with their values.
#[derive(Clone, Copy)]
pub(crate) enum Own<'a> {
    /// The parameters of a function, and the values that it is called with.
    Call(&'a Function, &'a [Val]),
    /// A name that is bound to a value.
    One(&'a Name, &'a Val),
    /// Names that are bound one after another.
    Pairs(&'a [(Name, Val)]),
}

impl<'a> Own<'a> {
    /// The first value of a name.
    pub(crate) fn first_under(&self, name: &Name) -> Option<&'a Val>
        ensures { option_copied result ≡ value_of name.now (own_seen self.now) }
    {
        match self {
            Own::Call(function, values) => among_params(function, values, name),
            Own::One(bound, value) => only_under(bound, value, name),
            Own::Pairs(pairs) => among_pairs(pairs, name),
        }
    }
}

/// Whether two names are one.
fn is_same(one: &Name, other: &Name) -> bool
    ensures { result ≡ bytes_eq one.now other.now }
{
    one.bytes() == other.bytes()
}

/// The first value of a name among those that the parameters of a function are bound to.
fn among_params<'a>(function: &Function, values: &'a [Val], name: &Name) -> Option<&'a Val>
    ensures { option_copied result ≡ value_of name.now (paired function.now.params.items values.now) }
{
    for place in 0..function.params.len() {
        if place >= values.len() {
            return None;
        }
        if is_same(&function.params[place].0, name) {
            return Some(&values[place]);
        }
    }
    None
}

/// The value that one name is bound to, where it is this one.
fn only_under<'a>(bound: &Name, value: &'a Val, name: &Name) -> Option<&'a Val>
    ensures { option_copied result ≡ value_of name.now ((bound.now, value.now) ∷ []) }
{
    if is_same(bound, name) {
        Some(value)
    } else {
        None
    }
}

/// The first value of a name among these.
fn among_pairs<'a>(pairs: &'a [(Name, Val)], name: &Name) -> Option<&'a Val>
    ensures { option_copied result ≡ value_of name.now pairs.now }
{
    for pair in pairs {
        if is_same(&pair.0, name) {
            return Some(&pair.1);
        }
    }
    None
}
