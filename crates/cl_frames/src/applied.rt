//! What is applied to values.
ghost use Rattle.std.specs.Prelude.{◌≡◌};
ghost use Rattle.cl_frames.specs.Applying.{place_by_name};

use cl_code::Function;
use cl_sexpr::Span;
use cl_values::Native;

/// A native that is given by name, and the place of its name.
#[derive(Clone, Copy)]
pub enum ByName {
    /// A native on values.
    OnValues(Native, Span),
    /// `and`
    And(Span),
    /// `or`
    Or(Span),
}

impl ByName {
    /// The place of its name.
    pub fn place(&self) -> Span
        ensures { result ≡ place_by_name self.now }
    {
        match self {
            ByName::OnValues(_, at) | ByName::And(at) | ByName::Or(at) => *at,
        }
    }
}

/// What is applied to values.
#[derive(Clone, Copy)]
pub enum Called<'a> {
    /// A function of the contract.
    Function(&'a Function),
    /// A native.
    Native(ByName),
}
