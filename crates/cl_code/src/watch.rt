//! Who looks on while an expression is evaluated.
ghost use Rattle.std.specs.Prelude.{List, Option, None};
ghost use Rattle.cl_sexpr.specs.declared.sexpr.Span.{Span};
ghost use Rattle.cl_values.specs.Tree.{Tree};
ghost use Rattle.cl_code.specs.Watched.{Sees};

use cl_sexpr::Span;
use cl_types::NoMemory;
use cl_values::Val;

/// What is told of each node of an evaluation that gives a value, after its last charge.
pub trait Watch {
    /// The spans and values that were told so far, the oldest first, where that is kept.
    ghost seen: { Self → Option (List (Span × Tree)) };

    /// A node gave a value.
    ///
    /// # Errors
    ///
    /// `NoMemory` where there is no room for it; then what was told so far is as before.
    fn saw(&mut self, span: Span, value: &Val) -> Result<(), NoMemory>
        ensures { Sees (seen self.old) (seen self.new) (span, value.now) result };
}

/// Nobody looks on.
#[derive(Clone, Copy, Drop)]
pub struct Silent;

impl Watch for Silent {
    ghost seen = { λ w. None };

    fn saw(&mut self, _span: Span, _value: &Val) -> Result<(), NoMemory> {
        Ok(())
    }
}
