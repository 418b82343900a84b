//! Claims, and how far nodes agree with them.
ghost use Rattle.std.specs.Prelude.{◌≡◌, false};
ghost use Rattle.cl_audit_walk.specs.Looking.{is_claim, look};

use cl_sexpr::Span;
use cl_values::{Val, are_alike};

/// What a node is said to give: the span of its expression, and its value.
#[derive(Drop)]
pub struct Claim {
    pub span: Span,
    pub value: Val,
}

/// Claims, and how far the nodes so far agree with them.
#[derive(Clone, Copy)]
pub struct Cursor<'a> {
    /// The claims.
    pub claims: &'a [Claim],
    /// How many of them nodes agree with.
    pub at: usize,
    /// Whether a node differed from the claim there, or there was none.
    pub differs: bool,
}

/// Whether a claim is that of a node.
fn is_claim(claim: &Claim, span: Span, value: &Val) -> bool
    ensures { result ≡ is_claim span value.now claim.now }
{
    claim.span.start == span.start
        && claim.span.end == span.end
        && are_alike(claim.value.value(), value.value())
}

impl<'a> Cursor<'a> {
    /// A cursor before the first of these claims.
    pub fn new(claims: &'a [Claim]) -> Cursor<'a>
        ensures claims { result.claims.now ≡ claims.now }
        ensures first { result.at ≡ 0 }
        ensures agreed { result.differs ≡ false }
    {
        Cursor {
            claims,
            at: 0,
            differs: false,
        }
    }

    /// A node gave a value.
    pub fn look(&mut self, span: Span, value: &Val)
        ensures { self.new ≡ look span value.now self.old }
    {
        if self.differs {
            return;
        }
        let agrees = match self.claims.get(self.at) {
            Some(claim) => is_claim(claim, span, value),
            None => false,
        };
        if agrees {
            self.at += 1;
        } else {
            self.differs = true;
        }
    }
}
