//! Traces that are kept while an evaluation runs.
ghost use Rattle.std.specs.Prelude.{◌≡◌, [], Some, map};
ghost use Rattle.cl_audit.specs.Told.{claim_told};

use cl_audit_walk::Claim;
use cl_code::Watch;
use cl_sexpr::Span;
use cl_types::NoMemory;
use cl_values::Val;
use std::alloc::Global;

/// The claims of an evaluation: the span and the value of each node that gave one, in the order in
/// which they ended. It keeps them while it watches; whoever audits trusts none of them.
pub struct Trace {
    pub claims: Vec<Claim>,
}

impl Drop for Trace {
    fn drop(self) {
        let Trace { claims } = self;
        drop(claims);
    }
}

impl Trace {
    /// A trace without claims.
    pub fn new(alloc: Global) -> Trace
        ensures { result.claims.items ≡ [] }
    {
        Trace {
            claims: Vec::new(alloc),
        }
    }
}

impl Watch for Trace {
    ghost use Rattle.std.specs.Prelude.{Some, map};
    ghost use Rattle.cl_audit.specs.Told.{claim_told};
    ghost use Rattle.cl_code.specs.Watched.{Sees};

    ghost seen = { λ t. Some (map claim_told t.claims.items) };

    fn saw(&mut self, span: Span, value: &Val) -> Result<(), NoMemory>
        ensures { Sees (Some (map claim_told self.old.claims.items))
            (Some (map claim_told self.new.claims.items)) (span, value.now) result }
    {
        let value = value.copy(*self.claims.allocator())?;
        self.claims.push(Claim { span, value })?;
        Ok(())
    }
}
