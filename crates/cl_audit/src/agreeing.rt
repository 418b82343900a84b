//! Whether a trace agrees with its claims.
ghost use Rattle.std.specs.Prelude.{◌≡◌, List, length, true, false, [], drop};
ghost use Rattle.cl_meaning.specs.Trace.{Claim as Told};
ghost use Rattle.cl_audit.specs.Agrees.{agree, follows, IsAgreement};

use cl_audit_walk::Cursor;

/// Whether a trace agrees with its claims.
#[derive(Clone, Copy)]
pub enum Agreement {
    /// It has these claims and no more.
    Agrees,
    /// The place of the first claim that differs, or that only one of the two has.
    DiffersAt(usize),
}

/// Whether a trace agrees with the claims, once a cursor has looked at all of it.
pub fn agreement_of(cursor: &Cursor) -> Agreement
    ensures { (told : List Told) →
        cursor.now ≡ follows told (record cursor.now { at = 0; differs = false }) →
        IsAgreement told cursor.now.claims.now result }
{
    if cursor.differs {
        return Agreement::DiffersAt(cursor.at);
    }
    if cursor.at != cursor.claims.len() {
        return Agreement::DiffersAt(cursor.at);
    }
    Agreement::Agrees
}
