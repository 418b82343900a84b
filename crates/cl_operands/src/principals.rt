//! Principals.
ghost use Rattle.std.specs.Prelude.{◌≡◌};
ghost use Rattle.cl_events.specs.State.{is_principal};
ghost use Rattle.cl_values.specs.Valid.{IsPrincipal};

use cl_c32::Principal;
use cl_values::one_spelling;

/// A law of each principal: its parts are within their limits.
pub fn is_valid(principal: &Principal)
    ensures { IsPrincipal principal.now }
{
    let _version = principal.address.version;
    if let Some(name) = &principal.contract {
        let _bytes = name.bytes();
    }
}

/// Whether two principals are the same.
pub fn is_same(one: &Principal, other: &Principal) -> bool
    ensures { result ≡ is_principal one.now other.now }
{
    one_spelling();
    is_valid(one);
    is_valid(other);
    one == other
}
