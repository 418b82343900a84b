//! What holds of states: each function here is a law, and does nothing.
ghost use Rattle.std.specs.Prelude.{◌≡◌, List, ℕ};
ghost use Rattle.cl_c32.specs.declared.principal.Principal.{Principal};
ghost use Rattle.cl_c32.specs.Principals.{same_principal};
ghost use Rattle.cl_values.specs.Valid.{IsPrincipal};
ghost use Rattle.cl_tokens.specs.Ledger.{IsLedger};
ghost use Rattle.cl_events.specs.State.{genesis, is_principal};

/// The first STX sums to its supply, which is below 2^128.
pub fn genesis_is_a_ledger()
    ensures { (holders : List (Principal × ℕ)) → IsLedger (genesis holders).stx }
{}

/// Two principals have one key, their wire form, where they are one part by part.
pub fn principals_are_told_apart_by_keys()
    ensures { (p q : Principal) → IsPrincipal p → IsPrincipal q → is_principal p q ≡ same_principal p q }
{}
