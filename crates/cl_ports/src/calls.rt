ghost use Rattle.std.specs.Prelude.{◌≡◌};
ghost use Rattle.cl_ports.specs.Memory.{is_listed};

/// Whether the call with this number is among those that are to fail.
pub fn fails_at(fails: &[u32], call: u64) -> bool
    ensures { result ≡ is_listed fails.now call }
{
    fails.iter().any(|n| u64::from(*n) == call)
}
