//! The lines of a trace.
ghost use Rattle.std.specs.Prelude.{◌≡◌, ◌++◌, IfOk, map};
ghost use Rattle.std.specs.List.{flat_map};
ghost use Rattle.cl_audit.specs.Told.{claim_told};
ghost use Rattle.cl_traces.specs.Lines.{line_of, trace_text};

use cl_audit::Trace;
use cl_audit_walk::Claim;
use cl_claims::write_claim;
use cl_types::NoMemory;
use std::alloc::Global;

fn write_claims(
    out: &mut Vec<u8>,
    alloc: Global,
    number: u32,
    claims: &[Claim],
) -> Result<(), NoMemory>
    ensures { IfOk result
        (λ _. out.new.items ≡ out.old.items ++ flat_map (line_of number) claims.now) }
{
    for claim in claims {
        write_claim(out, alloc, number, claim.span, &claim.value)?;
    }
    Ok(())
}

/// The lines of the trace of the entry with this number, one for each claim.
pub fn trace_text(alloc: Global, number: u32, trace: &Trace) -> Result<Vec<u8>, NoMemory>
    ensures { IfOk result (λ text. text.items
        ≡ trace_text number (map claim_told trace.now.claims.items)) }
{
    let mut text = Vec::new(alloc);
    write_claims(&mut text, alloc, number, &trace.claims)?;
    Ok(text)
}
