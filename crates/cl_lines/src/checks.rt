//! The lines of a contract that is checked.
ghost use Rattle.std.specs.Prelude.{◌≡◌, ◌++◌, codes, IfOk};
ghost use Rattle.cl_text.specs.Printed.{principal_text};
ghost use Rattle.cl_lines.specs.Checks.{accepted_lines, refused_line};

use crate::costs::write_bounds;
use crate::refusals::write_refusal;
use cl_c32::Principal;
use cl_text::print_principal;
use cl_tx::{Bounds, SourceRefusal};
use cl_types::{NoMemory, SizedTy};
use std::alloc::Global;

fn write_contract(out: &mut Vec<u8>, alloc: Global, principal: &Principal) -> Result<(), NoMemory>
    ensures { IfOk result (λ _. out.new.items
        ≡ out.old.items ++ (codes "contract " ++ principal_text principal.now)) }
{
    let text = print_principal(alloc, principal)?;
    out.extend_from_slice(b"contract ")?;
    out.extend_from_slice(&text)?;
    Ok(())
}

/// The lines of an accepted contract: `contract` and its principal, and below it its bounds, with
/// the types that its functions return, in the order of its text. Each line ends with LF.
pub fn accepted_lines(
    alloc: Global,
    principal: &Principal,
    bounds: &Option<Bounds>,
    types: &[SizedTy],
) -> Result<Vec<u8>, NoMemory>
    ensures { IfOk result (λ text. text.items ≡ accepted_lines principal.now bounds.now types.now) }
{
    let mut out = Vec::new(alloc);
    write_contract(&mut out, alloc, principal)?;
    out.extend_from_slice(b"\n")?;
    write_bounds(&mut out, alloc, bounds, types)?;
    Ok(out)
}

/// The line of a contract whose source breaks a rule: `contract`, its principal, `refused`, and the
/// rule with its span and names.
pub fn refused_line(
    alloc: Global,
    principal: &Principal,
    refusal: &SourceRefusal,
) -> Result<Vec<u8>, NoMemory>
    ensures { IfOk result (λ text. text.items ≡ refused_line principal.now refusal.now) }
{
    let mut out = Vec::new(alloc);
    write_contract(&mut out, alloc, principal)?;
    out.extend_from_slice(b" refused ")?;
    write_refusal(&mut out, alloc, refusal)?;
    out.extend_from_slice(b"\n")?;
    Ok(out)
}
