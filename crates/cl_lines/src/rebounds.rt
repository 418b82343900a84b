//! How bounds that a block changes print.
ghost use Rattle.std.specs.Prelude.{◌≡◌, ◌++◌, IfOk, codes};
ghost use Rattle.cl_shapes.specs.Costs.{dimension_name};
ghost use Rattle.cl_lines.specs.Rebounds.{reach_text, rebound_line, rebound_lines};

use crate::addresses::AddressCache;
use crate::costs::write_bound_text;
use crate::events::{write_name, write_who};
use cl_shapes::Dimension;
use cl_tx::{Reach, Rebound};
use cl_types::{NoMemory, SizedTy};
use std::alloc::Global;

fn write_over(out: &mut Vec<u8>, dimension: Dimension) -> Result<(), NoMemory>
    ensures { IfOk result (λ _. out.new.items
        ≡ out.old.items ++ (codes " over " ++ dimension_name dimension)) }
{
    out.extend_from_slice(b" over ")?;
    out.extend_from_slice(dimension.name().as_bytes())?;
    Ok(())
}

#[tactic(auto, unfolding(crate::specs::Rebounds::reach_text))]
fn write_reach(
    out: &mut Vec<u8>,
    alloc: Global,
    reach: &Reach,
    returns: &SizedTy,
) -> Result<(), NoMemory>
    ensures { IfOk result (λ _. out.new.items ≡ out.old.items ++ reach_text reach.now returns.now) }
{
    match reach {
        Reach::Bound(bound) => write_bound_text(out, alloc, bound, returns),
        Reach::Over(dimension) => write_over(out, *dimension),
    }
}

#[tactic(auto, unfolding(crate::specs::Rebounds::rebound_line))]
fn write_rebound(
    out: &mut Vec<u8>,
    alloc: Global,
    addresses: &mut AddressCache,
    rebound: &Rebound,
) -> Result<(), NoMemory>
    ensures { IfOk result (λ _. out.new.items ≡ out.old.items ++ rebound_line rebound.now) }
{
    out.extend_from_slice(b"  rebound")?;
    write_who(out, addresses, &rebound.contract)?;
    write_name(out, &rebound.name)?;
    write_reach(out, alloc, &rebound.reach, &rebound.returns)?;
    out.extend_from_slice(b"\n")?;
    Ok(())
}

/// Writes the bounds of functions of deployed contracts that begin with a block, a line for each.
pub fn write_rebounds(
    out: &mut Vec<u8>,
    alloc: Global,
    addresses: &mut AddressCache,
    rebounds: &[Rebound],
) -> Result<(), NoMemory>
    ensures { IfOk result (λ _. out.new.items ≡ out.old.items ++ rebound_lines rebounds.now) }
{
    for rebound in rebounds {
        write_rebound(out, alloc, addresses, rebound)?;
    }
    Ok(())
}
