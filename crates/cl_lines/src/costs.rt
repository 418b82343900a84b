//! How costs and bounds print.
ghost use Rattle.std.specs.Prelude.{◌≡◌, ◌++◌, IfOk, codes, decimal};
ghost use Rattle.cl_lines.specs.Costs.{cost_text, cost_line, deployment_line, bound_text, bound_line, bound_lines, bounds_lines};

use cl_shapes::Cost5;
use cl_text::print_type;
use cl_tx::Bounds;
use cl_types::{Name, NoMemory, SizedTy};
use itoa::Buffer;
use std::alloc::Global;

fn write_next(out: &mut Vec<u8>, number: u128) -> Result<(), NoMemory>
    ensures { IfOk result (λ _. out.new.items ≡ out.old.items ++ (codes " " ++ decimal number)) }
{
    out.extend_from_slice(b" ")?;
    out.extend_from_slice(Buffer::new().format(number).as_bytes())?;
    Ok(())
}

#[tactic(auto, unfolding(crate::specs::Costs::cost_text))]
fn write_numbers(out: &mut Vec<u8>, cost: &Cost5) -> Result<(), NoMemory>
    ensures { IfOk result (λ _. out.new.items ≡ out.old.items ++ cost_text cost.now) }
{
    out.extend_from_slice(Buffer::new().format(cost.runtime).as_bytes())?;
    write_next(out, cost.read_count)?;
    write_next(out, cost.read_length)?;
    write_next(out, cost.write_count)?;
    write_next(out, cost.write_length)?;
    Ok(())
}

/// Writes what an entry was charged, where it has a cost.
pub fn write_cost(out: &mut Vec<u8>, cost: &Option<Cost5>) -> Result<(), NoMemory>
    ensures { IfOk result (λ _. out.new.items ≡ out.old.items ++ cost_line cost.now) }
{
    if let Some(cost) = cost {
        out.extend_from_slice(b"  cost ")?;
        write_numbers(out, cost)?;
        out.extend_from_slice(b"\n")?;
    }
    Ok(())
}

fn write_deployment(out: &mut Vec<u8>, bound: &Cost5) -> Result<(), NoMemory>
    ensures { IfOk result (λ _. out.new.items ≡ out.old.items ++ deployment_line bound.now) }
{
    out.extend_from_slice(b"  deploy-bound ")?;
    write_numbers(out, bound)?;
    out.extend_from_slice(b"\n")?;
    Ok(())
}

/// Writes a bound and the type that its function returns, each behind a space.
#[tactic(auto, unfolding(crate::specs::Costs::bound_text))]
pub(crate) fn write_bound_text(
    out: &mut Vec<u8>,
    alloc: Global,
    bound: &Cost5,
    returns: &SizedTy,
) -> Result<(), NoMemory>
    ensures { IfOk result (λ _. out.new.items ≡ out.old.items ++ bound_text bound.now returns.now) }
{
    let type_text = print_type(alloc, returns)?;
    out.extend_from_slice(b" ")?;
    write_numbers(out, bound)?;
    out.extend_from_slice(b" ")?;
    out.extend_from_slice(&type_text)?;
    Ok(())
}

#[tactic(auto, unfolding(crate::specs::Costs::bound_line))]
fn write_bound(
    out: &mut Vec<u8>,
    alloc: Global,
    name: &Name,
    bound: &Cost5,
    returns: &SizedTy,
) -> Result<(), NoMemory>
    ensures { IfOk result (λ _. out.new.items
        ≡ out.old.items ++ bound_line name.now bound.now returns.now) }
{
    out.extend_from_slice(b"  bound ")?;
    out.extend_from_slice(name.bytes())?;
    write_bound_text(out, alloc, bound, returns)?;
    out.extend_from_slice(b"\n")?;
    Ok(())
}

fn write_functions(
    out: &mut Vec<u8>,
    alloc: Global,
    functions: &[(Name, Cost5)],
    types: &[SizedTy],
) -> Result<(), NoMemory>
    ensures { IfOk result (λ _. out.new.items
        ≡ out.old.items ++ bound_lines functions.now types.now) }
{
    for (i, (name, bound)) in functions.iter().enumerate() {
        match types.get(i) {
            Some(returns) => write_bound(out, alloc, name, bound, returns)?,
            None => return Ok(()),
        }
    }
    Ok(())
}

/// Writes the bounds of an accepted contract, with the types that its functions return.
pub fn write_bounds(
    out: &mut Vec<u8>,
    alloc: Global,
    bounds: &Option<Bounds>,
    types: &[SizedTy],
) -> Result<(), NoMemory>
    ensures { IfOk result (λ _. out.new.items
        ≡ out.old.items ++ bounds_lines bounds.now types.now) }
{
    match bounds {
        Some(bounds) => {
            write_deployment(out, &bounds.deploy)?;
            write_functions(out, alloc, bounds.functions.as_slice(), types)
        }
        None => Ok(()),
    }
}
