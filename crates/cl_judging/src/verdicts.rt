//! Verdicts on natives all of whose arguments are evaluated.
ghost use Rattle.std.specs.Prelude.{◌≡◌, ◌≤◌, length, drop};
ghost use Rattle.cl_judging.specs.declared.node.Evaluated.TheVariants.{Values};
ghost use Rattle.cl_judging.specs.Walking.{Judges};
ghost use Rattle.cl_judging.specs.LetWalk.{JudgesLet};

use cl_sexpr::Rule;
use cl_types::Fault;
use cl_typing::{Checked, Concluded, conclude, last, on_values, types_of};
use cl_values::Native;
use std::alloc::Global;

/// The verdict on a native on values.
pub(crate) fn on_native(
    alloc: Global,
    native: Native,
    parts: &[Checked],
) -> Result<Concluded, Fault<Rule>>
    ensures { Judges (Values native) parts.now result }
{
    on_values(alloc, native, parts)
}

fn behind(parts: &[Checked], count: usize) -> &[Checked]
    requires { count ≤ length parts.now }
    ensures { result.now ≡ drop count parts.now }
{
    &parts[count..]
}

/// The verdict on a let with so many bindings.
pub(crate) fn on_bodies(
    alloc: Global,
    bindings: usize,
    parts: &[Checked],
) -> Result<Concluded, Fault<Rule>>
    requires { bindings ≤ length parts.now }
    ensures { JudgesLet bindings parts.now result }
{
    let types = types_of(alloc, behind(parts, bindings))?;
    let ruled = last(alloc, &types);
    conclude(alloc, ruled, &None, 0, parts)
}
