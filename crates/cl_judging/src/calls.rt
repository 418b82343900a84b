//! Calls of functions of the contract.
ghost use Rattle.std.specs.Prelude.{◌≡◌, length, nat_eq};
ghost use Rattle.cl_judging.specs.Calls.{JudgesCall};

use crate::context::Signature;
use cl_sexpr::{Rule, Sexpr};
use cl_types::Fault;
use cl_typing::{Checked, Concluded, call_type, conclude, types_of};
use std::alloc::Global;

/// Whether there are as many arguments as parameters.
pub(crate) fn has_count(args: &[Sexpr], f: &Signature) -> bool
    ensures { result ≡ nat_eq (length args.now) (length f.now.params.items) }
{
    args.len() == f.params.len()
}

/// The verdict on a call with these arguments.
pub(crate) fn on_call(
    alloc: Global,
    f: &Signature,
    parts: &[Checked],
) -> Result<Concluded, Fault<Rule>>
    ensures { JudgesCall f.now parts.now result }
{
    let types = types_of(alloc, parts)?;
    let ruled = call_type(alloc, &f.params, &f.returns, &types);
    conclude(alloc, ruled, &None, f.height, parts)
}
