//! Whether a function may be called.
ghost use Rattle.std.specs.Prelude.{◌≡◌, ◌<◌, ◌^◌, length, Some, IfSome, IfNone};
ghost use Rattle.cl_c32.specs.declared.principal.Principal.{Principal};
ghost use Rattle.cl_file.specs.declared.entry.Common.{Common};
ghost use Rattle.cl_meaning.specs.Limits.{Costs};
ghost use Rattle.cl_tx.specs.Nodes.{NodeSeen, refused};
ghost use Rattle.cl_tx.specs.Step.{first_misfit, if_open};
ghost use Rattle.cl_nodes.specs.Calling.{MayBeCalled};
ghost use Rattle.cl_audit_steps.specs.Seen.{function_seen};

use cl_audit_steps::Function;
use cl_tx::EntryRefusal;
use cl_types::{Access, Name, SizedTy};
use cl_values::{Val, inhabits};

/// The place of the first argument that isn't of its parameter's type.
fn misfit(params: &[(Name, SizedTy)], args: &[Val]) -> Option<usize>
    requires { length args.now ≡ length params.now }
    ensures first { result ≡ first_misfit 0 params.now args.now }
    ensures within { IfSome result (λ index. index < length args.now) }
{
    for index in 0..args.len() {
        if !inhabits(&args[index], &params[index].1) {
            return Some(index);
        }
    }
    None
}

/// Why a function can't be called from outside with these arguments.
pub(crate) fn refusal_of(function: &Function, args: &[Val]) -> Option<EntryRefusal>
    requires { length function.now.params.now < 2 ^ 32 }
    ensures refused { IfSome result
        (λ refusal. (costs : Costs) (node : NodeSeen) (common : Common) (contract : Principal) →
        if_open costs node common contract (function_seen function.now) args.now function.now.access
        ≡ Some (refused node refusal)) }
    ensures called { IfNone result (MayBeCalled (function_seen function.now) args.now) }
{
    if let Access::Private = function.access {
        return Some(EntryRefusal::NotPublic);
    }
    if args.len() != function.params.len() {
        return Some(EntryRefusal::ArgumentCount);
    }
    match misfit(function.params, args) {
        Some(index) => Some(EntryRefusal::Argument {
            index: index as u32,
        }),
        None => None,
    }
}
