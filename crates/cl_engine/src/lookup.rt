//! What an entry names, and whether it may be called.
ghost use Rattle.std.specs.Prelude.{◌≡◌, ◌<◌, ◌^◌, length, true, Some, IfSome, IfNone, option_map};
ghost use Rattle.cl_types.specs.Name.{IsName};
ghost use Rattle.cl_c32.specs.declared.principal.Principal.{Principal};
ghost use Rattle.cl_meaning.specs.Deployed.{Function as FunctionSeen, function_in};
ghost use Rattle.cl_meaning.specs.Limits.{Costs};
ghost use Rattle.cl_code.specs.Typed.{goes_by};
ghost use Rattle.cl_contracts.specs.Seen.{forms_of, function_seen};
ghost use Rattle.cl_file.specs.declared.entry.Common.{Common};
ghost use Rattle.cl_tx.specs.Nodes.{NodeSeen, refused};
ghost use Rattle.cl_tx.specs.Step.{first_misfit, if_open};
ghost use Rattle.cl_nodes.specs.Calling.{MayBeCalled};

use cl_code::Function;
use cl_contracts::Contract;
use cl_tx::EntryRefusal;
use cl_types::{Access, Name, SizedTy};
use cl_values::{Val, inhabits};

/// The function of a contract that these bytes name.
pub(crate) fn function_named<'a>(contract: &'a Contract, name: &[u8]) -> Option<&'a Function>
    requires { (f : FunctionSeen) →
        function_in name.now (forms_of contract.now.checked) ≡ Some f → IsName name.now }
    ensures seen { option_map (λ f. function_seen f.now) result
        ≡ function_in name.now (forms_of contract.now.checked) }
    ensures goes { IfSome result
        (λ f. goes_by contract.now.checked.version f.now.body ≡ true) }
{
    match Name::make(name) {
        Some(name) => contract.function(&name),
        None => None,
    }
}

/// The place of the first argument that isn't of its parameter's type.
fn misfit(params: &[(Name, SizedTy)], args: &[Val]) -> Option<usize>
    requires { length args.now ≡ length params.now }
    ensures first { result ≡ first_misfit 0 params.now args.now }
    ensures within { IfSome result (λ index. index < length args.now) }
{
    for index in 0..args.len() {
        if !inhabits(&args[index], &params[index].1) {
            return Some(index);
        }
    }
    None
}

/// Why a function can't be called from outside with these arguments.
pub(crate) fn refusal_of(function: &Function, args: &[Val]) -> Option<EntryRefusal>
    requires { length function.now.params.items < 2 ^ 32 }
    ensures refused { IfSome result
        (λ refusal. (costs : Costs) (node : NodeSeen) (common : Common) (contract : Principal) →
        if_open costs node common contract (function_seen function.now) args.now function.now.access
        ≡ Some (refused node refusal)) }
    ensures called { IfNone result (MayBeCalled (function_seen function.now) args.now) }
{
    if let Access::Private = function.access {
        return Some(EntryRefusal::NotPublic);
    }
    if args.len() != function.params.len() {
        return Some(EntryRefusal::ArgumentCount);
    }
    match misfit(&function.params, args) {
        Some(index) => Some(EntryRefusal::Argument {
            index: index as u32,
        }),
        None => None,
    }
}
