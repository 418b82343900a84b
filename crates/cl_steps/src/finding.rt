//! What the contract of a frame defines, and other contracts.
ghost use Rattle.std.specs.Prelude.{◌≡◌, List, ℕ, true, option_map, IfSome};
ghost use Rattle.cl_values.specs.Tree.{Tree};
ghost use Rattle.cl_code.specs.Typed.{goes_by};
ghost use Rattle.cl_contracts.specs.Seen.{function_seen};
ghost use Rattle.cl_meaning.specs.Deployed.{function_of, has_map};
ghost use Rattle.cl_meaning.specs.Scope.{home};
ghost use Rattle.cl_frames.specs.Seen.{scope_of, version_of, Fits};

use cl_code::{Definition, Function};
use cl_frames::Context;
use cl_types::Name;

/// The function of a name in the frame's contract.
pub fn own_function<'a>(context: &'a Context, name: &Name) -> Option<&'a Function>
    ensures seen { (bound : List (List ℕ × Tree)) → Fits context.now → option_map (λ f. function_seen f.now) result ≡ function_of name.now (home (scope_of context.now bound)) }
    ensures goes { Fits context.now →
        IfSome result (λ f. goes_by (version_of context.now) f.now.body ≡ true) }
{
    context.home.checked.function(name)
}

/// Whether the frame's contract has a map of a name.
pub(crate) fn own_map(context: &Context, name: &Name) -> bool
    ensures { (bound : List (List ℕ × Tree)) → Fits context.now → result ≡ has_map name.now (home (scope_of context.now bound)) }
{
    match context.home.checked.definition(name) {
        Some(Definition::MapOf(_)) => true,
        _ => false,
    }
}
