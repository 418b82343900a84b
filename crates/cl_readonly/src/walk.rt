//! Whether a call in an expression writes.
ghost use Rattle.std.specs.Prelude.{◌≡◌, List, map, false};
ghost use Rattle.std.specs.List.{list_any};
ghost use Rattle.cl_forms.specs.Names.{is_one_of};
ghost use Rattle.cl_forms.specs.Writes.{has_write};
ghost use Rattle.cl_rules.specs.Acceptance.{calls_public};
ghost use Rattle.cl_rules.specs.Context.{Context, Known, Names};
ghost use Rattle.cl_rules.specs.Shapes.{Plan};
ghost use Rattle.cl_rules.specs.Verdicts.{Found};
ghost use Rattle.cl_code.specs.Typed.{expression_of, typeds};
ghost use Rattle.cl_contracts.specs.Standing.{StandAll, Stands};
ghost use Rattle.cl_contracts.specs.Standings.{Knows};
ghost use Rattle.cl_readonly.specs.Naming.{AllNameUnknown, NamesUnknown};
ghost use Rattle.cl_readonly.specs.Writing.{AreFunctions};

use crate::nodes::node_writes;
use cl_c32::Principal;
use cl_code::Code;
use cl_contracts::Deployed;
use cl_keyed::HashKey;
use cl_types::Name;
use indexmap::IndexSet;

/// Whether a call in an expression writes, where these functions do. Where none does, the expression
/// names what it calls.
#[cycle(writing)]
pub(crate) fn tree_writes(
    deployed: &Deployed,
    own: &Principal,
    writing: &IndexSet<Name, HashKey>,
    code: &Code,
) -> bool
    ensures { (known : List Known) (G : Context) (B : Names) (f : Found) →
        Knows deployed.now known → AreFunctions G writing.now.keys → Stands G B code.now f →
        (result ≡ has_write (is_one_of writing.now.keys) (calls_public known own.now)
        (expression_of code.now)) × (result ≡ false → NamesUnknown G (expression_of code.now)) }
{
    if node_writes(deployed, own, writing, &code.op) {
        return true;
    }
    any_writes(deployed, own, writing, &code.parts)
}

/// Whether a call in one of these parts does.
#[cycle(writing)]
fn any_writes(
    deployed: &Deployed,
    own: &Principal,
    writing: &IndexSet<Name, HashKey>,
    parts: &[Code],
) -> bool
    ensures { (known : List Known) (G : Context) (p : Plan) (fs : List Found) →
        Knows deployed.now known → AreFunctions G writing.now.keys →
        StandAll G p (typeds parts.now) fs →
        (result ≡ list_any (has_write (is_one_of writing.now.keys) (calls_public known own.now))
        (map expression_of parts.now)) × (result ≡ false → AllNameUnknown G parts.now) }
{
    for part in parts {
        if tree_writes(deployed, own, writing, part) {
            return true;
        }
    }
    false
}
