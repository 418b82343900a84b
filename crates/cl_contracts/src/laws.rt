//! What callers know of deployed contracts, and names that stand once. Each function here is a law, and does nothing.
ghost use Rattle.std.specs.Prelude.{◌≡◌, List, ℕ, not};
ghost use Rattle.cl_code.specs.Nodes.{are_once};
ghost use Rattle.cl_rules.specs.DataShapes.{stands_twice};
ghost use Rattle.cl_contracts.specs.Known.{KnownAsDeployed, DefinedAsKept, ConstantsAsKept};
ghost use Rattle.cl_contracts.specs.Standings.{StandingIsTyped};

/// What stands for forms is typed; and callers know a contract at a principal just where one is deployed, with the same
/// functions and the same length of its text. What stands for a contract defines its functions, and its constants with their types.
pub fn what_callers_know()
    ensures typed { StandingIsTyped }
    ensures known { KnownAsDeployed }
    ensures defined { DefinedAsKept }
    ensures constants { ConstantsAsKept }
{}

/// The keys of a tuple that break no rule are those of a node.
pub fn keys_stand_once()
    ensures { (keys : List (List ℕ)) → are_once keys ≡ not (stands_twice keys) }
{}
