//! Nodes stay sound. Each function here is a law, and does nothing.
#![tactic(auto)]

ghost use Rattle.cl_node_sound.specs.Laws.{FirstIsSound, SoundStay, RunsEndSound, CallsStayWithin, DeploymentsStayWithin, RunsStayWithin, RunsTellBounds, CallsAreNotStopped, DeploymentsAreNotStopped, RunsAreNotStopped, CallsStep, DeploymentsStep, CallsAreTyped, RunsAreTyped, DeployedHaveConstants, NewHaveNoTokens};

/// Before all entries a node is sound: each of its contracts stands for one text, which was accepted
/// under some table of costs, its state is kept, and nothing was told or moved. It stays so from
/// entry to entry, under each schedule of costs, whatever limits and conditions the entries have.
pub fn nodes_stay_sound()
    ensures first { FirstIsSound }
    ensures stay { SoundStay }
    ensures run { RunsEndSound }
{}

/// At a sound node a call, aborted or not, is charged at most the bound of its function under the
/// table of the node's height, and a deployment at most its own, in each of the five dimensions. So
/// each call of a file is charged at most the bound that was printed last for its function, behind
/// the deployment of its contract or behind a block; and the line that was printed last has the
/// function's bound and type.
pub fn costs_stay_within_bounds()
    ensures calls { CallsStayWithin }
    ensures deployments { DeploymentsStayWithin }
    ensures run { RunsStayWithin }
    ensures told { RunsTellBounds }
{}

/// At a sound node an entry whose limit in each of the five dimensions is no less than its bound
/// never ends in A8. So it is with each call of a file whose limit is no less than the bound that
/// was printed last for its function.
pub fn bounds_suffice_as_limits()
    ensures calls { CallsAreNotStopped }
    ensures deployments { DeploymentsAreNotStopped }
    ensures run { RunsAreNotStopped }
{}

/// Each call, and each deployment of an accepted source, comes to something at a sound node: no
/// evaluation is wrong, and none needs more depth than there is.
pub fn entries_come_to_something()
    ensures calls { CallsStep }
    ensures deployments { DeploymentsStep }
{}

/// The value that a call gives at a sound node is of the type that its function returns, an ok and
/// an err as responses. So each call of a file gives a value of the type that was printed last for
/// its function, and its wire form is no longer than that type allows.
pub fn answers_have_their_types()
    ensures calls { CallsAreTyped }
    ensures run { RunsAreTyped }
{}

/// Each value that the deployment of an accepted source gives at a sound node is of the type of the
/// constant of its name.
pub fn constants_have_their_types()
    ensures { DeployedHaveConstants }
{}

/// At a sound node there is no token of a principal without a contract.
pub fn new_contracts_have_no_tokens()
    ensures { NewHaveNoTokens }
{}
