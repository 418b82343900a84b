//! Calls and deployments of accepted contracts are sound. Each function here is a law, and does nothing.
#![tactic(auto)]

ghost use Rattle.cl_contract_sound.specs.Deployments.{DeploymentsAreSound, TextsAreSound, GenesisIsNode, LimitsLeaveDeployments, BoundsSufficeForDeployments, DeploymentsSpendWithin};
ghost use Rattle.cl_contract_sound.specs.Laws.{FunctionsAreSound, FunctionsAreSigned, FunctionsAreNamed, ExpressionsAreSound, LimitsLeaveSound, BoundsSuffice, CallsSpendWithin};

/// A function of a deployed contract, called with values of its parameters' types in a state that is kept, gives a value of
/// its return type or aborts: it is never wrong, throws nothing, and a depth of 256 is enough. The state after it is kept, and
/// under each table of costs its charges sum up to at most its bound, also where it aborts.
/// A public function's value is a response. These are all the functions that evaluations find.
pub fn functions_are_sound()
    ensures sound { FunctionsAreSound }
    ensures signed { FunctionsAreSigned }
{}

/// A function that evaluations find in a deployed contract is called by a name, and has fewer than 2^32 parameters.
pub fn functions_are_named()
    ensures { FunctionsAreNamed }
{}

/// An expression that is typed in a context of a deployed contract gives a value of its type, throws one of its thrown type,
/// or aborts, at each depth that is no less than its height; the state after it is kept, and it costs at most its bound.
pub fn expressions_are_sound()
    ensures { ExpressionsAreSound }
{}

/// The deployment of a contract whose forms are typed in their order, after deployed contracts and in a state that is kept,
/// gives the contract with constants of their types, throws a value at the top, or aborts. The state after it is kept with
/// the contract, and its charges sum up to at most the deployment's bound, also where it aborts. So it is with each accepted
/// text at a node: where it gives a contract, there is a node again, as there is before all deployments.
pub fn deployments_are_sound()
    ensures sound { DeploymentsAreSound }
    ensures texts { TextsAreSound }
    ensures first { GenesisIsNode }
{}

/// A limit leaves of a sound call neither what is wrong nor what is thrown, and of a sound deployment nothing that is wrong; and
/// a limit that is no less than the bound and what was spent before cuts nothing off.
pub fn limits_leave_sound_answers()
    ensures sound { LimitsLeaveSound }
    ensures enough { BoundsSuffice }
    ensures deployments { LimitsLeaveDeployments }
    ensures enough_for_deployments { BoundsSufficeForDeployments }
{}

/// Whatever the limit, what a sound call or deployment has spent in the end is at most its bound and what was spent before.
pub fn charges_stay_within_bounds()
    ensures calls { CallsSpendWithin }
    ensures deployments { DeploymentsSpendWithin }
{}
