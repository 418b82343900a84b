//! Calls at nodes, side by side. Each function here is a law, and does nothing.
#![tactic(auto)]

ghost use Rattle.cl_touch_sound.specs.Laws.{NodesStepAlike, CallsChangeNodes, GraftsAreSteps, OthersStay, TrialsMayBeCommitted};

/// Two nodes with equal contracts and height whose states agree at the spots that a call touches
/// have equal results of it (outcome, cost and events), under any schedule of costs, limit and
/// post-conditions. Afterwards they agree there too, and each was changed at the spots that the
/// call writes alone.
pub fn nodes_step_alike()
    ensures alike { NodesStepAlike }
    ensures change { CallsChangeNodes }
{}

/// A call was tried at an earlier node. If calls alone were committed since then, and none of them
/// wrote a spot that it touches, the trial may be grafted: the present node with the trial's state
/// at the written spots, and the trial's result, are what the call makes of the present node.
pub fn grafts_are_steps()
    ensures grafts { GraftsAreSteps }
    ensures others { OthersStay }
    ensures commits { TrialsMayBeCommitted }
{}
