//! Functions that don't write leave the state as it is. Each function here is a law, and does
//! nothing.
#![tactic(auto)]

ghost use Rattle.cl_readonly_sound.specs.Laws.{ContractsStandForTexts, CallsLeaveStates, ReadOnlyDoNotWrite, ReadOnlyLeaveStates, CallsKeepNodes, CallsHandOutPrints, ReadOnlyKeepNodes};

/// Each deployed contract stands for a text that was accepted after those before it, and by these
/// it is told which of its functions write. A call of one that doesn't leaves variables, map
/// entries, tokens, STX and moves as they are, and what it tells is printed: in any frame of its
/// contract, with any values and in any state, also where it aborts. A read-only function doesn't
/// write, since no text with one that does is accepted.
pub fn calls_without_writes_leave_the_state()
    ensures texts { ContractsStandForTexts }
    ensures calls { CallsLeaveStates }
    ensures none_writes { ReadOnlyDoNotWrite }
    ensures read_only { ReadOnlyLeaveStates }
{}

/// At a sound node a call of such a function leaves the node as it was, whatever the call's result
/// is, and the events that are handed out were printed.
pub fn calls_without_writes_keep_the_node()
    ensures calls { CallsKeepNodes }
    ensures events { CallsHandOutPrints }
    ensures read_only { ReadOnlyKeepNodes }
{}
