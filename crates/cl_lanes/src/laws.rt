//! What lanes commit. Each function here is a law, and does nothing.
ghost use Rattle.cl_lanes.specs.Laws.{BarriersDoneInTurn, CallsDoneInTurn, LanesGiveAPrefix, LanesRunTheEntries, MovesHaveOneResult};

use cl_tx::{nodes_stay_nodes, steps_have_one_result};

/// Whatever the moves are, the results so far are those of the first entries of the file, one after
/// another, and the node is the one after them. A move has one outcome, but for the order in which
/// spots are listed.
pub fn lanes_run_the_entries()
    ensures entries { LanesRunTheEntries }
    ensures prefix { LanesGiveAPrefix }
    ensures once { MovesHaveOneResult }
{
    nodes_stay_nodes();
    steps_have_one_result();
}

/// The next entry is committed where it is tried in a lane and then committed, if it is a call, and
/// else by a barrier: no trial is thrown away, and both moves do something.
pub fn entries_are_done_in_turn()
    ensures calls { CallsDoneInTurn }
    ensures barriers { BarriersDoneInTurn }
{}
