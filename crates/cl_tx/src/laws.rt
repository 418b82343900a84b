//! The laws of steps. Each function here is a law, and does nothing.
ghost use Rattle.cl_tx.specs.Laws.{OneStep, OneRun, OneCommit, FailedChangeNothing, FirstIsNode, NodesStay, RunsEndInNodes, ToldIsAccepted, AcceptedIsTold, CallTellsNone, BlockTellsNone, HeightIsLast, OthersReboundNone, SameReboundsNone, OtherRebounds};

/// An entry makes one thing of a node: one node after it, with one result. So a file has one list
/// of results, and commits one list of events.
pub fn steps_have_one_result()
    ensures step { OneStep }
    ensures run { OneRun }
    ensures events { OneCommit }
{
    cl_rules::texts_have_one_answer();
    cl_rules::texts_have_one_order();
}

/// A public function's err, an abort and a refusal leave the node as it was, and hand out no event.
pub fn failed_entries_change_nothing()
    ensures { FailedChangeNothing }
{}

/// The contracts of a node were accepted, each under some table, and deployed one after another,
/// each with a principal of its own; evaluations and callers see the same ones; and the state is at
/// rest.
pub fn nodes_stay_nodes()
    ensures first { FirstIsNode }
    ensures step { NodesStay }
    ensures run { RunsEndInNodes }
{}

/// A result has bounds exactly where the source of a new contract is accepted.
pub fn bounds_are_told_where_accepted()
    ensures told { ToldIsAccepted }
    ensures accepted { AcceptedIsTold }
    ensures call { CallTellsNone }
    ensures block { BlockTellsNone }
{
    cl_rules::texts_have_one_answer();
}

/// After the entries of a file the node stands at the height of the file's last block, and at 0
/// where it has none.
pub fn heights_are_those_of_the_file()
    ensures { HeightIsLast }
{}

/// The result of a block at which the number of the epoch changes has the bounds of all deployed
/// functions under the new table. Where the number is the same so is the table, and no other result
/// has such bounds.
pub fn rebounds_are_told_where_epochs_change()
    ensures others { OthersReboundNone }
    ensures same { SameReboundsNone }
    ensures changed { OtherRebounds }
{
    cl_costs::one_table_an_epoch();
}
