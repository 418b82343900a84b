//! The laws of nodes. Each function here is a law, and does nothing.
ghost use Rattle.cl_nodes.specs.Laws.{OneNode, OneTrace};

/// Callers know one thing of the contracts of a node: what the forms of each define, in their order
/// and after the contracts before it.
pub fn nodes_are_known_in_one_way()
    ensures { OneNode }
{
    cl_rules::forms_have_one_answer();
}

/// The step of an entry has one trace.
pub fn entries_have_one_trace()
    ensures { OneTrace }
{
    cl_rules::texts_have_one_order();
}
