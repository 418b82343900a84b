//! The laws of the reply of `audit`. Each function here is a law, and does nothing.
ghost use Rattle.cl_audit_reply.specs.Laws.{EachHasAuditReply, OneAuditReply};
ghost use Rattle.cl_audit_reply.specs.Own.{OwnIsYes};

/// A file, the claims of its trace file and a report have one reply under a table of costs.
pub fn a_file_has_one_audit_reply()
    ensures { OneAuditReply }
{
    cl_tx::steps_have_one_result();
    cl_nodes::entries_have_one_trace();
}

/// Each file whose parts are within the limits has one.
pub fn each_file_has_an_audit_reply()
    ensures { EachHasAuditReply }
{
    cl_results::each_file_has_results();
}

/// The auditor says yes to the own traces of a file, written line by line, and its own report, where
/// the values of the traces are within the limits.
pub fn own_traces_are_audited_with_yes()
    ensures { OwnIsYes }
{
    cl_values::read_back();
}
