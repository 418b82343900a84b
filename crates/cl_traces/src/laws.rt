//! The laws of the scripts of `trace`. Each function here is a law, and does nothing.
ghost use Rattle.cl_traces.specs.Traces.{EachHasTraceScript, FirstTracesAreDone, LastTraceEnds, OneTraceScript};

/// A transaction file has one script of `trace` under a table of costs. The steps that are done are
/// its first ones, and all of them where none is left.
pub fn a_file_has_one_trace_script()
    ensures one { OneTraceScript }
    ensures first { FirstTracesAreDone }
    ensures last { LastTraceEnds }
{
    cl_tx::steps_have_one_result();
    cl_rules::texts_have_one_order();
}

/// Each file whose parts are within the limits has one.
pub fn each_file_has_a_trace_script()
    ensures { EachHasTraceScript }
{
    cl_results::each_file_has_results();
}
