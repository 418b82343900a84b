//! The laws of replies. Each function here is a law, and does nothing.
ghost use Rattle.cl_lanes_app.specs.Left.{LeftEntriesKeepNumbers};
ghost use Rattle.cl_lanes_app.specs.Top.{LanesReportAsRun, OneReply};

/// The words of `clarity_lanes` have one reply by what is held: what `run` writes for the same
/// files, and behind it the line of the two numbers after the drawn moves. The moves that do the
/// entries which are left change neither.
pub fn lanes_report_as_run()
    ensures one { OneReply }
    ensures report { LanesReportAsRun }
    ensures left { LeftEntriesKeepNumbers }
{
    cl_app::scripts_are_one();
    cl_entries::a_file_has_one_script();
    cl_tx::steps_have_one_result();
    cl_lanes::lanes_run_the_entries();
    cl_lanes::entries_are_done_in_turn();
}
