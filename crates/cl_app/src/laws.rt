//! The laws of scripts. Each function here is a law, and does nothing.
ghost use Rattle.cl_app.specs.Top.{AllIsPart, EachHasScript, OneInputs, OneScript, OneScriptOfInputs, RunInTurn, RunTells, TellsPart, WritesPart};

/// A command has one script by what is held, and the same inputs; and inputs have one script
/// however they were read.
pub fn scripts_are_one()
    ensures command { OneScript }
    ensures read { OneInputs }
    ensures inputs { OneScriptOfInputs }
{
    cl_text::one_outcome();
    cl_file::files_have_one_reading();
    cl_tx::steps_have_one_result();
    cl_rules::texts_have_one_answer();
    cl_rules::texts_have_one_order();
    cl_entries::a_file_has_one_script();
    cl_traces::a_file_has_one_trace_script();
    cl_audit_reply::a_file_has_one_audit_reply();
    cl_root::states_have_one_root();
    cl_root::rows_have_keys_of_their_own();
}

/// What was written of a script that was done up to some point is a first part of its bytes, and
/// what was told is a first part of its events; all of it is up to its last point. The events of
/// the script of `run` are those that its file commits, and nothing is written of an entry before
/// its events are told.
pub fn scripts_are_done_in_order()
    ensures writes { WritesPart }
    ensures tells { TellsPart }
    ensures all { AllIsPart }
    ensures commits { RunTells }
    ensures turn { RunInTurn }
{
    cl_entries::a_file_has_one_script();
}

/// Each command has a script by what is held, whatever its words and files say. By
/// [`scripts_are_one`] it has one alone.
pub fn each_command_has_a_script()
    ensures { EachHasScript }
{
    cl_text::each_text_has_an_outcome();
    cl_results::texts_have_values();
    cl_file::files_have_one_reading();
    cl_results::files_have_parts();
    cl_answers::each_source_has_an_answer();
    cl_results::each_file_has_results();
    cl_entries::runs_are_sound();
    cl_traces::each_file_has_a_trace_script();
    cl_audit_reply::each_file_has_an_audit_reply();
    cl_node_sound::nodes_stay_sound();
    cl_results::each_state_has_a_text();
}
