//! The laws of the scripts of transaction files. Each function here is a law, and does nothing.
ghost use Rattle.cl_entries.specs.Entries.{LastEnds, FirstAreDone, OneRunScript, RunCommits, RunWrites, RunsAreSound};

/// A transaction file has one script under a table of costs. The steps that are done are its first
/// ones, and all of them where none is left; its events are those that the file commits, and its
/// bytes the report of its entries.
pub fn a_file_has_one_script()
    ensures one { OneRunScript }
    ensures first { FirstAreDone }
    ensures last { LastEnds }
    ensures commits { RunCommits }
    ensures writes { RunWrites }
{
    runs_are_sound();
    cl_tx::steps_have_one_result();
    cl_lines::a_state_has_one_text();
}

/// Of a file no entry is charged above the bound that was printed last for its function, nor
/// stopped by a limit that is no less; and what it gives is of the type that was printed last.
pub fn runs_are_sound()
    ensures { RunsAreSound }
{
    cl_node_sound::costs_stay_within_bounds();
    cl_node_sound::bounds_suffice_as_limits();
    cl_node_sound::answers_have_their_types();
}
