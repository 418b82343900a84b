//! Each entry has a result, each file has results, and the state after them has a text and a
//! root. Each function here is a law, and does nothing.
#![tactic(auto)]

ghost use Rattle.cl_results.specs.Laws.{EachCommits, EachHasRoot, EachHasText, EachLineHasRow, EachRuns, EachSteps, FilesHaveParts, TextsHaveValues};

/// At a sound node each entry has a result: a call, whatever is called; a deployment, also of a
/// source that breaks a rule; and a block.
pub fn each_entry_has_a_result()
    ensures { EachSteps }
{
    cl_answers::each_source_has_an_answer();
    cl_node_sound::entries_come_to_something();
}

/// The entries of each file have results, one after another from the node with the file's holders
/// on, and commit events. By [`cl_tx::steps_have_one_result`] these are one list of results and one
/// list of events.
pub fn each_file_has_results()
    ensures results { EachRuns }
    ensures events { EachCommits }
{
    each_entry_has_a_result();
    cl_node_sound::nodes_stay_sound();
}

/// The value that a text spells is within the limits.
pub fn texts_have_values()
    ensures { TextsHaveValues }
{
    cl_sexpr::literals_are_within_limits();
}

/// What the bytes of a transaction file read as has parts within the limits: its holders, senders
/// and contracts are principals, its arguments values, and its heights have 64 bits.
pub fn files_have_parts()
    ensures { FilesHaveParts }
{
    texts_have_values();
    cl_text::one_outcome();
    cl_text::each_text_has_an_outcome();
}

/// The state of a sound node, as the one after the entries of a file is, has a text and a root, and
/// each line of the text a row with the least key bytes and a path to the root.
pub fn each_state_has_a_text()
    ensures text { EachHasText }
    ensures root { EachHasRoot }
    ensures rows { EachLineHasRow }
{
    cl_values::one_spelling();
    cl_root::rows_have_keys_of_their_own();
}
