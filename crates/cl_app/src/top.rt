//! The top call.
ghost use Rattle.std.specs.Prelude.{◌≡◌, ◌≢◌, ◌⊎◌, None, IfErr, IfOk, option_map};
ghost use Rattle.cl_ports.specs.Growth.{Rose, Grows, GrowsPart};
ghost use Rattle.cl_words.specs.Seen.{command_seen};
ghost use Rattle.cl_words.specs.Words.{IsOfTable, names_of, taken, texts};
ghost use Rattle.cl_entries.specs.Scripts.{number_of};
ghost use Rattle.cl_replies.specs.Reports.{usage_reply};
ghost use Rattle.cl_app.specs.Reading.{AsksPart};
ghost use Rattle.cl_app.specs.Top.{CountsReads, CountsWrites, DoesCommand, DoesFirst, IsOwnStatus};

use crate::inputs::read_inputs;
use crate::laws::scripts_are_one;
use crate::steps::do_inputs;
use cl_entries::{Status, Stop, end_number};
use cl_listeners::{Listener, Listeners, events_told_in_turn};
use cl_ports::{Files, Sink};
use cl_types::NoMemory;
use cl_words::{Command, command_on, read};
use std::alloc::Global;

/// Reads the inputs of a command, and does their steps.
fn do_command<F: Files, K: Sink, L: Listener>(
    alloc: Global,
    command: &Option<Command<'_>>,
    files: &mut F,
    out: &mut K,
    listeners: &mut Listeners<L>,
) -> Result<Status, Stop>
    requires { IsOfTable (option_map command_seen command.now) }
    ensures reads { CountsReads (F.faults files.old) (F.faults files.new) result }
    ensures writes { CountsWrites (K.faults out.old) (K.faults out.new) result }
    ensures command { IfErr result
        (λ stop. stop ≡ Stop.ReadFailed → option_map command_seen command.now ≢ None) }
    ensures unwritten { IfErr result
        (λ stop. stop ≡ Stop.ReadFailed → K.written out.new ≡ K.written out.old) }
    ensures done { IfOk result (λ status. DoesCommand (option_map command_seen command.now)
        (F.held files.old) (K.written out.old) (K.written out.new) listeners.old listeners.new
        (number_of status)) }
    ensures part { DoesFirst (option_map command_seen command.now) (F.held files.old)
        (K.written out.old) (K.written out.new) listeners.old listeners.new }
    ensures asked { AsksPart (option_map command_seen command.now) (F.held files.old)
        (F.asked files.old) (F.asked files.new) }
    ensures names { GrowsPart (F.asked files.old) (F.asked files.new)
        (names_of (option_map command_seen command.now)) }
{
    scripts_are_one();
    events_told_in_turn();
    match read_inputs(alloc, command, files) {
        Ok(inputs) => do_inputs(alloc, inputs, out, listeners),
        Err(stop) => Err(stop),
    }
}

/// Does what the words ask for.
fn act<F: Files, K: Sink, L: Listener>(
    alloc: Global,
    words: &[String],
    files: &mut F,
    out: &mut K,
    listeners: &mut Listeners<L>,
) -> Result<Status, Stop>
    ensures reads { CountsReads (F.faults files.old) (F.faults files.new) result }
    ensures writes { CountsWrites (K.faults out.old) (K.faults out.new) result }
    ensures command { IfErr result
        (λ stop. stop ≡ Stop.ReadFailed → taken (texts words.now) ≢ None) }
    ensures unwritten { IfErr result
        (λ stop. stop ≡ Stop.ReadFailed → K.written out.new ≡ K.written out.old) }
    ensures done { IfOk result (λ status. DoesCommand (taken (texts words.now)) (F.held files.old)
        (K.written out.old) (K.written out.new) listeners.old listeners.new (number_of status)) }
    ensures part { DoesFirst (taken (texts words.now)) (F.held files.old) (K.written out.old)
        (K.written out.new) listeners.old listeners.new }
    ensures asked { AsksPart (taken (texts words.now)) (F.held files.old) (F.asked files.old)
        (F.asked files.new) }
    ensures names { GrowsPart (F.asked files.old) (F.asked files.new)
        (names_of (taken (texts words.now))) }
{
    events_told_in_turn();
    match read(alloc, words) {
        Ok(line) => do_command(alloc, &command_on(&line), files, out, listeners),
        Err(NoMemory) => Err(Stop::NoMemory),
    }
}

/// Does what the words after the program's name ask for, writes the answer to `out` and gives the
/// status. A command has a script for its inputs, the files that its words name: steps, in each of
/// which events are told to the listeners and then bytes are written to `out`. `run` has a step for
/// each entry, and tells the events of those that are committed; the other commands tell nobody,
/// and write in one step.
///
/// | Status | Comes |
/// |---|---|
/// | 0 | the command was done |
/// | 2 | the words are not of the table |
/// | 3 | a read failed; nothing is written |
/// | 4 | a write failed; a first part of the answer is written |
/// | 5 | a file that the words name is too long, no cost, transaction or trace file |
/// | 6 | a contract of `check` is refused, the deployment of `call`, or `audit` or `verify` says no |
/// | 7 | its deployment aborts, or its call is an err, aborted or refused |
/// | 8 | a word is no value or isn't in hexadecimal digits, or `prove` finds no row |
/// | 9 | memory ran out |
///
/// What follows of the clauses `done` and `part` stands at [`crate::scripts_are_done_in_order`] and
/// [`crate::scripts_are_one`].
pub fn clarity<F: Files, K: Sink, L: Listener>(
    alloc: Global,
    words: &[String],
    files: &mut F,
    out: &mut K,
    listeners: &mut Listeners<L>,
) -> u8
    // What a status says, whatever is told.
    ensures usage { result ≡ 2 → taken (texts words.now) ≡ None }
    ensures no_usage { taken (texts words.now) ≡ None → (result ≡ 2) ⊎ (result ≡ 4) ⊎ (result ≡ 9) }
    ensures read { result ≡ 3 → Rose (F.faults files.old) (F.faults files.new) }
    ensures write { result ≡ 4 → Rose (K.faults out.old) (K.faults out.new) }
    ensures own_status { result ≢ 3 → result ≢ 4 → result ≢ 9 →
        IsOwnStatus (taken (texts words.now)) result }

    // The line that words get that are not of the table.
    ensures usage_line { result ≡ 2 →
        Grows (K.written out.old) (K.written out.new) usage_reply.text }

    // After a failed read nothing is written.
    ensures unwritten { result ≡ 3 → K.written out.new ≡ K.written out.old }
    ensures unread { F.faults files.new ≢ F.faults files.old →
        (K.written out.new ≡ K.written out.old) × ((result ≡ 3) ⊎ (result ≡ 9)) }

    // After a failed write the status says so.
    ensures cut { K.faults out.new ≢ K.faults out.old → (result ≡ 4) ⊎ (result ≡ 9) }

    // Each other status is that of the command's script, all of which was done; 9 is want of memory.
    ensures done { result ≢ 3 → result ≢ 4 → result ≢ 9 →
        DoesCommand (taken (texts words.now)) (F.held files.old) (K.written out.old)
        (K.written out.new) listeners.old listeners.new result }

    // Whatever the status, so many first steps were done whole, and of the next one nothing, or
    // its events were told and a first part of its bytes was written.
    ensures part { DoesFirst (taken (texts words.now)) (F.held files.old) (K.written out.old)
        (K.written out.new) listeners.old listeners.new }

    // The files are asked for in the order of the words, each once and none else, and none behind
    // the first that is bad.
    ensures names { GrowsPart (F.asked files.old) (F.asked files.new)
        (names_of (taken (texts words.now))) }
    ensures asked { AsksPart (taken (texts words.now)) (F.held files.old) (F.asked files.old)
        (F.asked files.new) }
{
    end_number(act(alloc, words, files, out, listeners))
}
