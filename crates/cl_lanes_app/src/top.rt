//! The top call.
ghost use Rattle.std.specs.Prelude.{◌≡◌, ◌≢◌, ◌⊎◌, None, Some, IfErr, IfOk, OnOk, option_map};
ghost use Rattle.cl_ports.specs.Growth.{Rose, Grows, GrowsPart};
ghost use Rattle.cl_words.specs.Words.{names_of, texts};
ghost use Rattle.cl_entries.specs.Scripts.{CountsWrite, number_of};
ghost use Rattle.cl_replies.specs.Inputs.{bad_file_reply, inputs_seen};
ghost use Rattle.cl_app.specs.Reading.{AsksPart};
ghost use Rattle.cl_app.specs.Top.{CountsReads, CountsWrites, IsOwnStatus};
ghost use Rattle.cl_lanes_app.specs.Reports.{IsLanesReply, usage_reply};
ghost use Rattle.cl_lanes_app.specs.Replying.{CanHave, WritesAll, WritesSome};
ghost use Rattle.cl_lanes_app.specs.Top.{WritesPart, WritesReply};
ghost use Rattle.cl_lanes_app.specs.Words.{AllowsLanes, IsLanes, request_of, request_seen, run_of};

use crate::report::lanes_reply;
use crate::words::{Request, request_of, run_of};
use cl_app::read_inputs;
use cl_entries::{Reply, Status, Stop, bytes_reply, end_number};
use cl_ports::{Files, Sink};
use cl_replies::{FileFault, Inputs, bad_file_reply};
use cl_types::NoMemory;
use std::alloc::Global;

/// The reply to words that are not LANES SEED COSTS TXFILE.
fn usage_reply(alloc: Global) -> Result<Reply, NoMemory>
    ensures { IfOk result (λ reply. reply ≡ usage_reply) }
{
    let text = Vec::from_slice(alloc, b"usage: clarity_lanes LANES SEED COSTS TXFILE\n")?;
    Ok(bytes_reply(text, Status::Usage))
}

fn reply_to_bad_file(alloc: Global, name: &str, fault: &FileFault) -> Result<Reply, NoMemory>
    ensures { IfOk result (λ reply. reply ≡ bad_file_reply name.now fault.now) }
{
    Ok(bad_file_reply(alloc, name, fault)?)
}

/// The reply to a request with these inputs.
fn reply_to_request(
    alloc: Global,
    request: &Request<'_>,
    inputs: Inputs<'_>,
) -> Result<Reply, NoMemory>
    requires lanes { IsLanes request.now.lanes }
    requires inputs { CanHave (Some (request_seen request.now)) (inputs_seen inputs) }
    ensures { IfOk result
        (IsLanesReply (Some (request_seen request.now)) (inputs_seen inputs.entry)) }
{
    match inputs {
        Inputs::BadFile { name, fault } => reply_to_bad_file(alloc, name, &fault),
        Inputs::Run { costs, file, .. } => lanes_reply(alloc, request, &costs, &file),
        _ => unreachable!(),
    }
}

/// The reply to a request, or to other words, with these inputs.
fn reply_to(
    alloc: Global,
    request: &Option<Request<'_>>,
    inputs: Inputs<'_>,
) -> Result<Reply, NoMemory>
    requires lanes { AllowsLanes request.now }
    requires inputs { CanHave (option_map request_seen request.now) (inputs_seen inputs) }
    ensures { IfOk result
        (IsLanesReply (option_map request_seen request.now) (inputs_seen inputs.entry)) }
{
    match request {
        Some(request) => reply_to_request(alloc, request, inputs),
        None => usage_reply(alloc),
    }
}

/// Writes a reply.
fn write<K: Sink>(reply: &Reply, out: &mut K) -> Result<(), Stop>
    ensures whole { OnOk result (Grows (K.written out.old) (K.written out.new) reply.now.text) }
    ensures part { GrowsPart (K.written out.old) (K.written out.new) reply.now.text }
    ensures faults { CountsWrite (K.faults out.old) (K.faults out.new) result }
{
    out.write(reply.text.as_slice())?;
    Ok(())
}

/// Answers a request, or other words, with these inputs.
fn answer<K: Sink>(
    alloc: Global,
    request: &Option<Request<'_>>,
    inputs: Inputs<'_>,
    out: &mut K,
) -> Result<Status, Stop>
    requires lanes { AllowsLanes request.now }
    requires inputs { CanHave (option_map request_seen request.now) (inputs_seen inputs) }
    ensures done { IfOk result (λ status. WritesAll (option_map request_seen request.now)
        (inputs_seen inputs.entry) (K.written out.old) (K.written out.new) status) }
    ensures part { IfErr result (λ _. WritesSome (option_map request_seen request.now)
        (inputs_seen inputs.entry) (K.written out.old) (K.written out.new)) }
    ensures faults { CountsWrite (K.faults out.old) (K.faults out.new) result }
{
    let reply = reply_to(alloc, request, inputs)?;
    write(&reply, out)?;
    Ok(reply.status)
}

/// Does what the words ask for.
fn act<F: Files, K: Sink>(
    alloc: Global,
    words: &[String],
    files: &mut F,
    out: &mut K,
) -> Result<Status, Stop>
    ensures reads { CountsReads (F.faults files.old) (F.faults files.new) result }
    ensures writes { CountsWrites (K.faults out.old) (K.faults out.new) result }
    ensures request { IfErr result
        (λ stop. stop ≡ Stop.ReadFailed → run_of (request_of (texts words.now)) ≢ None) }
    ensures unwritten { IfErr result
        (λ stop. stop ≡ Stop.ReadFailed → K.written out.new ≡ K.written out.old) }
    ensures done { IfOk result (λ status. WritesReply (request_of (texts words.now))
        (F.held files.old) (K.written out.old) (K.written out.new) (number_of status)) }
    ensures part { WritesPart (request_of (texts words.now)) (F.held files.old)
        (K.written out.old) (K.written out.new) }
    ensures asked { AsksPart (run_of (request_of (texts words.now))) (F.held files.old)
        (F.asked files.old) (F.asked files.new) }
    ensures names { GrowsPart (F.asked files.old) (F.asked files.new)
        (names_of (run_of (request_of (texts words.now)))) }
{
    let request = request_of(words);
    match read_inputs(alloc, &run_of(&request), files) {
        Ok(inputs) => answer(alloc, &request, inputs, out),
        Err(stop) => Err(stop),
    }
}

/// Runs a transaction file in lanes, and gives the status. The words after the program's name are
/// LANES, a number from 1 to 16, SEED, a `u64`, both in decimal digits alone, leading zeros allowed;
/// a cost file and a transaction file. The calls of the file are tried ahead of their turn, by moves
/// that are drawn by SEED, and committed in the order of the file. What is written to `out` is the
/// report of `run` for the two files, whatever LANES and SEED are, and behind it the line
/// `lanes redone N skipped N`: how often a trial was thrown away, and how often a move did nothing.
///
/// | Status | Comes |
/// |---|---|
/// | 0 | the file was run |
/// | 2 | the words are not of this shape |
/// | 3 | a read failed; nothing is written |
/// | 4 | a write failed; a first part of the answer is written |
/// | 5 | a file is too long, no cost file or no transaction file |
/// | 9 | memory ran out |
pub fn clarity_lanes<F: Files, K: Sink>(
    alloc: Global,
    words: &[String],
    files: &mut F,
    out: &mut K,
) -> u8
    // What a status says.
    ensures usage { result ≡ 2 → request_of (texts words.now) ≡ None }
    ensures no_usage { request_of (texts words.now) ≡ None →
        (result ≡ 2) ⊎ (result ≡ 4) ⊎ (result ≡ 9) }
    ensures read { result ≡ 3 → Rose (F.faults files.old) (F.faults files.new) }
    ensures write { result ≡ 4 → Rose (K.faults out.old) (K.faults out.new) }
    ensures own_status { result ≢ 3 → result ≢ 4 → result ≢ 9 →
        IsOwnStatus (run_of (request_of (texts words.now))) result }

    // The line that other words get.
    ensures usage_line { result ≡ 2 →
        Grows (K.written out.old) (K.written out.new) usage_reply.text }

    // After a failed read nothing is written.
    ensures unwritten { result ≡ 3 → K.written out.new ≡ K.written out.old }
    ensures unread { F.faults files.new ≢ F.faults files.old →
        (K.written out.new ≡ K.written out.old) × ((result ≡ 3) ⊎ (result ≡ 9)) }

    // After a failed write the status says so.
    ensures cut { K.faults out.new ≢ K.faults out.old → (result ≡ 4) ⊎ (result ≡ 9) }

    // Each other status is that of the reply, all of which was written; 9 is want of memory.
    ensures done { result ≢ 3 → result ≢ 4 → result ≢ 9 →
        WritesReply (request_of (texts words.now)) (F.held files.old) (K.written out.old)
        (K.written out.new) result }

    // Whatever the status, nothing was written, or a first part of the reply.
    ensures part { WritesPart (request_of (texts words.now)) (F.held files.old)
        (K.written out.old) (K.written out.new) }

    // Both files are asked for in the order of the words, each once and none else, and none behind
    // the first that is bad.
    ensures names { GrowsPart (F.asked files.old) (F.asked files.new)
        (names_of (run_of (request_of (texts words.now)))) }
    ensures asked { AsksPart (run_of (request_of (texts words.now))) (F.held files.old)
        (F.asked files.old) (F.asked files.new) }
{
    end_number(act(alloc, words, files, out))
}
