//! The steps of a command for its inputs, and the loop that does them.
ghost use Rattle.std.specs.Prelude.{◌≡◌, ◌<◌, ◌++◌, ◌∷◌, [], None, Some, ℕ, List, IfOk, IfErr, OnOk};
ghost use Rattle.cl_ports.specs.Growth.{Grows, GrowsPart};
ghost use Rattle.cl_listeners.specs.Hearing.{Told};
ghost use Rattle.cl_entries.specs.declared.status.Step.{Step as AStep};
ghost use Rattle.cl_entries.specs.Scripts.{CountsWrite, DoesPart, Script};
ghost use Rattle.cl_text.specs.Parsed.{outcome_of};
ghost use Rattle.cl_replies.specs.Inputs.{Inputs as InputsSeen, NoCommand, BadFile, BadArgument, RunInputs, TraceInputs, WireInputs, inputs_seen};
ghost use Rattle.cl_replies.specs.Reports.{IsReply, IsScript};
ghost use Rattle.cl_app.specs.Reading.{KeepTable};
ghost use Rattle.cl_app.specs.Top.{DoesInputs, HasReply, IsAt, IsSomewhere, left_of, status_of};

use cl_audit_reply::audit_reply;
use cl_costs::CostTable;
use cl_entries::{EntrySteps, Reply, Status, Step, Stop};
use cl_file::Row;
use cl_listeners::{Listener, Listeners, dispatch};
use cl_ports::Sink;
use cl_replies::{
    FileFault, Inputs, bad_file_reply, call_reply, check_reply, gen_reply, no_value_reply,
    prove_reply, root_reply, usage_reply, value_reply, verify_reply, wire_reply,
};
use cl_text::TextRefusal;
use cl_traces::TraceSteps;
use cl_tx::TxFile;
use cl_types::NoMemory;
use std::alloc::Global;

/// What is left of the script of a command.
#[derive(Drop)]
pub(crate) enum Steps {
    /// At most one step, which tells nothing.
    Whole {
        text: Option<Row<u8>>,
        status: Status,
    },
    /// A step for each entry, and one for the state where it is asked for.
    Entries(EntrySteps),
    /// A step for the trace of each entry.
    Traces(TraceSteps),
}

/// The one step of a reply.
fn whole(reply: Reply) -> Steps
    ensures { (inputs : InputsSeen) → IsReply inputs reply → IsAt inputs [] result }
{
    let Reply { text, status } = reply;
    Steps::Whole {
        text: Some(text),
        status,
    }
}

fn reply_to_no_command(alloc: Global) -> Result<Reply, NoMemory>
    ensures { IfOk result (IsReply NoCommand) }
{
    Ok(usage_reply(alloc)?)
}

fn reply_to_bad_file(alloc: Global, name: &str, fault: &FileFault) -> Result<Reply, NoMemory>
    ensures { IfOk result (IsReply (BadFile name.now fault.now)) }
{
    Ok(bad_file_reply(alloc, name, fault)?)
}

fn reply_to_bad_argument(alloc: Global, refusal: &TextRefusal) -> Result<Reply, NoMemory>
    ensures { IfOk result (IsReply (BadArgument (outcome_of refusal.now))) }
{
    Ok(no_value_reply(alloc, refusal)?)
}

fn reply_to_wire(alloc: Global, word: &str) -> Result<Reply, NoMemory>
    ensures { IfOk result (IsReply (WireInputs word.now)) }
{
    wire_reply(alloc, word.as_bytes())
}

/// The reply to a command with these inputs, which aren't those of `run` or `trace`.
fn reply_to(alloc: Global, inputs: Inputs<'_>) -> Result<Reply, NoMemory>
    requires table { KeepTable (inputs_seen inputs) }
    requires whole { HasReply (inputs_seen inputs) }
    ensures { IfOk result (IsReply (inputs_seen inputs.entry)) }
{
    match inputs {
        Inputs::NoCommand => reply_to_no_command(alloc),
        Inputs::BadFile { name, fault } => reply_to_bad_file(alloc, name, &fault),
        Inputs::BadArgument(refusal) => reply_to_bad_argument(alloc, &refusal),
        Inputs::Call {
            source,
            version,
            function,
            args,
        } => call_reply(alloc, source, version, function, args),
        Inputs::Run { .. } => unreachable!(),
        Inputs::Trace { .. } => unreachable!(),
        Inputs::Check { costs, sources } => check_reply(alloc, &costs, sources.as_slice()),
        Inputs::Value(word) => value_reply(alloc, word.as_bytes()),
        Inputs::Wire(word) => reply_to_wire(alloc, word),
        Inputs::Gen { seed, count } => gen_reply(alloc, seed, count),
        Inputs::Audit {
            costs,
            file,
            traces,
            report,
        } => audit_reply(alloc, &costs, &file, traces.as_slice(), report.as_slice()),
        Inputs::Root { costs, file } => root_reply(alloc, &costs, &file),
        Inputs::Prove {
            costs,
            file,
            number,
        } => prove_reply(alloc, &costs, &file, number),
        Inputs::Verify {
            root,
            key,
            value,
            sides,
        } => verify_reply(alloc, root, key, value, sides),
    }
}

fn begin_run(alloc: Global, costs: &CostTable, file: TxFile, state: bool) -> Result<Steps, NoMemory>
    ensures { IfOk result (IsAt (RunInputs costs.now file state) []) }
{
    Ok(Steps::Entries(EntrySteps::new(alloc, costs, file, state)?))
}

fn begin_trace(alloc: Global, costs: &CostTable, file: TxFile) -> Result<Steps, NoMemory>
    ensures { IfOk result (IsAt (TraceInputs costs.now file) []) }
{
    Ok(Steps::Traces(TraceSteps::new(alloc, costs, file)?))
}

fn begin_reply(alloc: Global, inputs: Inputs<'_>) -> Result<Steps, NoMemory>
    requires table { KeepTable (inputs_seen inputs) }
    requires whole { HasReply (inputs_seen inputs) }
    ensures { IfOk result (IsAt (inputs_seen inputs.entry) []) }
{
    let reply = reply_to(alloc, inputs)?;
    Ok(whole(reply))
}

/// Before the first step of a command with these inputs.
fn begin(alloc: Global, inputs: Inputs<'_>) -> Result<Steps, NoMemory>
    requires { KeepTable (inputs_seen inputs) }
    ensures { IfOk result (IsAt (inputs_seen inputs.entry) []) }
{
    match inputs {
        Inputs::Run { costs, file, state } => begin_run(alloc, &costs, file, state),
        Inputs::Trace { costs, file } => begin_trace(alloc, &costs, file),
        inputs => begin_reply(alloc, inputs),
    }
}

/// A step that tells nothing.
fn silent_step(alloc: Global, bytes: Row<u8>) -> Step
    ensures { result ≡ record { events = []; bytes = bytes } }
{
    Step {
        events: Row::new(Vec::new(alloc)),
        bytes,
    }
}

/// The step of a text that is still to be written, or else an empty one. Nothing is left then.
fn take_step(alloc: Global, text: &mut Option<Row<u8>>) -> Step
    ensures step { (bytes : List ℕ) → text.old ≡ Some bytes →
        result ≡ record { events = []; bytes = bytes } }
    ensures taken { text.new ≡ None }
{
    match text.take() {
        Some(bytes) => silent_step(alloc, bytes),
        None => silent_step(alloc, Row::new(Vec::new(alloc))),
    }
}

impl Steps {
    ghost use Rattle.std.specs.Prelude.{◌≡◌, ◌<◌, ◌++◌, ◌∷◌, [], List, IfOk, suc};
    ghost use Rattle.cl_entries.specs.declared.status.Step.{Step as AStep};
    ghost use Rattle.cl_replies.specs.Inputs.{Inputs as InputsSeen};
    ghost use Rattle.cl_app.specs.Top.{IsAt, IsSomewhere, left_of, status_of};

    /// How many steps are left.
    fn remaining(&self) -> usize
        ensures { result ≡ left_of self.now }
    {
        match self {
            Steps::Whole { text, .. } => usize::from(text.is_some()),
            Steps::Entries(entries) => entries.remaining(),
            Steps::Traces(traces) => traces.remaining(),
        }
    }

    /// How the command ends once no step is left.
    fn status(&self) -> Status
        ensures { result ≡ status_of self.now }
    {
        match self {
            Steps::Whole { status, .. } => *status,
            Steps::Entries(_) => Status::Done,
            Steps::Traces(_) => Status::Done,
        }
    }

    /// The next step.
    fn next(&mut self, alloc: Global) -> Result<Step, NoMemory>
        requires way { IsSomewhere self.old }
        requires left { 0 < left_of self.old }
        ensures next { IfOk result (λ step. (inputs : InputsSeen) (steps : List AStep) →
            IsAt inputs steps self.old → IsAt inputs (steps ++ step ∷ []) self.new) }
        ensures left { IfOk result (λ _. suc (left_of self.new) ≡ left_of self.old) }
    {
        match self {
            Steps::Whole { text, .. } => Ok(take_step(alloc, text)),
            Steps::Entries(entries) => entries.next(alloc),
            Steps::Traces(traces) => traces.next(alloc),
        }
    }
}

/// Does a step: its events are told, and then its bytes are written.
fn do_step<K: Sink, L: Listener>(
    step: &Step,
    out: &mut K,
    listeners: &mut Listeners<L>,
) -> Result<(), Stop>
    ensures told { Told step.now.events listeners.old listeners.new }
    ensures whole { OnOk result (Grows (K.written out.old) (K.written out.new) step.now.bytes) }
    ensures part { GrowsPart (K.written out.old) (K.written out.new) step.now.bytes }
    ensures faults { CountsWrite (K.faults out.old) (K.faults out.new) result }
{
    dispatch(listeners, step.events.as_slice());
    out.write(step.bytes.as_slice())?;
    Ok(())
}

/// Does all steps that are left, one after another. Each is made once the one before it is done.
fn do_steps<K: Sink, L: Listener>(
    alloc: Global,
    steps: &mut Steps,
    out: &mut K,
    listeners: &mut Listeners<L>,
) -> Result<Status, Stop>
    requires { (inputs : InputsSeen) × IsAt inputs [] steps.old }
    ensures done { IfOk result (λ status. (inputs : InputsSeen) → IsAt inputs [] steps.old →
        DoesInputs inputs status (K.written out.old) (K.written out.new) listeners.old
        listeners.new) }
    ensures part { IfErr result (λ _. (inputs : InputsSeen) (script : Script) →
        IsAt inputs [] steps.old → IsScript inputs script →
        DoesPart script.steps (K.written out.old) (K.written out.new) listeners.old
        listeners.new) }
    ensures faults { CountsWrite (K.faults out.old) (K.faults out.new) result }
{
    cl_listeners::events_told_in_turn();
    cl_entries::a_file_has_one_script();
    cl_traces::a_file_has_one_trace_script();
    crate::laws::scripts_are_one();
    for _ in 0..steps.remaining() {
        let step = steps.next(alloc)?;
        do_step(&step, out, listeners)?;
    }
    Ok(steps.status())
}

/// Does what a command with these inputs asks for.
pub(crate) fn do_inputs<K: Sink, L: Listener>(
    alloc: Global,
    inputs: Inputs<'_>,
    out: &mut K,
    listeners: &mut Listeners<L>,
) -> Result<Status, Stop>
    requires { KeepTable (inputs_seen inputs) }
    ensures done { IfOk result (λ status. DoesInputs (inputs_seen inputs.entry) status
        (K.written out.old) (K.written out.new) listeners.old listeners.new) }
    ensures part { IfErr result (λ _. (script : Script) →
        IsScript (inputs_seen inputs.entry) script →
        DoesPart script.steps (K.written out.old) (K.written out.new) listeners.old
        listeners.new) }
    ensures faults { CountsWrite (K.faults out.old) (K.faults out.new) result }
{
    cl_listeners::events_told_in_turn();
    let mut steps = begin(alloc, inputs)?;
    let ended = do_steps(alloc, &mut steps, out, listeners);
    drop(steps);
    ended
}
