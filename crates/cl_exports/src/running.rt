//! What is done on a node.
ghost use Rattle.std.specs.Prelude.{◌≡◌, IfErr, OnOk, Some};
ghost use Rattle.cl_file.specs.Entries.{NeverFall};
ghost use Rattle.cl_engine.specs.Steps.{IsCall};
ghost use Rattle.cl_exports.specs.Files.{OnlyEntries};
ghost use Rattle.cl_exports.specs.Nodes.{CallEnds, MayNotRun, PeekEnds, RefusesFile, RunEnds, RunFileEnds, StateEnds, call_of_bytes};

use crate::files::{has_only_entries, transactions};
use crate::outcome::Outcome;
use crate::parts::call_of_bytes;
use cl_entries::Reply;
use cl_replies::{FileFault, bad_file_reply};
use cl_session::{Session, never_fall};
use cl_tx::{Entry, TxFile};
use cl_types::Fault;
use std::alloc::Global;

/// Whether the entries of a file may be done on a node of this height, and if not, why.
fn may_run(alloc: Global, height: u64, file: &TxFile) -> Result<(), Outcome>
    ensures entries { OnOk result (OnlyEntries file.now) }
    ensures rising { OnOk result (NeverFall height file.now.entries) }
    ensures causes { IfErr result (MayNotRun height file.now) }
{
    match has_only_entries(alloc, file) {
        Ok(true) => {
            if never_fall(height, file.entries()) {
                Ok(())
            } else {
                Err(Outcome::Falls)
            }
        }
        Ok(false) => Err(Outcome::HasHolders),
        Err(_) => Err(Outcome::NoMemory),
    }
}

/// Does the entries of a file.
#[tactic(auto, using(crate::proofs::Endings::not_run))]
fn run_file(alloc: Global, session: &mut Session, file: &TxFile) -> Outcome
    ensures { RunFileEnds file.now result session.old session.new }
{
    match may_run(alloc, session.node.height(), file) {
        Ok(()) => match session.run(alloc, file.entries()) {
            Ok(()) => Outcome::Done,
            Err(_) => Outcome::NoMemory,
        },
        Err(outcome) => {
            session.clear();
            outcome
        }
    }
}

/// Has the line of a bad file as the text.
fn refuse_file(alloc: Global, session: &mut Session, fault: &FileFault) -> Outcome
    ensures { RefusesFile fault.now result session.old session.new }
{
    session.clear();
    match bad_file_reply(alloc, "transactions", fault) {
        Ok(reply) => {
            let Reply { text, status: _ } = reply;
            session.text = text.into_vec();
            Outcome::BadFile
        }
        Err(_) => Outcome::NoMemory,
    }
}

/// Does the entries of a transaction file that has no holders and no epochs, and has their lines as
/// the text; of bytes that are none, the line that says why.
pub fn run(alloc: Global, session: &mut Session, bytes: &[u8]) -> Outcome
    ensures { RunEnds bytes.now result session.old session.new }
{
    match transactions(alloc, bytes) {
        Ok(file) => run_file(alloc, session, &file),
        Err(Fault::Refused(fault)) => refuse_file(alloc, session, &fault),
        Err(Fault::NoMemory) => {
            session.clear();
            Outcome::NoMemory
        }
    }
}

/// Does the call that an entry is.
fn call_entry(alloc: Global, session: &mut Session, entry: &Entry) -> Outcome
    requires { IsCall entry.now }
    ensures { CallEnds (Some entry.now) result session.old session.new }
{
    match session.call(alloc, entry) {
        Ok(()) => Outcome::Done,
        Err(_) => Outcome::NoMemory,
    }
}

/// Does a call, and has its lines as the text.
#[tactic(auto, using(crate::proofs::Endings::call_ends))]
pub fn call(
    alloc: Global,
    session: &mut Session,
    bytes: &[u8],
    ends: &[usize],
    limits: &[u64],
) -> Outcome
    ensures { CallEnds (call_of_bytes bytes.now ends.now limits.now) result
        session.old session.new }
{
    match call_of_bytes(alloc, bytes, ends, limits) {
        Ok(entry) => call_entry(alloc, session, &entry),
        Err(Fault::Refused(_)) => {
            session.clear();
            Outcome::NoRequest
        }
        Err(Fault::NoMemory) => {
            session.clear();
            Outcome::NoMemory
        }
    }
}

/// Has the lines that an entry's call would have as the text.
fn peek_entry(alloc: Global, session: &mut Session, entry: &Entry) -> Outcome
    requires { IsCall entry.now }
    ensures { PeekEnds (Some entry.now) result session.old session.new }
{
    match session.peek(alloc, entry) {
        Ok(()) => Outcome::Done,
        Err(_) => Outcome::NoMemory,
    }
}

/// Has the lines that a call would have as the text, and changes nothing else.
#[tactic(auto, using(crate::proofs::Endings::peek_ends))]
pub fn peek(
    alloc: Global,
    session: &mut Session,
    bytes: &[u8],
    ends: &[usize],
    limits: &[u64],
) -> Outcome
    ensures { PeekEnds (call_of_bytes bytes.now ends.now limits.now) result
        session.old session.new }
{
    match call_of_bytes(alloc, bytes, ends, limits) {
        Ok(entry) => peek_entry(alloc, session, &entry),
        Err(Fault::Refused(_)) => {
            session.clear();
            Outcome::NoRequest
        }
        Err(Fault::NoMemory) => {
            session.clear();
            Outcome::NoMemory
        }
    }
}

/// Has the lines of the state as the text.
pub fn state(alloc: Global, session: &mut Session) -> Outcome
    ensures { StateEnds result session.old session.new }
{
    session.clear();
    match session.show_state(alloc) {
        Ok(()) => Outcome::Done,
        Err(_) => Outcome::NoMemory,
    }
}
