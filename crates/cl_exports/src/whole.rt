//! The whole answer to a request.
ghost use Rattle.std.specs.Prelude.{◌≡◌, ◌≢◌, ◌≤◌, [], IfOk, None, length, take};
ghost use Rattle.cl_types.specs.Fault.{IfRefused};
ghost use Rattle.cl_request.specs.Request.{parts_of, request_of};
ghost use Rattle.cl_exports.specs.Answers.{AnswersRequest, AnswersRequestPart, IsAnswer, IsAnswerPart};
ghost use Rattle.cl_exports.specs.Copies.{IsCut};

use crate::copy::fill;
use crate::growing_sink::GrowingSink;
use cl_app::{clarity, each_command_has_a_script, scripts_are_done_in_order};
use cl_listeners::{Listeners, Recorder};
use cl_ports::MemoryFiles;
use cl_request::{NoRequest, Request, read};
use cl_types::{Fault, NoMemory};
use std::alloc::Global;

/// A status, and the bytes that were written.
#[derive(Drop)]
pub struct Answer {
    pub status: u8,
    pub out: GrowingSink,
}

/// No listener.
fn no_listener(alloc: Global) -> Result<Listeners<Recorder>, NoMemory> {
    let active = Vec::new(alloc);
    Listeners::new(alloc, active)
}

/// The status of an answer in memory, where a write fails only for want of it.
fn status_in_memory(status: u8) -> u8
    ensures same { result ≢ 9 → result ≡ status }
    ensures kept { result ≢ 4 }
{
    if status == 4 { 9 } else { status }
}

/// Answers a request. Nobody hears its events.
fn answer_to(alloc: Global, request: Request, nobody: &mut Listeners<Recorder>) -> Answer
    ensures whole { result.status ≢ 3 → result.status ≢ 9 →
        IsAnswer (parts_of request) result.out.bytes.items result.status }
    ensures part { IsAnswerPart (parts_of request) result.out.bytes.items }
    ensures kept { result.status ≢ 4 }
{
    each_command_has_a_script();
    scripts_are_done_in_order();
    let Request { words, files } = request;
    let mut files = MemoryFiles::new(alloc, files, Vec::new(alloc));
    let mut out = GrowingSink::new(alloc);
    let status = clarity(alloc, &words, &mut files, &mut out, nobody);
    Answer {
        status: status_in_memory(status),
        out,
    }
}

/// Answers the request that is cut from bytes, as the program would.
///
/// # Errors
///
/// `NoRequest` only where the bytes are no request.
pub fn answer_request(
    alloc: Global,
    bytes: &[u8],
    ends: &[usize],
    words: usize,
) -> Result<Answer, Fault<NoRequest>>
    ensures whole { IfOk result (λ a. a.status ≢ 3 → a.status ≢ 9 →
        AnswersRequest bytes.now ends.now words a.out.bytes.items a.status) }
    ensures part { IfOk result
        (λ a. AnswersRequestPart bytes.now ends.now words a.out.bytes.items) }
    ensures kept { IfOk result (λ a. a.status ≢ 4) }
    ensures none { IfRefused result (λ _. request_of bytes.now ends.now words ≡ None) }
{
    let mut nobody = no_listener(alloc)?;
    match read(alloc, bytes, ends, words) {
        Ok(request) => Ok(answer_to(alloc, request, &mut nobody)),
        Err(fault) => Err(fault),
    }
}

/// Hands an answer out, and gives its status: 4 where there isn't room for all of it.
pub fn hand_out(answer: &Answer, out: &mut [u8], needed: &mut usize) -> u32
    ensures status { result ≢ 4 → result ≡ answer.now.status }
    ensures within { result ≢ 4 → needed.new ≤ length out.new }
    ensures whole { result ≢ 4 → take needed.new out.new ≡ answer.now.out.bytes.items }
    ensures cut { result ≡ 4 → answer.now.status ≢ 4 →
        IsCut answer.now.out.bytes.items out.new needed.new }
{
    let cut = fill(&answer.out.bytes, out, needed);
    if cut == 0 {
        u32::from(answer.status)
    } else {
        cut
    }
}
