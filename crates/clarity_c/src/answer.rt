//! The whole answer to a request.
ghost use Rattle.std.specs.Prelude.{◌≡◌, ◌≢◌, ◌≤◌, None, length, take};
ghost use Rattle.cl_request.specs.Request.{request_of};
ghost use Rattle.cl_exports.specs.Answers.{AnswersRequest, AnswersRequestPart, CutsAnswer};

use cl_exports::{answer_request, hand_out};
use cl_types::Fault;
use std::alloc::Global;

/// Does what the program does for the words of a request over its files, and gives its status; 10
/// where the bytes are no request. What the program would write is copied to `out`, and how many
/// bytes that is comes into `needed`. Where these are more than `out` has room for it gives 4, and the
/// first of them.
///
/// The bytes are cut at `ends`; the first `words` pieces are the words, the others by turns names and
/// contents of files.
#[unsafe(no_mangle)]
pub extern "C" fn clarity_answer(
    alloc: Global,
    bytes: &[u8],
    ends: &[usize],
    words: usize,
    out: &mut [u8],
    needed: &mut usize,
) -> u32
    ensures whole { result ≢ 3 → result ≢ 4 → result ≢ 9 → result ≢ 10 →
        AnswersRequest bytes.now ends.now words (take needed.new out.new) result }
    ensures part { result ≡ 3 →
        AnswersRequestPart bytes.now ends.now words (take needed.new out.new) }
    ensures cut { result ≡ 4 → CutsAnswer bytes.now ends.now words out.new needed.new }
    ensures none { result ≡ 10 → request_of bytes.now ends.now words ≡ None }
    ensures within { result ≢ 4 → needed.new ≤ length out.new }
{
    *needed = 0;
    match answer_request(alloc, bytes, ends, words) {
        Ok(answer) => hand_out(&answer, out, needed),
        Err(Fault::Refused(_)) => 10,
        Err(Fault::NoMemory) => 9,
    }
}
