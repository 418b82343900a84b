//! Nodes that are kept between calls, behind handles.
ghost use Rattle.std.specs.Prelude.{◌≡◌, None, length, min, take};
ghost use Rattle.std.specs.Option.{option_map_or};
ghost use Rattle.cl_session.specs.Calls.{contract_in};
ghost use Rattle.cl_exports.specs.Checking.{CheckEnds, version_of};
ghost use Rattle.cl_exports.specs.Nodes.{CallEnds, PeekEnds, RunEnds, StateEnds, call_of_bytes};
ghost use Rattle.clarity_c.specs.Handles.{EndsOn, OpeningEnds, numbers_of, text_of};

use crate::costs_handle::{self, ClarityCosts};
use crate::handle::{ClarityNode, closed, from_box, into_box};
use cl_exports::{call, check_source, copy_out, number_of, open, peek, run, state};
use std::alloc::Global;
use std::mem::replace;

/// The number of a call on a handle without a node.
const CLOSED: u32 = 11;

/// Opens a node under a table of costs, with the holders and epochs of a transaction file, whose
/// entries aren't done; without them where the file has no bytes. The tables of the node hash by a key
/// that is made of the bytes of `key`: random ones, where strangers make the entries. The handle has
/// no node before, and none after a number that isn't 0.
#[unsafe(no_mangle)]
pub extern "C" fn clarity_node_open(
    alloc: Global,
    costs: &mut ClarityCosts,
    file: &[u8],
    key: &[u8],
    node: &mut ClarityNode,
) -> u32
    ensures same { costs.new.kept ≡ costs.old.kept }
    ensures opens { OpeningEnds costs.old.kept file.now result node.new.kept }
{
    *node = closed();
    let Some(table) = costs_handle::into_box(alloc, replace(costs, costs_handle::closed())) else {
        return CLOSED;
    };
    let opened = open(alloc, &table, key, file);
    *costs = costs_handle::from_box(table);
    match opened {
        Ok(session) => {
            *node = from_box(session);
            0
        }
        Err(outcome) => number_of(outcome),
    }
}

/// Does the entries of a transaction file that has no holders and no epochs, and has their lines as
/// the text.
#[unsafe(no_mangle)]
pub extern "C" fn clarity_node_run(alloc: Global, node: &mut ClarityNode, file: &[u8]) -> u32
    ensures { EndsOn (RunEnds file.now) result node.old.kept node.new.kept }
{
    let Some(mut session) = into_box(alloc, replace(node, closed())) else {
        return CLOSED;
    };
    let outcome = run(alloc, &mut session, file);
    *node = from_box(session);
    number_of(outcome)
}

/// Does a call that is given in parts, and has its lines as the text. The bytes are cut at `ends`
/// into the sender, the contract, the name of the function and the arguments; there are five limits
/// or none.
#[unsafe(no_mangle)]
pub extern "C" fn clarity_node_call(
    alloc: Global,
    node: &mut ClarityNode,
    bytes: &[u8],
    ends: &[usize],
    limits: &[u64],
) -> u32
    ensures { EndsOn (CallEnds (call_of_bytes bytes.now ends.now limits.now)) result
        node.old.kept node.new.kept }
{
    let Some(mut session) = into_box(alloc, replace(node, closed())) else {
        return CLOSED;
    };
    let outcome = call(alloc, &mut session, bytes, ends, limits);
    *node = from_box(session);
    number_of(outcome)
}

/// Has the lines that such a call would have as the text, and changes nothing.
#[unsafe(no_mangle)]
pub extern "C" fn clarity_node_peek(
    alloc: Global,
    node: &mut ClarityNode,
    bytes: &[u8],
    ends: &[usize],
    limits: &[u64],
) -> u32
    ensures { EndsOn (PeekEnds (call_of_bytes bytes.now ends.now limits.now)) result
        node.old.kept node.new.kept }
{
    let Some(mut session) = into_box(alloc, replace(node, closed())) else {
        return CLOSED;
    };
    let outcome = peek(alloc, &mut session, bytes, ends, limits);
    *node = from_box(session);
    number_of(outcome)
}

/// Judges a source as a contract that would be deployed on the node, under the costs of its height:
/// the text has the names of its functions, each in a line, and the numbers are the bounds of the
/// deployment and of each function; or, with 6, the text has the rule that it breaks first, and the
/// numbers are the span. The node stays as it is. The contract is a principal in its wire form
/// (SIP-005), the version 1 or 2.
#[unsafe(no_mangle)]
pub extern "C" fn clarity_node_check(
    alloc: Global,
    node: &mut ClarityNode,
    contract: &[u8],
    version: u32,
    source: &[u8],
) -> u32
    ensures { EndsOn (CheckEnds (contract_in contract.now) (version_of version) source.now) result
        node.old.kept node.new.kept }
{
    let Some(mut session) = into_box(alloc, replace(node, closed())) else {
        return CLOSED;
    };
    let outcome = check_source(alloc, &mut session, contract, version, source);
    *node = from_box(session);
    number_of(outcome)
}

/// Has the lines of the state as the text.
#[unsafe(no_mangle)]
pub extern "C" fn clarity_node_state(alloc: Global, node: &mut ClarityNode) -> u32
    ensures { EndsOn StateEnds result node.old.kept node.new.kept }
{
    let Some(mut session) = into_box(alloc, replace(node, closed())) else {
        return CLOSED;
    };
    let outcome = state(alloc, &mut session);
    *node = from_box(session);
    number_of(outcome)
}

/// The node's height; 0 where there is none.
#[unsafe(no_mangle)]
pub extern "C" fn clarity_node_height(alloc: Global, node: &mut ClarityNode) -> u64
    ensures same { node.new.kept ≡ node.old.kept }
    ensures height { result ≡ option_map_or (λ s. s.node.height) node.old.kept 0 }
{
    let Some(session) = into_box(alloc, replace(node, closed())) else {
        return 0;
    };
    let height = session.node.height();
    *node = from_box(session);
    height
}

/// How many entries the last run or call did; 0 where there is no node.
#[unsafe(no_mangle)]
pub extern "C" fn clarity_node_done(alloc: Global, node: &mut ClarityNode) -> u32
    ensures same { node.new.kept ≡ node.old.kept }
    ensures done { result ≡ option_map_or (λ s. s.done) node.old.kept 0 }
{
    let Some(session) = into_box(alloc, replace(node, closed())) else {
        return 0;
    };
    let done = session.done;
    *node = from_box(session);
    done
}

/// How many bytes the text of the last call has; 0 where there is no node.
#[unsafe(no_mangle)]
pub extern "C" fn clarity_node_length(alloc: Global, node: &mut ClarityNode) -> usize
    ensures same { node.new.kept ≡ node.old.kept }
    ensures length { result ≡ length (text_of node.old.kept) }
{
    let Some(session) = into_box(alloc, replace(node, closed())) else {
        return 0;
    };
    let length = session.text.len();
    *node = from_box(session);
    length
}

/// Copies as much of that text as there is room for, and says how many bytes that are.
#[unsafe(no_mangle)]
pub extern "C" fn clarity_node_copy(alloc: Global, node: &mut ClarityNode, out: &mut [u8]) -> usize
    ensures same { node.new.kept ≡ node.old.kept }
    ensures many { result ≡ min (length (text_of node.old.kept)) (length out.old) }
    ensures copied { take result out.new ≡ take result (text_of node.old.kept) }
{
    let Some(session) = into_box(alloc, replace(node, closed())) else {
        return 0;
    };
    let count = copy_out(&session.text, out);
    *node = from_box(session);
    count
}

/// How many numbers the last check left; 0 where there is no node.
#[unsafe(no_mangle)]
pub extern "C" fn clarity_node_count(alloc: Global, node: &mut ClarityNode) -> usize
    ensures same { node.new.kept ≡ node.old.kept }
    ensures count { result ≡ length (numbers_of node.old.kept) }
{
    let Some(session) = into_box(alloc, replace(node, closed())) else {
        return 0;
    };
    let count = session.numbers.len();
    *node = from_box(session);
    count
}

/// Copies as many of them as there is room for, and says how many that are.
#[unsafe(no_mangle)]
pub extern "C" fn clarity_node_numbers(
    alloc: Global,
    node: &mut ClarityNode,
    out: &mut [u64],
) -> usize
    ensures same { node.new.kept ≡ node.old.kept }
    ensures many { result ≡ min (length (numbers_of node.old.kept)) (length out.old) }
    ensures copied { take result out.new ≡ take result (numbers_of node.old.kept) }
{
    let Some(session) = into_box(alloc, replace(node, closed())) else {
        return 0;
    };
    let count = copy_out(&session.numbers, out);
    *node = from_box(session);
    count
}

/// Lets the node go, where there is one.
#[unsafe(no_mangle)]
pub extern "C" fn clarity_node_close(alloc: Global, node: &mut ClarityNode)
    ensures { node.new.kept ≡ None }
{
    drop(into_box(alloc, replace(node, closed())));
}
