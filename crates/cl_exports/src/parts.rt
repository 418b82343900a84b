//! A call in parts.
ghost use Rattle.std.specs.Prelude.{◌≡◌, IfOk, None, Some};
ghost use Rattle.cl_types.specs.Fault.{IfRefused};
ghost use Rattle.cl_engine.specs.Steps.{IsCall};
ghost use Rattle.cl_exports.specs.Nodes.{call_of_bytes};

use cl_request::{NoRequest, cut};
use cl_session::call_of;
use cl_tx::Entry;
use cl_types::Fault;
use std::alloc::Global;

/// The call that is cut from bytes, with these limits.
pub(crate) fn call_of_bytes(
    alloc: Global,
    bytes: &[u8],
    ends: &[usize],
    limits: &[u64],
) -> Result<Entry, Fault<NoRequest>>
    ensures found { IfOk result (λ e. call_of_bytes bytes.now ends.now limits.now ≡ Some e) }
    ensures broken { IfRefused result (λ _. call_of_bytes bytes.now ends.now limits.now ≡ None) }
    ensures call { IfOk result (λ e. IsCall e) }
{
    let pieces = cut(alloc, bytes, ends)?;
    call_of(alloc, limits, &pieces)
}
