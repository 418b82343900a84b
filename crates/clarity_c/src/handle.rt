//! What C holds of a node: a pointer.
ghost use Rattle.std.specs.Prelude.{◌≡◌, Bool, true, false, Option, Some, None, option_map};
ghost use Rattle.std.specs.Coded.{coded_option};
ghost use Rattle.cl_session.specs.contracts.session.Session.{the_row};
ghost use Rattle.cl_session.specs.declared.session.Session.{Session};

use cl_handle::RawBox;
use cl_session::Session;
use std::alloc::Global;
use std::marker::Model;

/// A node, as C keeps it: where it is open, the pointer of a box. Contracts see what it keeps.
#[repr(C)]
#[derive(Drop)]
pub struct ClarityNode {
    at: *mut u8,
    is_open: bool,
    pub ghost kept: { Option Session } by { coded_option (the_row).coded },
}

impl Model for ClarityNode {
    ghost use Rattle.clarity_c.specs.Owned.{owned};
    ghost use Rattle.std.specs.Prelude.{Option};
    ghost use Rattle.cl_session.specs.declared.session.Session.{Session};

    ghost also_owns = { λ n. owned n.is_open n.at n.kept };
}

/// No node.
pub(crate) fn closed() -> ClarityNode
    ensures { result.kept ≡ None }
{
    ClarityNode {
        at: std::ptr::null_mut(),
        is_open: false,
    }
}

/// The node behind a pointer.
fn from_raw(raw: RawBox<Session, Global>) -> ClarityNode
    ensures { result.kept ≡ Some raw.value }
{
    let RawBox { at, alloc: _ } = raw;
    ClarityNode {
        at: at as *mut u8,
        is_open: true,
    }
}

/// The pointer, where there is one.
fn into_raw(alloc: Global, node: ClarityNode) -> Option<RawBox<Session, Global>>
    ensures { option_map (λ raw. raw.value) result ≡ node.kept }
{
    let ClarityNode { at, is_open } = node;
    if !is_open {
        return None;
    }
    Some(RawBox {
        at: at as *mut Session,
        alloc,
    })
}

/// Hands a node out.
pub(crate) fn from_box(session: Box<Session>) -> ClarityNode
    ensures { result.kept ≡ Some session.value }
{
    from_raw(RawBox::from_box(session))
}

/// Takes a node back, where there is one.
pub(crate) fn into_box(alloc: Global, node: ClarityNode) -> Option<Box<Session>>
    ensures { option_map (λ b. b.value) result ≡ node.kept }
{
    match into_raw(alloc, node) {
        Some(raw) => Some(raw.into_box()),
        None => None,
    }
}
