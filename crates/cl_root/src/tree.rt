//! The tree of leaves, and its root.
ghost use Rattle.std.specs.Prelude.{◌≡◌, ◌<◌, IfOk, length};
ghost use Rattle.cl_root.specs.HashTree.{IsCut, IsRoot, root_of};
ghost use Rattle.cl_root.specs.Kept.{AreShort, leaves_in};

use crate::digests::{empty_digest, leaf_digest, parts_digest};
use crate::leaves::{Leaf, state_leaves};
use cl_state::World;
use cl_types::NoMemory;
use std::alloc::Global;

/// The number of leaves in the left part: the greatest power of two below their number.
pub(crate) fn cut_of(count: usize) -> usize
    requires { 1 < count }
    ensures { IsCut result count }
{
    let mut cut = 1;
    while cut < count - cut {
        cut *= 2;
    }
    cut
}

/// The root of leaves in their order. It takes no memory; the recursion is as deep as the tree.
pub(crate) fn root_of(leaves: &[Leaf]) -> [u8; 32]
    requires { AreShort (leaves_in leaves.now) }
    ensures { result ≡ root_of (leaves_in leaves.now) }
{
    match leaves {
        [] => empty_digest(),
        [leaf] => leaf_digest(&leaf.0, &leaf.1),
        _ => {
            let (left, right) = leaves.split_at(cut_of(leaves.len()));
            parts_digest(&root_of(left), &root_of(right))
        }
    }
}

/// The root of the state of a world that has no layer: the SHA-256 digest (FIPS 180-4) of a binary tree over its rows.
pub fn root(alloc: Global, world: &World) -> Result<[u8; 32], NoMemory>
    requires { length world.now.stack.below ≡ 0 }
    ensures { IfOk result (λ digest. IsRoot digest world.now.stack.top) }
{
    let leaves = state_leaves(alloc, world)?;
    Ok(root_of(&leaves))
}
