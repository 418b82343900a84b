//! Paths from a leaf to the root: proofs of rows, and their check.
ghost use Rattle.std.specs.Prelude.{◌≡◌, ◌<◌, ◌≤◌, ◌^◌, ◌↔◌, ◌++◌, ◌∷◌, [], IfOk, IfSome, IsNone, IsTrue, length, reverse};
ghost use Rattle.std.specs.Option.{option_map};
ghost use Rattle.sha2.specs.Sha256.{sha256};
ghost use Rattle.cl_root.specs.Leaves.{HasNoRow};
ghost use Rattle.cl_root.specs.Paths.{IsPath, LeadsToRoot, end_of, step_input};
ghost use Rattle.cl_root.specs.Kept.{AddsPath, AreShort, leaves_in, sides_among, sides_in};
ghost use Rattle.cl_root.specs.Clash.{HasRowOrClash};

use crate::digests::{leaf_digest, parts_digest};
use crate::leaves::{Leaf, state_leaves};
use crate::side::Side;
use crate::tree::{cut_of, root_of};
use cl_state::World;
use cl_types::NoMemory;
use std::alloc::Global;

/// Appends a side.
fn add_side(out: &mut Vec<Side>, left: bool, digest: [u8; 32]) -> Result<(), NoMemory>
    ensures { IfOk result (λ _.
        out.new.items ≡ out.old.items ++ record { left = left; digest = digest } ∷ []) }
{
    out.push(Side { left, digest })?;
    Ok(())
}

/// Appends the path of the leaf with this key, from the leaf up, and says whether there is one.
fn add_path(out: &mut Vec<Side>, leaves: &[Leaf], key: &[u8]) -> Result<bool, NoMemory>
    requires { AreShort (leaves_in leaves.now) }
    ensures { IfOk result (λ found.
        AddsPath (sides_among leaves.now key.now) found out.old.items out.new.items) }
{
    match leaves {
        [] => Ok(false),
        [leaf] => Ok(leaf.0.as_slice() == key),
        _ => {
            let (left, right) = leaves.split_at(cut_of(leaves.len()));
            if add_path(out, left, key)? {
                add_side(out, false, root_of(right))?;
                return Ok(true);
            }
            if add_path(out, right, key)? {
                add_side(out, true, root_of(left))?;
                return Ok(true);
            }
            Ok(false)
        }
    }
}

/// The path of the leaf with this key.
fn path_in(alloc: Global, leaves: &[Leaf], key: &[u8]) -> Result<Option<Vec<Side>>, NoMemory>
    requires { AreShort (leaves_in leaves.now) }
    ensures { IfOk result (λ found.
        sides_in found ≡ option_map (λ sides. reverse sides) (sides_among leaves.now key.now)) }
{
    let mut path = Vec::new(alloc);
    if add_path(&mut path, leaves, key)? {
        Ok(Some(path))
    } else {
        Ok(None)
    }
}

/// The path of the row with these key bytes in the state of a world that has no layer: from the leaf up, at each turn the root
/// of the other part. `None` exactly where no row has this key.
pub fn prove(alloc: Global, world: &World, key: &[u8]) -> Result<Option<Vec<Side>>, NoMemory>
    requires { length world.now.stack.below ≡ 0 }
    ensures path { IfOk result (λ found. IsPath (sides_in found) key.now world.now.stack.top) }
    ensures none { IfOk result (λ found. IsNone found ↔ HasNoRow key.now world.now.stack.top) }
    ensures verified { IfOk result (λ found. IfSome found (λ path.
        LeadsToRoot path.items key.now world.now.stack.top)) }
    ensures short { IfOk result (λ found. IfSome found (λ path. length path.items ≤ 64)) }
{
    let leaves = state_leaves(alloc, world)?;
    path_in(alloc, &leaves, key)
}

/// The digest after one step up.
fn stepped(digest: &[u8; 32], side: &Side) -> [u8; 32]
    ensures { result ≡ sha256 (step_input side.now digest.now) }
{
    if side.left {
        parts_digest(&side.digest, digest)
    } else {
        parts_digest(digest, &side.digest)
    }
}

/// The root to which a leaf with this key and this value leads by a path. Of a row of a state, and the path that `prove` gave
/// for it, that is the root of the state, without the tree. It takes no memory.
pub fn root_by_path(key: &[u8], value: &[u8], path: &[Side]) -> [u8; 32]
    requires { length key.now < 2 ^ 32 }
    ensures { result ≡ end_of (key.now, value.now) path.now }
{
    let mut digest = leaf_digest(key, value);
    for side in path {
        digest = stepped(&digest, side);
    }
    digest
}

/// Whether a leaf with this key and this value leads to the root by this path. It takes no memory. After a yes each state with
/// this root has the row, or two inputs with one SHA-256 digest are found: the first two that differ among those of the path
/// and those of the state's tree at the same turns.
pub fn verify(root: &[u8; 32], key: &[u8], value: &[u8], path: &[Side]) -> bool
    requires key { length key.now < 2 ^ 32 }
    requires path { length path.now ≤ 64 }
    ensures leads { IsTrue result ↔ (end_of (key.now, value.now) path.now ≡ root.now) }
    ensures sound { IsTrue result → HasRowOrClash root.now (key.now, value.now) path.now }
{
    root_by_path(key, value, path) == *root
}
