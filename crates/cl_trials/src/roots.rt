//! Roots of states, and the proofs of their rows. The digests were computed by another program over another library of SHA-256.
ghost use Rattle.std.specs.Prelude.{◌≡◌, length};

use cl_c32::{Address, Principal};
use cl_lines::state_line;
use cl_root::{Side, prove, root, row_bytes, verify};
use cl_state::World;
use cl_tables::StateRow;
use std::alloc::Global;
use std::test::Fail;

// A world with so many holders of STX: the first has 1, and each other one more than the one before.
fn world_of(alloc: Global, count: u8) -> Result<World, Fail> {
    let mut holders = Vec::new(alloc);
    for n in 0..count {
        let address = Address::new(22, &[n; 20]);
        let contract = None;
        holders.push((Principal { address, contract }, 1 + u128::from(n)))?;
    }
    Ok(World::genesis(holders)?)
}

// The path with each digest on the other side.
fn turned(alloc: Global, path: &[Side]) -> Result<Vec<Side>, Fail> {
    let mut sides = Vec::new(alloc);
    for side in path {
        let left = !side.left;
        let digest = side.digest;
        sides.push(Side { left, digest })?;
    }
    Ok(sides)
}

// Whether these bytes and this path are taken as they are, and neither with another value nor with turned sides.
fn is_taken_alone(
    alloc: Global,
    root: &[u8; 32],
    row: (&[u8], &[u8]),
    path: &[Side],
) -> Result<bool, Fail> {
    let (key, value) = row;
    if key.len() >= 4_294_967_296 || path.len() > 64 {
        return Ok(false);
    }
    let yes = verify(root, key, value, path);
    let other_value = verify(root, key, key, path);
    let sides = turned(alloc, path)?;
    if sides.len() > 64 {
        return Ok(false);
    }
    let other_sides = !path.is_empty() && verify(root, key, value, &sides);
    Ok(yes && !other_value && !other_sides)
}

fn is_proved(alloc: Global, world: &World, root: &[u8; 32], row: &StateRow) -> Result<bool, Fail>
    requires { length world.now.stack.below ≡ 0 }
{
    let (key, value) = row_bytes(alloc, row)?;
    match prove(alloc, world, &key)? {
        Some(path) => is_taken_alone(alloc, root, (&key, &value), &path),
        None => Ok(false),
    }
}

fn each_row_is_proved(alloc: Global, world: &World, root: &[u8; 32]) -> Result<bool, Fail>
    requires { length world.now.stack.below ≡ 0 }
{
    for row in &world.rows()? {
        if !is_proved(alloc, world, root, row)? {
            return Ok(false);
        }
    }
    Ok(prove(alloc, world, b"no row has this key")?.is_none())
}

// Whether the world has this root, and a proof for each of its rows.
fn has_root(alloc: Global, world: &World, wanted: &[u8; 32]) -> Result<bool, Fail> {
    if world.layers() > 0 {
        return Ok(false);
    }
    let digest = root(alloc, world)?;
    Ok(digest == *wanted && each_row_is_proved(alloc, world, &digest)?)
}

// How many holders, and the root.
const ROOTS: &[(u8, [u8; 32])] = &[
    (
        0,
        [
            227, 176, 196, 66, 152, 252, 28, 20, 154, 251, 244, 200, 153, 111, 185, 36, 39, 174,
            65, 228, 100, 155, 147, 76, 164, 149, 153, 27, 120, 82, 184, 85,
        ],
    ),
    (
        1,
        [
            143, 165, 10, 179, 248, 206, 102, 172, 225, 95, 2, 12, 182, 116, 17, 47, 229, 90, 119,
            173, 215, 124, 212, 69, 48, 66, 6, 242, 166, 90, 210, 151,
        ],
    ),
    (
        2,
        [
            160, 228, 33, 217, 122, 123, 250, 223, 7, 189, 220, 11, 253, 218, 50, 102, 65, 12, 134,
            158, 42, 79, 193, 214, 19, 26, 197, 12, 187, 35, 199, 219,
        ],
    ),
    (
        3,
        [
            113, 172, 192, 44, 130, 227, 113, 70, 232, 5, 109, 16, 207, 180, 64, 148, 112, 139,
            175, 190, 22, 166, 188, 212, 169, 6, 196, 115, 42, 243, 102, 146,
        ],
    ),
    (
        5,
        [
            82, 18, 15, 103, 218, 232, 145, 10, 202, 152, 98, 188, 225, 153, 226, 212, 69, 98, 130,
            211, 238, 110, 59, 78, 124, 212, 255, 61, 205, 162, 196, 243,
        ],
    ),
    (
        8,
        [
            36, 124, 99, 238, 210, 183, 239, 238, 237, 48, 88, 202, 168, 125, 169, 217, 56, 146,
            163, 155, 56, 13, 153, 197, 167, 41, 118, 57, 80, 204, 48, 43,
        ],
    ),
    (
        9,
        [
            220, 215, 251, 84, 199, 252, 32, 64, 252, 103, 170, 211, 211, 228, 174, 39, 16, 199,
            62, 252, 176, 162, 85, 47, 7, 97, 182, 12, 195, 89, 134, 145,
        ],
    ),
];

#[test]
fn worlds_have_their_roots(rt: HostRuntime) -> Result<(), Fail> {
    let alloc = rt.alloc();
    for (count, wanted) in ROOTS {
        let world = world_of(alloc, *count)?;
        assert!(rt; has_root(alloc, &world, wanted)?);
    }
    Ok(())
}

fn prints_one_line(alloc: Global, world: &World) -> Result<bool, Fail> {
    let rows = world.rows()?;
    let Some(row) = rows.first() else {
        return Ok(false);
    };
    let line = state_line(alloc, row)?;
    Ok(line.as_slice() == b"stx 'SP000000000000000000002Q6VF78 u1\n".as_slice())
}

#[test]
fn a_row_has_its_line(rt: HostRuntime) -> Result<(), Fail> {
    let alloc = rt.alloc();
    let world = world_of(alloc, 1)?;
    assert!(rt; prints_one_line(alloc, &world)?);
    Ok(())
}
