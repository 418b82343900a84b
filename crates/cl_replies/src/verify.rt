//! The reply to `verify`.
ghost use Rattle.std.specs.Prelude.{◌≡◌, true, IfOk};
ghost use Rattle.hex.specs.Hex.{decode_of};
ghost use Rattle.cl_words.specs.Words.{are_short, texts};
ghost use Rattle.cl_replies.specs.Spelling.{bytes_in, digest_in, side_of, side_with, sides_of, verdict_on, verify_reply, yes_or_no};
ghost use Rattle.cl_replies.specs.Kept.{bytes_seen, AddsSides};

use crate::spelling::refusal_reply;
use cl_entries::{Reply, Status, bytes_reply};
use cl_root::{Side, verify};
use cl_types::NoMemory;
use hex::{FromHex, FromHexError};
use std::alloc::{AllocError, Global};

/// The 32 bytes that 64 digits spell.
fn digest_in(digits: &[u8]) -> Option<[u8; 32]>
    ensures { result ≡ digest_in digits.now }
{
    <[u8; 32] as FromHex>::from_hex(digits).ok()
}

/// The bytes that digits spell.
fn bytes_in(alloc: Global, digits: &[u8]) -> Result<Option<Vec<u8>>, NoMemory>
    ensures { IfOk result (λ bytes. bytes_seen bytes ≡ bytes_in (decode_of digits.now)) }
{
    match hex::decode(alloc, digits) {
        Ok(bytes) => Ok(Some(bytes)),
        Err(FromHexError::OutOfMemory) => Err(NoMemory),
        Err(_) => Ok(None),
    }
}

/// A side with the digest that digits spell.
fn side_with(left: bool, digits: &[u8]) -> Option<Side>
    ensures { result ≡ side_with left (digest_in digits.now) }
{
    let digest = digest_in(digits)?;
    Some(Side { left, digest })
}

/// The side that a letter and digits spell.
fn side_of(word: &[u8]) -> Option<Side>
    ensures { result ≡ side_of word.now }
{
    match word {
        [b'L', digits @ ..] => side_with(true, digits),
        [b'R', digits @ ..] => side_with(false, digits),
        _ => None,
    }
}

/// Appends the sides that words spell, and says whether all of them spell one.
fn add_sides(path: &mut Vec<Side>, words: &[String]) -> Result<bool, NoMemory>
    ensures { IfOk result (λ all.
        AddsSides (sides_of (texts words.now)) all path.old.items path.new.items) }
{
    match words {
        [] => Ok(true),
        [word, words @ ..] => match side_of(word.as_bytes()) {
            Some(side) => {
                path.push(side)?;
                add_sides(path, words)
            }
            None => Ok(false),
        },
    }
}

/// Whether a key and a value lead by sides to a root; `None` where a word isn't in digits of its
/// length.
fn verdict_on(
    alloc: Global,
    root: &str,
    key: &str,
    value: &str,
    sides: &[String],
) -> Result<Option<bool>, NoMemory>
    requires { are_short key.now (texts sides.now) ≡ true }
    ensures { IfOk result (λ verdict.
        verdict ≡ verdict_on root.now key.now value.now (texts sides.now)) }
{
    let Some(root) = digest_in(root.as_bytes()) else {
        return Ok(None);
    };
    let Some(key) = bytes_in(alloc, key.as_bytes())? else {
        return Ok(None);
    };
    let Some(value) = bytes_in(alloc, value.as_bytes())? else {
        return Ok(None);
    };
    let mut path = Vec::new(alloc);
    if !add_sides(&mut path, sides)? {
        return Ok(None);
    }
    Ok(Some(verify(&root, &key, &value, &path)))
}

fn yes_or_no(alloc: Global, yes: bool) -> Result<Reply, AllocError>
    ensures { IfOk result (λ reply. reply ≡ yes_or_no yes) }
{
    if yes {
        Ok(bytes_reply(Vec::from_slice(alloc, b"yes\n")?, Status::Done))
    } else {
        Ok(bytes_reply(Vec::from_slice(alloc, b"no\n")?, Status::Refused))
    }
}

/// The reply to `verify`, whose key has less than 2^33 digits and whose path at most 64 sides.
pub fn verify_reply(
    alloc: Global,
    root: &str,
    key: &str,
    value: &str,
    sides: &[String],
) -> Result<Reply, NoMemory>
    requires { are_short key.now (texts sides.now) ≡ true }
    ensures { IfOk result
        (λ reply. reply ≡ verify_reply root.now key.now value.now (texts sides.now)) }
{
    match verdict_on(alloc, root, key, value, sides)? {
        Some(yes) => Ok(yes_or_no(alloc, yes)?),
        None => Ok(refusal_reply(alloc, "NotHex")?),
    }
}
