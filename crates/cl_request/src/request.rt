//! Words and files, cut from one run of bytes.
ghost use Rattle.std.specs.Prelude.{◌≡◌, ◌≤◌, None, Some, IfOk, length, map, string_bytes};
ghost use Rattle.cl_types.specs.Fault.{IfRefused};
ghost use Rattle.cl_ports.specs.Memory.{held_of};
ghost use Rattle.cl_request.specs.Request.{both, files_of, parts_in, parts_of, request_of, text_of, words_of};

use crate::pieces::{NoRequest, cut};
use cl_types::Fault;
use std::alloc::Global;

/// Words, and files as names with contents.
#[derive(Drop)]
pub struct Request {
    pub words: Vec<String>,
    pub files: Vec<(String, Vec<u8>)>,
}

/// A piece as a text, refused exactly where it isn't UTF-8.
pub fn text(alloc: Global, piece: &[u8]) -> Result<String, Fault<NoRequest>>
    ensures found { IfOk result (λ t. text_of piece.now ≡ Some (string_bytes t)) }
    ensures broken { IfRefused result (λ _. text_of piece.now ≡ None) }
{
    match std::str::from_utf8(piece) {
        Ok(text) => Ok(String::from_str(alloc, text)?),
        Err(_) => Err(Fault::Refused(NoRequest)),
    }
}

/// Pieces as words.
fn words(alloc: Global, pieces: &[&[u8]]) -> Result<Vec<String>, Fault<NoRequest>>
    ensures found { IfOk result
        (λ v. words_of (map (λ p. p.now) pieces.now) ≡ Some (map string_bytes v.items)) }
    ensures broken { IfRefused result (λ _. words_of (map (λ p. p.now) pieces.now) ≡ None) }
{
    let mut words = Vec::with_capacity(alloc, pieces.len())?;
    for piece in pieces {
        words.push(text(alloc, piece)?)?;
    }
    Ok(words)
}

/// Pieces as files: names and contents by turns.
fn files(alloc: Global, pieces: &[&[u8]]) -> Result<Vec<(String, Vec<u8>)>, Fault<NoRequest>>
    ensures found { IfOk result
        (λ v. files_of (map (λ p. p.now) pieces.now) ≡ Some (held_of v.items)) }
    ensures broken { IfRefused result (λ _. files_of (map (λ p. p.now) pieces.now) ≡ None) }
{
    let mut files = Vec::with_capacity(alloc, pieces.len() / 2)?;
    let mut rest = pieces;
    while let [name, content, more @ ..] = rest {
        files.push((text(alloc, name)?, content.to_vec(alloc)?))?;
        rest = more;
    }
    match rest {
        [] => Ok(files),
        _ => Err(Fault::Refused(NoRequest)),
    }
}

/// Pieces as words, and pieces as files.
fn both(alloc: Global, first: &[&[u8]], rest: &[&[u8]]) -> Result<Request, Fault<NoRequest>>
    ensures found { IfOk result
        (λ r. both (words_of (map (λ p. p.now) first.now)) (files_of (map (λ p. p.now) rest.now))
        ≡ Some (parts_of r)) }
    ensures broken { IfRefused result
        (λ _. both (words_of (map (λ p. p.now) first.now)) (files_of (map (λ p. p.now) rest.now))
        ≡ None) }
{
    let words = words(alloc, first)?;
    let files = files(alloc, rest)?;
    Ok(Request { words, files })
}

/// So many pieces as words, and the others as files.
#[tactic(auto, using(crate::proofs::Parts::parts_at, crate::proofs::Parts::parts_short))]
fn parts(alloc: Global, pieces: &[&[u8]], count: usize) -> Result<Request, Fault<NoRequest>>
    ensures found { IfOk result
        (λ r. parts_in count (map (λ p. p.now) pieces.now) ≡ Some (parts_of r)) }
    ensures broken { IfRefused result
        (λ _. parts_in count (map (λ p. p.now) pieces.now) ≡ None) }
{
    match pieces.split_at_checked(count) {
        Some((first, rest)) => both(alloc, first, rest),
        None => Err(Fault::Refused(NoRequest)),
    }
}

/// Cuts a request from bytes. Each piece ends at its number of `ends` and begins where the one
/// before it ends, the first at 0. The first `count` pieces are words, the others by turns names
/// and contents of files.
///
/// # Errors
///
/// `NoRequest` exactly where an end is below the one before it or behind the bytes, there are fewer
/// pieces than words, a name has no content, or a word or a name isn't UTF-8.
pub fn read(
    alloc: Global,
    bytes: &[u8],
    ends: &[usize],
    count: usize,
) -> Result<Request, Fault<NoRequest>>
    ensures found { IfOk result
        (λ r. request_of bytes.now ends.now count ≡ Some (parts_of r)) }
    ensures broken { IfRefused result (λ _. request_of bytes.now ends.now count ≡ None) }
{
    let pieces = cut(alloc, bytes, ends)?;
    parts(alloc, &pieces, count)
}
