//! A run of bytes, cut into pieces.
ghost use Rattle.std.specs.Prelude.{◌≡◌, None, Some, IfOk, map};
ghost use Rattle.std.specs.Option.{option_map};
ghost use Rattle.cl_types.specs.Fault.{IfRefused};
ghost use Rattle.cl_request.specs.Pieces.{piece_of, pieces_of};

use cl_types::Fault;
use std::alloc::Global;

/// These bytes are no request.
#[derive(Clone, Copy)]
pub struct NoRequest;

/// The bytes from one place to another.
fn piece_at(bytes: &[u8], from: usize, to: usize) -> Option<&[u8]>
    ensures { option_map (λ p. p.now) result ≡ piece_of bytes.now from to }
{
    if from <= to && to <= bytes.len() {
        Some(&bytes[from..to])
    } else {
        None
    }
}

/// The pieces of the bytes, by where each ends: it begins where the one before it ends, and the
/// first at 0. An end that is below the one before it, or behind the bytes, is refused.
pub fn cut<'a>(
    alloc: Global,
    bytes: &'a [u8],
    ends: &[usize],
) -> Result<Vec<&'a [u8]>, Fault<NoRequest>>
    ensures found { IfOk result
        (λ v. pieces_of bytes.now 0 ends.now ≡ Some (map (λ p. p.now) v.items)) }
    ensures broken { IfRefused result (λ _. pieces_of bytes.now 0 ends.now ≡ None) }
{
    let mut pieces = Vec::with_capacity(alloc, ends.len())?;
    let mut from = 0;
    for end in ends {
        let Some(piece) = piece_at(bytes, from, *end) else {
            return Err(Fault::Refused(NoRequest));
        };
        pieces.push(piece)?;
        from = *end;
    }
    Ok(pieces)
}
