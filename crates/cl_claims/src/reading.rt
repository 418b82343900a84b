//! Reading claims.
ghost use Rattle.std.specs.Prelude.{◌≡◌, ◌≢◌, ◌<◌, ◌≤◌, ◌++◌, [], Err, None, length, IfOk, IfSome};
ghost use Rattle.cl_claims.specs.Lines.{line_text};
ghost use Rattle.cl_claims.specs.Files.{IsBadHere};
ghost use Rattle.cl_claims.specs.Parsed.{before, claims_of};

use crate::spelled::{ClaimLine, claim_in, split_at};
use cl_types::NoMemory;
use std::alloc::Global;

/// The first line of a trace file that isn't in the format, counted from 0.
#[derive(Clone, Copy)]
pub struct BadLine {
    pub line: usize,
}

/// The claim of the first line of a text, and what stands behind that line; none where it is no claim
/// of an entry from this number on and below the other.
///
/// A line is `ENTRY START..END HEX` and a line feed, the numbers in decimal without leading zeros,
/// HEX the wire form of a value in lower case. In a trace file the numbers of the entries never fall,
/// and each is below that of all entries. The last line has its line feed, too.
pub fn next_line<'a>(
    alloc: Global,
    text: &'a [u8],
    least: u32,
    entries: u32,
) -> Result<Option<(ClaimLine, &'a [u8])>, NoMemory>
    ensures reads { IfOk result (λ found. IfSome found (λ n.
        claims_of least entries text.now ≡ before n.0 (claims_of n.0.entry entries n.1.now))) }
    ensures bad { IfOk result (λ found. found ≡ None → text.now ≢ [] →
        claims_of least entries text.now ≡ Err 0) }
    ensures text { IfOk result
        (λ found. IfSome found (λ n. text.now ≡ line_text n.0 ++ n.1.now)) }
    ensures rises { IfOk result (λ found. IfSome found (λ n. least ≤ n.0.entry)) }
    ensures within { IfOk result (λ found. IfSome found (λ n. n.0.entry < entries)) }
    ensures shorter { IfOk result
        (λ found. IfSome found (λ n. length n.1.now < length text.now)) }
    ensures none { IfOk result (λ found. found ≡ None → IsBadHere least entries text.now) }
{
    let Some((line, behind)) = split_at(text, b'\n') else {
        return Ok(None);
    };
    let Some(claim) = claim_in(alloc, line)? else {
        return Ok(None);
    };
    if claim.entry < least || claim.entry >= entries {
        return Ok(None);
    }
    Ok(Some((claim, behind)))
}
