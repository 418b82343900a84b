//! Reading values with no values inside.
ghost use Rattle.std.specs.Prelude.{◌≡◌, ◌≤◌, ◌++◌, IfOk, Ok, Err, length, drop};
ghost use Rattle.std.specs.Str.{chars};
ghost use Rattle.cl_types.specs.Fault.{IfRefused};
ghost use Rattle.cl_values.specs.Reading.{place, good_len, read_int, read_uint, read_buff, read_ascii, read_utf8, read_standard, read_contract};
ghost use Rattle.cl_values.specs.View.{tree_of};

use crate::parts::{place, read_address, read_contract_name, read_counted, read_wide};
use cl_c32::Principal;
use cl_types::Fault;
use cl_values::{DecodeRefusal, Kind, is_text_byte};
use std::alloc::{AllocError, Global};

pub(crate) fn read_int(total: u32, bytes: &[u8]) -> Result<(Kind, &[u8]), Fault<DecodeRefusal>>
    ensures found { IfOk result (λ p. read_int total bytes.now ≡ Ok (tree_of p.0, p.1.now)) }
    ensures broken { IfRefused result (λ fault. read_int total bytes.now ≡ Err fault) }
{
    let (number, rest) = read_wide(total, bytes)?;
    Ok((Kind::Int(number.cast_signed()), rest))
}

pub(crate) fn read_uint(total: u32, bytes: &[u8]) -> Result<(Kind, &[u8]), Fault<DecodeRefusal>>
    ensures found { IfOk result (λ p. read_uint total bytes.now ≡ Ok (tree_of p.0, p.1.now)) }
    ensures broken { IfRefused result (λ fault. read_uint total bytes.now ≡ Err fault) }
{
    let (number, rest) = read_wide(total, bytes)?;
    Ok((Kind::Uint(number), rest))
}

pub(crate) fn read_standard(total: u32, bytes: &[u8]) -> Result<(Kind, &[u8]), Fault<DecodeRefusal>>
    ensures found { IfOk result (λ p. read_standard total bytes.now ≡ Ok (tree_of p.0, p.1.now)) }
    ensures broken { IfRefused result (λ fault. read_standard total bytes.now ≡ Err fault) }
{
    match read_address(total, bytes) {
        Err(fault) => Err(fault),
        Ok((address, rest)) => {
            let contract = None;
            Ok((Kind::Principal(Principal { address, contract }), rest))
        }
    }
}

pub(crate) fn read_contract(total: u32, bytes: &[u8]) -> Result<(Kind, &[u8]), Fault<DecodeRefusal>>
    ensures found { IfOk result (λ p. read_contract total bytes.now ≡ Ok (tree_of p.0, p.1.now)) }
    ensures broken { IfRefused result (λ fault. read_contract total bytes.now ≡ Err fault) }
{
    match read_address(total, bytes) {
        Err(fault) => Err(fault),
        Ok((address, more)) => match read_contract_name(total, more) {
            Err(fault) => Err(fault),
            Ok((name, rest)) => {
                let contract = Some(name);
                Ok((Kind::Principal(Principal { address, contract }), rest))
            }
        },
    }
}

pub(crate) fn read_buff(
    alloc: Global,
    total: u32,
    bytes: &[u8],
) -> Result<(Kind, &[u8]), Fault<DecodeRefusal>>
    ensures found { IfOk result (λ p. read_buff total bytes.now ≡ Ok (tree_of p.0, p.1.now)) }
    ensures broken { IfRefused result (λ fault. read_buff total bytes.now ≡ Err fault) }
{
    let (content, rest) = read_counted(total, bytes)?;
    Ok((Kind::Buff(content.to_vec(alloc)?), rest))
}

/// How many bytes stand before the first that an ASCII string can't hold.
fn good_len(text: &[u8]) -> usize
    ensures value { result ≡ good_len text.now }
    ensures within { result ≤ length text.now }
{
    for i in 0..text.len() {
        if !is_text_byte(text[i]) {
            return i;
        }
    }
    text.len()
}

/// The fault of a string of which the first `good` bytes are good, with the bytes behind it.
fn bad_text(total: u32, good: usize, text: &[u8], rest: &[u8]) -> DecodeRefusal
    requires { good ≤ length text.now }
    ensures { result ≡ DecodeRefusal.BadText (place total (drop good text.now ++ rest.now)) }
{
    let at = place(place(total, rest), &text[good..]);
    DecodeRefusal::BadText { at }
}

pub(crate) fn read_ascii(
    alloc: Global,
    total: u32,
    bytes: &[u8],
) -> Result<(Kind, &[u8]), Fault<DecodeRefusal>>
    ensures found { IfOk result (λ p. read_ascii total bytes.now ≡ Ok (tree_of p.0, p.1.now)) }
    ensures broken { IfRefused result (λ fault. read_ascii total bytes.now ≡ Err fault) }
{
    let (text, rest) = read_counted(total, bytes)?;
    let good = good_len(text);
    if good < text.len() {
        return Err(Fault::Refused(bad_text(total, good, text, rest)));
    }
    Ok((Kind::Ascii(text.to_vec(alloc)?), rest))
}

fn characters_of(alloc: Global, text: &str) -> Result<Vec<char>, AllocError>
    ensures { IfOk result (λ v. v.items ≡ chars text.now) }
{
    text.chars().collect(alloc)
}

pub(crate) fn read_utf8(
    alloc: Global,
    total: u32,
    bytes: &[u8],
) -> Result<(Kind, &[u8]), Fault<DecodeRefusal>>
    ensures found { IfOk result (λ p. read_utf8 total bytes.now ≡ Ok (tree_of p.0, p.1.now)) }
    ensures broken { IfRefused result (λ fault. read_utf8 total bytes.now ≡ Err fault) }
{
    let (text, rest) = read_counted(total, bytes)?;
    match std::str::from_utf8(text) {
        Ok(characters) => Ok((Kind::Utf8(characters_of(alloc, characters)?), rest)),
        Err(error) => {
            let good = error.valid_up_to();
            Err(Fault::Refused(bad_text(total, good, text, rest)))
        }
    }
}
