//! Addresses and their texts.
ghost use Rattle.std.specs.Prelude.{◌≡◌, ◌<◌, ◌≤◌, ◌+◌, ◌-◌, ◌++◌, length, map, replicate};
ghost use Rattle.std.specs.List.{All};
ghost use Rattle.cl_c32.specs.Digits.{regrouped_digits};
ghost use Rattle.cl_c32.specs.Alphabet.{character_of, digit_value};
ghost use Rattle.cl_c32.specs.Codec.{checksum_of, body_of, address_text, bad_place, body_of_digits, checked_address, address_of_digits, decoded};

use crate::address::Address;
use crate::address_text::AddressText;
use crate::alphabet::{character_of, digit_of};
use crate::digits::{bytes_of_digits, digits_of_bytes, leading_zeros};
use sha2::{Digest, Sha256};

/// Why a text is no address.
#[derive(Clone, Copy)]
pub enum C32Refusal {
    /// The byte at this place isn't the `S` in front, or is no character of the alphabet behind it.
    BadCharacter { at: u32 },
    /// There are fewer than 2 or more than 48 bytes, or the characters behind that of the version
    /// don't stand for 24 bytes.
    BadLength,
    /// The last four of the 24 bytes aren't the checksum of what stands before them.
    BadChecksum { stated: [u8; 4], computed: [u8; 4] },
}

// The first four bytes of SHA-256 (FIPS 180-4) of SHA-256 of the version and the hash.
#[tactic(auto, unfolding(crate::specs::Codec::checksum_of))]
fn checksum_of(version: u8, hash: &[u8; 20]) -> [u8; 4]
    ensures { result ≡ checksum_of version hash.now }
{
    let mut hasher = Sha256::new();
    hasher.update([version].as_slice());
    hasher.update(hash.as_slice());
    let digest = Sha256::digest(hasher.finalize());
    [digest[0], digest[1], digest[2], digest[3]]
}

// The hash and its checksum.
fn body_of(address: &Address) -> [u8; 24]
    ensures { result ≡ body_of address.now }
{
    let checksum = checksum_of(address.version, &address.hash);
    let mut body = [0; 24];
    body[..20].copy_from_slice(&address.hash);
    body[20..24].copy_from_slice(&checksum);
    body
}

// Adds the characters of digits.
fn push_digits(text: &mut AddressText, digits: &[u8])
    requires room { length text.old + length digits.now ≤ 48 }
    requires digits { All (λ d. d < 32) digits.now }
    ensures { text.new ≡ text.old ++ map character_of digits.now }
{
    for digit in digits {
        text.push(character_of(*digit));
    }
}

// Adds the characters of a body, which are at most 43: a character for each zero byte in front, and
// those of the number without its zeros in front.
fn push_body(text: &mut AddressText, body: &[u8; 24])
    requires { length text.old ≤ 2 }
    ensures { text.new ≡ text.old ++ map character_of (regrouped_digits 256 32 body.now) }
{
    // One byte more makes whole groups.
    let mut padded = [0; 25];
    padded[1..25].copy_from_slice(body);
    let digits = digits_of_bytes(&padded);
    let zeros = leading_zeros(body);
    push_digits(text, &body[..zeros]);
    let first = leading_zeros(&digits);
    push_digits(text, &digits[first..]);
}

/// The text of an address in c32check: `S`, the character of the version, and the 24 bytes of hash
/// and checksum as one number in groups of 5 bits, after a `0` for each zero byte in front.
#[tactic(auto, unfolding(crate::specs::Codec::address_text))]
pub fn encode(address: &Address) -> AddressText
    ensures { result ≡ address_text address.now }
{
    let mut text = AddressText::new();
    text.push(b'S');
    text.push(character_of(address.version));
    push_body(&mut text, &body_of(address));
    text
}

// The place of the first byte that can't stand there.
#[tactic(auto, unfolding(crate::specs::Codec::bad_place))]
fn bad_place(text: &[u8]) -> Option<u32>
    requires { length text.now ≤ 48 }
    ensures { result ≡ bad_place text.now }
{
    let Some((first, characters)) = text.split_first() else {
        return None;
    };
    if *first != b'S' {
        return Some(0);
    }
    let mut at = 1;
    for character in characters {
        if digit_of(*character).is_none() {
            return Some(at);
        }
        at += 1;
    }
    None
}

// The digits of characters, and zeros behind them. A byte that is no character counts as 0.
fn digits_of(characters: &[u8]) -> [u8; 47]
    requires { length characters.now ≤ 47 }
    ensures { result ≡ map digit_value characters.now ++ replicate (47 - length characters.now) 0 }
{
    let mut digits = [0; 47];
    for i in 0..characters.len() {
        digits[i] = digit_of(characters[i]).unwrap_or(0);
    }
    digits
}

// The 24 bytes that digits stand for: in the 30 bytes of 48 digits, six zeros more stand in front.
fn body_of_digits(digits: &[u8]) -> Option<[u8; 24]>
    requires room { length digits.now ≤ 48 }
    requires digits { All (λ d. d < 32) digits.now }
    ensures { result ≡ body_of_digits digits.now }
{
    let mut padded = [0; 48];
    padded[48 - digits.len()..].copy_from_slice(digits);
    let bytes = bytes_of_digits(&padded);
    if leading_zeros(&bytes) != leading_zeros(digits) + 6 {
        return None;
    }
    let mut body = [0; 24];
    body.copy_from_slice(&bytes[6..30]);
    Some(body)
}

// The address of a version and a body, if its checksum is the right one.
#[tactic(auto, unfolding(crate::specs::Codec::checked_address))]
fn checked_address(version: u8, body: &[u8; 24]) -> Result<Address, C32Refusal>
    requires { version < 32 }
    ensures { result ≡ checked_address version body.now }
{
    let mut hash = [0; 20];
    hash.copy_from_slice(&body[..20]);
    let mut stated = [0; 4];
    stated.copy_from_slice(&body[20..24]);
    let computed = checksum_of(version, &hash);
    if stated == computed {
        Ok(Address::new(version, &hash))
    } else {
        Err(C32Refusal::BadChecksum { stated, computed })
    }
}

// The address of the digits behind the `S`.
#[tactic(auto, unfolding(crate::specs::Codec::address_of_digits))]
fn address_of_digits(digits: &[u8]) -> Result<Address, C32Refusal>
    requires room { length digits.now ≤ 48 }
    requires digits { All (λ d. d < 32) digits.now }
    ensures { result ≡ address_of_digits digits.now }
{
    let Some((version, digits)) = digits.split_first() else {
        return Err(C32Refusal::BadLength);
    };
    let Some(body) = body_of_digits(digits) else {
        return Err(C32Refusal::BadLength);
    };
    checked_address(*version, &body)
}

/// The address whose c32check text this is. The tests come in this order: `BadLength` by the number
/// of bytes; `BadCharacter` at the first such byte; `BadLength` by what the characters behind that of
/// the version stand for, where each `0` in front is a zero byte and the rest is a number in the
/// fewest bytes that hold it; `BadChecksum`.
#[tactic(auto, unfolding(crate::specs::Codec::decoded))]
pub fn decode(text: &[u8]) -> Result<Address, C32Refusal>
    ensures { result ≡ decoded text.now }
{
    if text.len() < 2 || text.len() > 48 {
        return Err(C32Refusal::BadLength);
    }
    if let Some(at) = bad_place(text) {
        return Err(C32Refusal::BadCharacter { at });
    }
    let digits = digits_of(&text[1..]);
    address_of_digits(&digits[..text.len() - 1])
}
