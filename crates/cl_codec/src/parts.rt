//! Reading the parts of a wire form: numbers, names, addresses, and bytes behind their length.
ghost use Rattle.std.specs.Prelude.{◌≡◌, ◌≤◌, ◌<◌, ◌^◌, ◌∷◌, [], IfOk, Ok, Err, Option, Some, None, length};
ghost use Rattle.cl_types.specs.Fault.{IfRefused};
ghost use Rattle.cl_types.specs.Name.{fits_pattern};
ghost use Rattle.cl_c32.specs.ContractName.{fits_pattern as fits_contract_pattern};
ghost use Rattle.cl_values.specs.Reading.{place, part, number, read_number, read_counted, read_address, read_name, read_key, follows};

use cl_c32::{Address, ContractName};
use cl_types::{Fault, Name};
use cl_values::DecodeRefusal;

/// Where bytes begin that reach up to `end`.
pub(crate) fn place(end: u32, bytes: &[u8]) -> u32
    ensures { result ≡ place end bytes.now }
{
    (end as usize).saturating_sub(bytes.len()) as u32
}

pub(crate) fn split_first(total: u32, bytes: &[u8]) -> Result<(u8, &[u8]), Fault<DecodeRefusal>>
    ensures found { IfOk result (λ p. bytes.now ≡ p.0 ∷ p.1.now) }
    ensures broken { IfRefused result (λ fault. (bytes.now ≡ []) × (fault ≡ DecodeRefusal.Ended total)) }
{
    match bytes.split_first() {
        None => Err(Fault::Refused(DecodeRefusal::Ended { at: total })),
        Some((first, rest)) => Ok((*first, rest)),
    }
}

/// The first bytes, and what is left behind them.
fn part(total: u32, size: usize, bytes: &[u8]) -> Result<(&[u8], &[u8]), Fault<DecodeRefusal>>
    ensures found { IfOk result (λ p. part total size bytes.now ≡ Ok (p.0.now, p.1.now)) }
    ensures broken { IfRefused result (λ fault. part total size bytes.now ≡ Err fault) }
    ensures sized { IfOk result (λ p. length p.0.now ≡ size) }
{
    if size <= bytes.len() {
        Ok((&bytes[..size], &bytes[size..]))
    } else {
        Err(Fault::Refused(DecodeRefusal::Ended { at: total }))
    }
}

fn number_of(digits: &[u8]) -> u128
    requires { length digits.now ≤ 16 }
    ensures value { result ≡ number digits.now }
    ensures below { result < 256 ^ length digits.now }
{
    let mut number = 0;
    for digit in digits {
        number = number * 256 + *digit as u128;
    }
    number
}

/// A length or a count, in four bytes.
pub(crate) fn read_count(total: u32, bytes: &[u8]) -> Result<(u32, &[u8]), Fault<DecodeRefusal>>
    ensures found { IfOk result (λ p. read_number total 4 bytes.now ≡ Ok (p.0, p.1.now)) }
    ensures broken { IfRefused result (λ fault. read_number total 4 bytes.now ≡ Err fault) }
{
    let (digits, rest) = part(total, 4, bytes)?;
    Ok((number_of(digits) as u32, rest))
}

/// A number of 128 bits.
pub(crate) fn read_wide(total: u32, bytes: &[u8]) -> Result<(u128, &[u8]), Fault<DecodeRefusal>>
    ensures found { IfOk result (λ p. read_number total 16 bytes.now ≡ Ok (p.0, p.1.now)) }
    ensures broken { IfRefused result (λ fault. read_number total 16 bytes.now ≡ Err fault) }
{
    let (digits, rest) = part(total, 16, bytes)?;
    Ok((number_of(digits), rest))
}

/// The bytes behind their length.
pub(crate) fn read_counted(total: u32, bytes: &[u8]) -> Result<(&[u8], &[u8]), Fault<DecodeRefusal>>
    ensures found { IfOk result (λ p. read_counted total bytes.now ≡ Ok (p.0.now, p.1.now)) }
    ensures broken { IfRefused result (λ fault. read_counted total bytes.now ≡ Err fault) }
{
    let (size, rest) = read_count(total, bytes)?;
    part(total, size as usize, rest)
}

/// A version below 32, and a hash of 20 bytes.
pub(crate) fn read_address(
    total: u32,
    bytes: &[u8],
) -> Result<(Address, &[u8]), Fault<DecodeRefusal>>
    ensures found { IfOk result (λ p. read_address total bytes.now ≡ Ok (p.0, p.1.now)) }
    ensures broken { IfRefused result (λ fault. read_address total bytes.now ≡ Err fault) }
{
    let (version, rest) = split_first(total, bytes)?;
    if version >= 32 {
        let at = place(total, bytes);
        return Err(Fault::Refused(DecodeRefusal::BadPrefix { at }));
    }
    let (hash, rest) = part(total, 20, rest)?;
    let mut cells = [0; 20];
    cells.copy_from_slice(hash);
    Ok((Address::new(version, &cells), rest))
}

/// The fault of a name that is none: it stands at the name's length.
fn bad_name(total: u32, bytes: &[u8]) -> Fault<DecodeRefusal>
    ensures { result ≡ Fault.Refused (DecodeRefusal.BadName (place total bytes.now)) }
{
    let at = place(total, bytes);
    Fault::Refused(DecodeRefusal::BadName { at })
}

fn read_name(total: u32, bytes: &[u8]) -> Result<(Name, &[u8]), Fault<DecodeRefusal>>
    ensures found { IfOk result (λ p. read_name fits_pattern total bytes.now ≡ Ok (p.0, p.1.now)) }
    ensures broken { IfRefused result (λ fault. read_name fits_pattern total bytes.now ≡ Err fault) }
{
    let (size, rest) = split_first(total, bytes)?;
    let (name, rest) = part(total, size as usize, rest)?;
    match Name::make(name) {
        Some(name) => Ok((name, rest)),
        None => Err(bad_name(total, bytes)),
    }
}

pub(crate) fn read_contract_name(
    total: u32,
    bytes: &[u8],
) -> Result<(ContractName, &[u8]), Fault<DecodeRefusal>>
    ensures found { IfOk result (λ p. read_name fits_contract_pattern total bytes.now ≡ Ok (p.0, p.1.now)) }
    ensures broken { IfRefused result (λ fault. read_name fits_contract_pattern total bytes.now ≡ Err fault) }
{
    let (size, rest) = split_first(total, bytes)?;
    let (name, rest) = part(total, size as usize, rest)?;
    match ContractName::make(name) {
        Some(name) => Ok((name, rest)),
        None => Err(bad_name(total, bytes)),
    }
}

fn may_follow(last: &Option<Name>, key: &Name) -> bool
    ensures { result ≡ follows last.now key.now }
{
    match last {
        None => true,
        Some(last) => last.cmp(key).is_lt(),
    }
}

/// A key that is above the last one.
pub(crate) fn read_key<'a>(
    total: u32,
    last: &Option<Name>,
    bytes: &'a [u8],
) -> Result<(Name, &'a [u8]), Fault<DecodeRefusal>>
    ensures found { IfOk result (λ p. read_key total last.now bytes.now ≡ Ok (p.0, p.1.now)) }
    ensures broken { IfRefused result (λ fault. read_key total last.now bytes.now ≡ Err fault) }
{
    match read_name(total, bytes) {
        Err(fault) => Err(fault),
        Ok((name, rest)) => {
            if may_follow(last, &name) {
                Ok((name, rest))
            } else {
                let at = place(total, bytes);
                Err(Fault::Refused(DecodeRefusal::KeysOrder { at }))
            }
        }
    }
}
