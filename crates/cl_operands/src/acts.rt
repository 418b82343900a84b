//! The acts of the natives on tokens, by the values of their arguments.
ghost use Rattle.std.specs.Prelude.{◌≡◌, ◌≢◌, ◌∷◌, [], length, MatchOption};
ghost use Rattle.cl_forms.specs.declared.head.TokenNative.TheVariants as natives;
ghost use Rattle.cl_events.specs.Acts.{sender_refusal};
ghost use Rattle.cl_events.specs.declared.event.EventKind.TheVariants.{StxTransfer, StxBurn};
ghost use Rattle.cl_meaning.specs.Tokens.{act_of};
ghost use Rattle.cl_operands.specs.ActParts.{uint_of, principal_of, both_principals, amount_and_one, amount_and_two, asset_and_one, asset_and_two};

use crate::principals::is_same;
use cl_c32::Principal;
use cl_events::EventKind;
use cl_forms::TokenNative;
use cl_types::Name;
use cl_values::{Kind, Val};

/// The number of a uint.
fn uint_of(value: &Val) -> Option<u128>
    ensures { result ≡ uint_of value.now }
{
    match &value.value().kind {
        Kind::Uint(number) => Some(*number),
        _ => None,
    }
}

/// The principal that a value is.
pub fn principal_of(value: &Val) -> Option<Principal>
    ensures { result ≡ principal_of value.now }
{
    match &value.value().kind {
        Kind::Principal(principal) => Some(*principal),
        _ => None,
    }
}

/// Two principals.
fn both_principals(first: &Val, second: &Val) -> Option<(Principal, Principal)>
    ensures { result ≡ both_principals first.now second.now }
{
    match principal_of(first) {
        Some(one) => match principal_of(second) {
            Some(other) => Some((one, other)),
            None => None,
        },
        None => None,
    }
}

/// Two values, where there are just two.
pub fn two(mut values: Vec<Val>) -> Option<(Val, Val)>
    ensures { MatchOption result (length values.items ≢ 2)
        (λ pair. values.items ≡ pair.0 ∷ pair.1 ∷ []) }
{
    if values.len() != 2 {
        return None;
    }
    match (values.pop(), values.pop()) {
        (Some(second), Some(first)) => Some((first, second)),
        _ => None,
    }
}

/// Three values, where there are just three.
fn three(mut values: Vec<Val>) -> Option<(Val, Val, Val)>
    ensures { MatchOption result (length values.items ≢ 3)
        (λ all. values.items ≡ all.0 ∷ all.1 ∷ all.2 ∷ []) }
{
    if values.len() != 3 {
        return None;
    }
    match (values.pop(), values.pop(), values.pop()) {
        (Some(third), Some(second), Some(first)) => Some((first, second, third)),
        _ => None,
    }
}

/// An amount and a principal.
fn amount_and_one(values: Vec<Val>) -> Option<(u128, Principal)>
    ensures { result ≡ amount_and_one values.items }
{
    match two(values) {
        Some((amount, who)) => match uint_of(&amount) {
            Some(amount) => match principal_of(&who) {
                Some(who) => Some((amount, who)),
                None => None,
            },
            None => None,
        },
        None => None,
    }
}

/// An amount and two principals.
fn amount_and_two(values: Vec<Val>) -> Option<(u128, (Principal, Principal))>
    ensures { result ≡ amount_and_two values.items }
{
    match three(values) {
        Some((amount, from, to)) => match uint_of(&amount) {
            Some(amount) => match both_principals(&from, &to) {
                Some(both) => Some((amount, both)),
                None => None,
            },
            None => None,
        },
        None => None,
    }
}

/// An asset and a principal.
fn asset_and_one(values: Vec<Val>) -> Option<(Val, Principal)>
    ensures { result ≡ asset_and_one values.items }
{
    match two(values) {
        Some((id, who)) => match principal_of(&who) {
            Some(who) => Some((id, who)),
            None => None,
        },
        None => None,
    }
}

/// An asset and two principals.
fn asset_and_two(values: Vec<Val>) -> Option<(Val, (Principal, Principal))>
    ensures { result ≡ asset_and_two values.items }
{
    match three(values) {
        Some((id, from, to)) => match both_principals(&from, &to) {
            Some(both) => Some((id, both)),
            None => None,
        },
        None => None,
    }
}

fn mint_ft(token: &Name, values: Vec<Val>) -> Option<EventKind>
    ensures { result ≡ act_of natives.MintFt token.now values.items }
{
    match amount_and_one(values) {
        Some((amount, to)) => Some(EventKind::FtMint {
            token: *token,
            amount,
            to,
        }),
        None => None,
    }
}

fn burn_ft(token: &Name, values: Vec<Val>) -> Option<EventKind>
    ensures { result ≡ act_of natives.BurnFt token.now values.items }
{
    match amount_and_one(values) {
        Some((amount, from)) => Some(EventKind::FtBurn {
            token: *token,
            amount,
            from,
        }),
        None => None,
    }
}

fn send_ft(token: &Name, values: Vec<Val>) -> Option<EventKind>
    ensures { result ≡ act_of natives.SendFt token.now values.items }
{
    match amount_and_two(values) {
        Some((amount, (from, to))) => Some(EventKind::FtTransfer {
            token: *token,
            amount,
            from,
            to,
        }),
        None => None,
    }
}

fn mint_nft(token: &Name, values: Vec<Val>) -> Option<EventKind>
    ensures { result ≡ act_of natives.MintNft token.now values.items }
{
    match asset_and_one(values) {
        Some((id, to)) => Some(EventKind::NftMint {
            token: *token,
            id,
            to,
        }),
        None => None,
    }
}

fn burn_nft(token: &Name, values: Vec<Val>) -> Option<EventKind>
    ensures { result ≡ act_of natives.BurnNft token.now values.items }
{
    match asset_and_one(values) {
        Some((id, from)) => Some(EventKind::NftBurn {
            token: *token,
            id,
            from,
        }),
        None => None,
    }
}

fn send_nft(token: &Name, values: Vec<Val>) -> Option<EventKind>
    ensures { result ≡ act_of natives.SendNft token.now values.items }
{
    match asset_and_two(values) {
        Some((id, both)) => Some(EventKind::NftTransfer {
            token: *token,
            id,
            from: both.0,
            to: both.1,
        }),
        None => None,
    }
}

pub fn send_stx(values: Vec<Val>) -> Option<EventKind>
    ensures { result ≡ act_of natives.SendStx [] values.items }
{
    match amount_and_two(values) {
        Some((amount, (from, to))) => Some(EventKind::StxTransfer { amount, from, to }),
        None => None,
    }
}

pub fn burn_stx(values: Vec<Val>) -> Option<EventKind>
    ensures { result ≡ act_of natives.BurnStx [] values.items }
{
    match amount_and_one(values) {
        Some((amount, from)) => Some(EventKind::StxBurn { amount, from }),
        None => None,
    }
}

/// The act of a native on a token; None where its arguments aren't of its types. The natives on
/// STX name no token.
pub fn act_of(native: TokenNative, token: &Name, values: Vec<Val>) -> Option<EventKind>
    ensures { result ≡ act_of native token.now values.items }
{
    match native {
        TokenNative::MintFt => mint_ft(token, values),
        TokenNative::BurnFt => burn_ft(token, values),
        TokenNative::SendFt => send_ft(token, values),
        TokenNative::MintNft => mint_nft(token, values),
        TokenNative::BurnNft => burn_nft(token, values),
        TokenNative::SendNft => send_nft(token, values),
        TokenNative::SendStx => send_stx(values),
        TokenNative::BurnStx => burn_stx(values),
    }
}

/// The number with which a transfer of STX is refused by the tests up to that of the sender.
fn transfer_refusal(
    sender: &Principal,
    amount: u128,
    from: &Principal,
    to: &Principal,
) -> Option<u8>
    ensures { result ≡ sender_refusal sender.now (StxTransfer amount from.now to.now) }
{
    if amount == 0 {
        Some(3)
    } else if is_same(from, to) {
        Some(2)
    } else if is_same(from, sender) {
        None
    } else {
        Some(4)
    }
}

/// The number with which a burn of STX is refused by the tests up to that of the sender.
fn burn_refusal(sender: &Principal, amount: u128, from: &Principal) -> Option<u8>
    ensures { result ≡ sender_refusal sender.now (StxBurn amount from.now) }
{
    if amount == 0 {
        Some(3)
    } else if is_same(from, sender) {
        None
    } else {
        Some(4)
    }
}

/// The number with which an act is refused by the tests up to that of the sender, which is asked
/// of STX alone.
pub fn sender_refusal(sender: &Principal, kind: &EventKind) -> Option<u8>
    ensures { result ≡ sender_refusal sender.now kind.now }
{
    match kind {
        EventKind::StxTransfer { amount, from, to } => transfer_refusal(sender, *amount, from, to),
        EventKind::StxBurn { amount, from } => burn_refusal(sender, *amount, from),
        EventKind::Print(_)
        | EventKind::FtMint { .. }
        | EventKind::FtTransfer { .. }
        | EventKind::FtBurn { .. }
        | EventKind::NftMint { .. }
        | EventKind::NftTransfer { .. }
        | EventKind::NftBurn { .. } => None,
    }
}
