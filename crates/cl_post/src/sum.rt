//! The sum that was sent.
ghost use Rattle.std.specs.Prelude.{◌≡◌, ◌+◌, ℕ};
ghost use Rattle.cl_post.specs.Post.{weight, sent, has_sent, meets};
ghost use Rattle.cl_post.specs.Post.{fitting};

use crate::Code5;
use crate::sameness::is_of;
use cl_c32::Principal;
use cl_events::{Asset, Move};

// A sum and an amount; None where it is above all amounts.
pub(crate) fn added(sum: Option<u128>, amount: u128) -> Option<u128>
    ensures { (n : ℕ) → sum ≡ fitting n → result ≡ fitting (n + amount) }
{
    match sum {
        Some(sum) => sum.checked_add(amount),
        None => None,
    }
}

// What a move adds to the sum of this asset by this principal.
fn weight(principal: &Principal, asset: &Asset, made: &Move) -> u128
    ensures { result ≡ weight principal.now asset.now made.now }
{
    if is_of(principal, asset, made) {
        made.amount
    } else {
        0
    }
}

/// The sum of the amounts of an asset that left a principal; None where it is above all amounts.
#[tactic(auto, unfolding(crate::specs::Post::sent))]
pub(crate) fn sent(moves: &[Move], principal: &Principal, asset: &Asset) -> Option<u128>
    ensures { result ≡ fitting (sent moves.now principal.now asset.now) }
{
    let mut sum = Some(0);
    for i in 0..moves.len() {
        sum = added(sum, weight(principal, asset, &moves[i]));
    }
    sum
}

/// Whether some move is of this asset by this principal.
pub(crate) fn has_sent(moves: &[Move], principal: &Principal, asset: &Asset) -> bool
    ensures { result ≡ has_sent moves.now principal.now asset.now }
{
    for made in moves {
        if is_of(principal, asset, made) {
            return true;
        }
    }
    false
}

/// Whether a sum stands to an amount as the code says.
pub(crate) fn meets(code: Code5, sum: Option<u128>, amount: u128) -> bool
    ensures { (n : ℕ) → sum ≡ fitting n → result ≡ meets code n amount }
{
    match sum {
        Some(sum) => match code {
            Code5::Eq => sum == amount,
            Code5::Gt => sum > amount,
            Code5::Ge => sum >= amount,
            Code5::Lt => sum < amount,
            Code5::Le => sum <= amount,
        },
        None => matches!(code, Code5::Gt | Code5::Ge),
    }
}
