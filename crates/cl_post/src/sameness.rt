//! Whether a move is of an asset by a principal.
ghost use Rattle.std.specs.Prelude.{◌≡◌};
ghost use Rattle.std.specs.Str.{bytes_eq};
ghost use Rattle.cl_c32.specs.Principals.{same_principal};
ghost use Rattle.cl_post.specs.Post.{is_value, is_asset, is_of};

use cl_c32::Principal;
use cl_events::{Asset, Move};
use cl_types::Name;
use cl_values::{Val, compare};

fn is_one(a: &Principal, b: &Principal) -> bool
    ensures { result ≡ same_principal a.now b.now }
{
    a == b
}

fn is_name(a: &Name, b: &Name) -> bool
    ensures { result ≡ bytes_eq a.now b.now }
{
    a == b
}

fn is_value(a: &Val, b: &Val) -> bool
    ensures { result ≡ is_value a.now b.now }
{
    compare(a, b).is_eq()
}

fn is_asset(a: &Asset, b: &Asset) -> bool
    ensures { result ≡ is_asset a.now b.now }
{
    match (a, b) {
        (Asset::Stx, Asset::Stx) => true,
        (Asset::Ft(p, name), Asset::Ft(q, other)) => is_one(p, q) && is_name(name, other),
        (Asset::Nft(p, name, id), Asset::Nft(q, other, other_id)) => {
            is_one(p, q) && is_name(name, other) && is_value(id, other_id)
        }
        _ => false,
    }
}

/// Whether a move is of this asset by this principal.
#[tactic(auto, unfolding(crate::specs::Post::is_of))]
pub(crate) fn is_of(principal: &Principal, asset: &Asset, made: &Move) -> bool
    ensures { result ≡ is_of principal.now asset.now made.now }
{
    is_one(principal, &made.from) && is_asset(asset, &made.asset)
}
