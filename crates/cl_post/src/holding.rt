//! Assets of principals, in an order.
ghost use Rattle.std.specs.Prelude.{◌≡◌, Some, refl};
ghost use Rattle.std.specs.Ordering.{eq_by_cmp};
ghost use Rattle.std.specs.Cmp.{partial_equiv_from_equiv, eq_by_cmp_equiv, partial_order_from_total};
ghost use Rattle.cl_maps.specs.Maps.{key_cmp};
ghost use Rattle.cl_post.specs.Holdings.{contract_part, asset_parts, parts_of, parts_cmp, parts_total, principal_cmp};

use cl_c32::{ContractName, Principal};
use cl_events::Asset;
use cl_types::Name;
use cl_values::compare;
use std::cmp::Ordering;
use std::marker::Model;

/// An asset of a principal. Contracts see its parts.
#[derive(Drop)]
pub(crate) struct Holding<'a> {
    principal: &'a Principal,
    asset: &'a Asset,
}

impl<'a> Model for Holding<'a> {
    ghost use Rattle.std.specs.Prelude.{List, ℕ};
    ghost use Rattle.cl_post.specs.Holdings.{parts_of};

    ghost Value = { List (List ℕ) };

    ghost view = { λ h. parts_of h.principal.now h.asset.now };
}

fn compare_contracts(a: &Option<ContractName>, b: &Option<ContractName>) -> Ordering
    ensures { result ≡ key_cmp (contract_part a.now) (contract_part b.now) }
{
    match (a, b) {
        (None, None) => Ordering::Equal,
        (None, Some(_)) => Ordering::Less,
        (Some(_), None) => Ordering::Greater,
        (Some(a), Some(b)) => a.cmp(b),
    }
}

fn compare_principals(a: &Principal, b: &Principal) -> Ordering
    ensures { result ≡ principal_cmp a.now b.now }
{
    let versions = a.address.version.cmp(&b.address.version);
    let hashes = a.address.hash.cmp(&b.address.hash);
    let contracts = compare_contracts(&a.contract, &b.contract);
    versions.then(hashes).then(contracts)
}

fn compare_assets(a: &Asset, b: &Asset) -> Ordering
    ensures { result ≡ parts_cmp (asset_parts a.now) (asset_parts b.now) }
{
    match (a, b) {
        (Asset::Stx, Asset::Stx) => Ordering::Equal,
        (Asset::Stx, _) => Ordering::Less,
        (_, Asset::Stx) => Ordering::Greater,
        (Asset::Ft(p, name), Asset::Ft(q, other)) => {
            compare_principals(p, q).then(name.cmp(other))
        }
        (Asset::Ft(p, name), Asset::Nft(q, other, _)) => {
            compare_principals(p, q)
                .then(name.cmp(other))
                .then(Ordering::Less)
        }
        (Asset::Nft(p, name, _), Asset::Ft(q, other)) => {
            compare_principals(p, q)
                .then(name.cmp(other))
                .then(Ordering::Greater)
        }
        (Asset::Nft(p, name, id), Asset::Nft(q, other, other_id)) => {
            compare_principals(p, q)
                .then(name.cmp(other))
                .then(compare(id, other_id))
        }
    }
}

impl<'a> Holding<'a> {
    pub(crate) fn new(principal: &'a Principal, asset: &'a Asset) -> Holding<'a>
        ensures { result ≡ parts_of principal.now asset.now }
    {
        Holding { principal, asset }
    }

    fn compare(&self, other: &Holding<'a>) -> Ordering
        ensures { result ≡ parts_cmp self.now other.now }
    {
        compare_principals(self.principal, other.principal).then(compare_assets(
            self.asset,
            other.asset,
        ))
    }
}

impl<'a> PartialEq for Holding<'a> {
    ghost eq = { eq_by_cmp parts_cmp };

    ghost laws = { partial_equiv_from_equiv (eq_by_cmp_equiv parts_total) };

    fn eq(&self, other: &Self) -> bool {
        self.compare(other).is_eq()
    }
}

impl<'a> Eq for Holding<'a> {
    ghost laws = { eq_by_cmp_equiv parts_total };
}

impl<'a> PartialOrd for Holding<'a> {
    ghost partial_cmp = { λ s t. Some (parts_cmp s t) };

    ghost laws = { partial_order_from_total parts_total };

    fn partial_cmp(&self, other: &Self) -> Option<Ordering> {
        Some(self.compare(other))
    }
}

impl<'a> Ord for Holding<'a> {
    ghost cmp = { parts_cmp };

    ghost total = { parts_total };

    ghost matches_partial_cmp = { λ s t. refl };

    ghost matches_eq = { λ s t. refl };

    fn cmp(&self, other: &Self) -> Ordering {
        self.compare(other)
    }
}
