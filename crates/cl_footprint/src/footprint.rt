//! The spots that a call touches and writes.
ghost use Rattle.std.specs.Prelude.{◌≡◌, ◌∷◌, [], false, true, List, ℕ, OnOk, IfOk, IfSome, option_map, slice_get};
ghost use Rattle.cl_c32.specs.declared.principal.Principal.{Principal as Who};
ghost use Rattle.cl_contracts.specs.Seen.{deployed_seen, function_seen};
ghost use Rattle.cl_meaning.specs.Deployed.{contract_at, function_of};
ghost use Rattle.cl_spots.specs.Spots.{IsSpot};
ghost use Rattle.std.specs.List.{AllByRecursion};
ghost use Rattle.cl_touch.specs.Bodies.{uses_of};
ghost use Rattle.cl_touch.specs.CallSpots.{IsCallable, IsFootprint, Lists};
ghost use Rattle.cl_touch.specs.Touches.{Touched, Written};
ghost use Rattle.cl_touch.specs.Uses.{of_own};
ghost use Rattle.cl_footprint.specs.Going.{GoesIn};
ghost use Rattle.cl_footprint.specs.Gathering.{gathered, with_uses};

use crate::gathered::{add_function, is_spot};
use crate::named::has_no_function;
use crate::walk::{at_own, walk};
use cl_c32::Principal;
use cl_code::Function;
use cl_contracts::Deployed;
use cl_file::Row;
use cl_keyed::HashKey;
use cl_spots::Spot;
use cl_tables::Place;
use cl_types::{Access, Name, NoMemory};
use indexmap::IndexSet;
use std::alloc::Global;

/// The spots that a call touches and those that it writes, each once.
#[derive(Drop)]
pub struct Footprint {
    pub touched: Row<Spot>,
    pub written: Row<Spot>,
}

/// The function of a name in the contract of a principal.
fn function_at<'a>(
    deployed: &'a Deployed,
    contract: &Principal,
    name: &Name,
) -> Option<&'a Function>
    ensures seen { option_map (λ f. function_seen f.now) result
        ≡ function_of name.now (contract_at contract.now (deployed_seen deployed.now)) }
    ensures goes { IfSome result (λ f.
        GoesIn (contract_at contract.now (deployed_seen deployed.now)) f.now.body) }
{
    match deployed.find(contract) {
        Some(found) => found.function(name),
        None => None,
    }
}

/// Adds what the function of a place uses.
fn visit(
    deployed: &Deployed,
    reached: &mut IndexSet<Place, HashKey>,
    touched: &mut IndexSet<Spot, HashKey>,
    written: &mut IndexSet<Spot, HashKey>,
    at: &Place,
) -> Result<(), NoMemory>
    ensures { OnOk result (
        gathered reached.new.keys touched.new.keys written.new.keys
        ≡ with_uses (deployed_seen deployed.now) at.now.contract
        (uses_of (deployed_seen deployed.now) at.now.contract at.now.name)
        (gathered reached.old.keys touched.old.keys written.old.keys)) }
{
    match function_at(deployed, &at.contract, &at.name) {
        Some(function) => {
            walk(
                deployed,
                &at.contract,
                reached,
                touched,
                written,
                &function.body,
            )?;
            Ok(())
        }
        None => Ok(()),
    }
}

fn place_at(places: &[Place], index: usize) -> Option<Place>
    ensures { result ≡ slice_get places.now index }
{
    match places.get(index) {
        Some(at) => Some(*at),
        None => None,
    }
}

/// Adds what each function uses that is reached, one function after another.
fn gather(
    deployed: &Deployed,
    reached: &mut IndexSet<Place, HashKey>,
    touched: &mut IndexSet<Spot, HashKey>,
    written: &mut IndexSet<Spot, HashKey>,
) -> Result<(), NoMemory>
    ensures { OnOk result ((p : Who) (f : List ℕ) →
        gathered reached.old.keys touched.old.keys written.old.keys
        ≡ gathered (of_own p f ∷ []) [] [] →
        Lists touched.new.keys (Touched (deployed_seen deployed.now) p f)
        × Lists written.new.keys (Written (deployed_seen deployed.now) p f)) }
{
    for index in 0..usize::MAX {
        match place_at(reached.as_slice(), index) {
            Some(at) => visit(deployed, reached, touched, written, &at)?,
            None => return Ok(()),
        }
    }
    // By its length the set has fewer elements than `usize::MAX`, so the loop visited all.
    let _fewer = reached.len();
    Ok(())
}

/// A law of each of these spots: its principal and its name are valid.
fn are_spots(spots: &[Spot])
    ensures { AllByRecursion IsSpot spots.now }
{
    for spot in spots {
        is_spot(spot);
    }
}

/// Whether the contract is deployed and has the function, which isn't private: else the call is
/// refused with E1, E2 or E3.
fn is_callable(deployed: &Deployed, contract: &Principal, name: &Name) -> bool
    ensures yes { result ≡ true →
        IsCallable (deployed_seen deployed.now) contract.now name.now }
    ensures no { result ≡ false →
        IsCallable (deployed_seen deployed.now) contract.now name.now → ⊥ }
{
    match function_at(deployed, contract, name) {
        Some(function) => match function.access {
            Access::Private => false,
            _ => true,
        },
        None => false,
    }
}

/// The spots of a call of the function of a name.
fn footprint_at(
    alloc: Global,
    deployed: &Deployed,
    contract: &Principal,
    function: &Name,
) -> Result<Footprint, NoMemory>
    ensures { IfOk result (λ s. IsFootprint (deployed_seen deployed.now) contract.now
        function.now s.touched s.written) }
{
    let mut touched = IndexSet::with_hasher(alloc, deployed.hash_key());
    let mut written = IndexSet::with_hasher(alloc, deployed.hash_key());
    if is_callable(deployed, contract, function) {
        let mut reached = IndexSet::with_hasher(alloc, deployed.hash_key());
        add_function(&mut reached, &at_own(contract, function))?;
        gather(deployed, &mut reached, &mut touched, &mut written)?;
    }
    are_spots(touched.as_slice());
    let touched = Vec::from_slice(alloc, touched.as_slice())?;
    let written = Vec::from_slice(alloc, written.as_slice())?;
    Ok(Footprint {
        touched: Row::new(touched),
        written: Row::new(written),
    })
}

/// The spots that a call touches, and those that it writes, each once; none where the contract isn't
/// deployed, has no function that these bytes name, or the function is private. The time is linear
/// in the text of the functions that the call reaches.
pub fn footprint_of(
    alloc: Global,
    deployed: &Deployed,
    contract: &Principal,
    function: &[u8],
) -> Result<Footprint, NoMemory>
    ensures { IfOk result (λ s. IsFootprint (deployed_seen deployed.now) contract.now
        function.now s.touched s.written) }
{
    let Some(name) = Name::make(function) else {
        has_no_function(deployed, contract, function);
        return Ok(Footprint {
            touched: Row::new(Vec::new(alloc)),
            written: Row::new(Vec::new(alloc)),
        });
    };
    footprint_at(alloc, deployed, contract, &name)
}
