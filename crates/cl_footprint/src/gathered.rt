//! The functions and spots that were found so far.
ghost use Rattle.std.specs.Prelude.{◌≡◌, OnOk};
ghost use Rattle.cl_tables.specs.Variables.{IsPlace};
ghost use Rattle.cl_spots.specs.Spots.{IsSpot};
ghost use Rattle.cl_footprint.specs.Gathering.{and_place, and_spot};

use cl_keyed::HashKey;
use cl_spots::Spot;
use cl_tables::Place;
use cl_types::NoMemory;
use indexmap::IndexSet;

/// A law of each place: its principal and its name are valid.
fn is_valid(at: &Place)
    ensures { IsPlace at.now }
{
    let _version = at.contract.address.version;
    if let Some(name) = &at.contract.contract {
        let _bytes = name.bytes();
    }
    let _letters = at.name.bytes();
}

/// Adds a function that is reached, unless it is there.
pub(crate) fn add_function(
    reached: &mut IndexSet<Place, HashKey>,
    at: &Place,
) -> Result<(), NoMemory>
    ensures { OnOk result (reached.new.keys ≡ and_place reached.old.keys at.now) }
{
    // The set's proof needs the types inside a place to be named in this function.
    let _contract = at.contract.contract;
    reached.insert(*at)?;
    Ok(())
}

pub(crate) fn is_spot(spot: &Spot)
    ensures { IsSpot spot.now }
{
    match spot {
        Spot::Variable(at) => is_valid(at),
        Spot::MapOf(at) => is_valid(at),
        Spot::Token(at) => is_valid(at),
        Spot::Stx => {}
    }
}

/// Adds a spot, unless it is there.
pub(crate) fn add_spot(spots: &mut IndexSet<Spot, HashKey>, spot: &Spot) -> Result<(), NoMemory>
    ensures { OnOk result (spots.new.keys ≡ and_spot spots.old.keys spot.now) }
{
    // As in `add_function`.
    if let Spot::Variable(at) = spot {
        let _contract = at.contract.contract;
    }
    spots.insert(*spot)?;
    Ok(())
}

/// Adds a spot that is read and written.
pub(crate) fn add_written(
    touched: &mut IndexSet<Spot, HashKey>,
    written: &mut IndexSet<Spot, HashKey>,
    spot: &Spot,
) -> Result<(), NoMemory>
    ensures touched { OnOk result (touched.new.keys ≡ and_spot touched.old.keys spot.now) }
    ensures written { OnOk result (written.new.keys ≡ and_spot written.old.keys spot.now) }
{
    add_spot(touched, spot)?;
    add_spot(written, spot)?;
    Ok(())
}
