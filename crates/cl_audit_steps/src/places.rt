//! Places by name.
ghost use Rattle.std.specs.Prelude.{◌≡◌, OnOk, OnErr, option_copied};
ghost use Rattle.cl_forms.specs.Names.{named_in};
ghost use Rattle.cl_audit_steps.specs.Places.{with_place};

use cl_keyed::HashKey;
use cl_types::{Name, NoMemory};
use indexmap::IndexMap;

/// The place of a name.
#[tactic(auto, using(crate::proofs::PlaceLaws::under_name))]
pub(crate) fn place_of<'a>(
    places: &'a IndexMap<Name, usize, HashKey>,
    name: &Name,
) -> Option<&'a usize>
    ensures { option_copied result ≡ named_in name.now places.now.entries }
{
    places.get(name)
}

/// Gives a name its place, unless it has one.
pub(crate) fn put_place(
    places: &mut IndexMap<Name, usize, HashKey>,
    name: &Name,
    place: usize,
) -> Result<(), NoMemory>
    ensures put { OnOk result (places.new.entries ≡ with_place name.now place places.old.entries) }
    ensures refused { OnErr result (places.new.entries ≡ places.old.entries) }
{
    if places.contains_key(name) {
        return Ok(());
    }
    places.insert(*name, place)?;
    Ok(())
}
