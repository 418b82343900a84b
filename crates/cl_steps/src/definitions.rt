//! The definitions that evaluate nothing.
ghost use Rattle.std.specs.Prelude.{◌≡◌, Some, None};
ghost use Rattle.cl_types.specs.Types.{PlainType};
ghost use Rattle.cl_sexpr.specs.declared.sexpr.Span.{Span};
ghost use Rattle.cl_maps.specs.Maps.{get};
ghost use Rattle.cl_events.specs.State.{place};
ghost use Rattle.cl_forms.specs.Forms.{FungibleForm, NonFungibleForm};
ghost use Rattle.cl_meaning.specs.Deploying.{with_cap};
ghost use Rattle.cl_frames.specs.Deploys.{Makes, contract_so_far, defined_by, cap_of};

use cl_frames::{Deploying, Stop, pay, pay_for};
use cl_keyed::HashKey;
use cl_shapes::{CostName, Meter};
use cl_state::World;
use cl_tables::Place;
use cl_types::Name;
use cl_values::{Kind, Val};
use indexmap::IndexMap;

/// The place of what the contract has under a name.
pub fn place_of(deploying: &Deploying, name: &Name) -> Place
    ensures contract { result.contract ≡ deploying.now.checked.now.principal }
    ensures name { result.name ≡ name.now }
{
    Place {
        contract: deploying.checked.parts().principal,
        name: *name,
    }
}

/// The supply cap that a value is.
fn cap_of(value: &Val) -> Option<u128>
    ensures { result ≡ cap_of value.now }
{
    match &value.value().kind {
        Kind::Uint(cap) => Some(*cap),
        _ => None,
    }
}

/// Charges the supply cap of a token, and puts the token in the world.
pub fn put_capped(
    deploying: &Deploying,
    constants: &IndexMap<Name, Val, HashKey>,
    name: &Name,
    cap: &Val,
    world: &mut World,
    meter: &mut Meter,
) -> Result<(), Stop>
    requires new { get (place deploying.now.checked.now.principal name.now) world.old.stack.top.fungibles ≡ None }
    ensures meant { Makes deploying.now meter.old (with_cap (contract_so_far deploying.now constants.now.entries) name.now cap.now world.old.stack.top) constants.now.entries result meter.new world.new.stack.top }
    ensures below { world.new.stack.below ≡ world.old.stack.below }
{
    match cap_of(cap) {
        Some(most) => {
            pay_for(deploying.costs, meter, CostName::Define, cap)?;
            world.define_ft(&place_of(deploying, name), Some(most))?;
            Ok(())
        }
        None => Err(Stop::Stuck),
    }
}

pub fn define_uncapped(
    deploying: &Deploying,
    constants: &IndexMap<Name, Val, HashKey>,
    name: &Name,
    world: &mut World,
    meter: &mut Meter,
) -> Result<(), Stop>
    requires new { get (place deploying.now.checked.now.principal name.now) world.old.stack.top.fungibles ≡ None }
    ensures meant { (at : Span) → Makes deploying.now meter.old (defined_by deploying.now (record { name = Some name.now; kind = FungibleForm None; span = at }) constants.now.entries world.old.stack.top) constants.now.entries result meter.new world.new.stack.top }
    ensures below { world.new.stack.below ≡ world.old.stack.below }
{
    pay(deploying.costs, meter, CostName::Define, 0)?;
    world.define_ft(&place_of(deploying, name), None)?;
    Ok(())
}

pub fn define_nonfungible(
    deploying: &Deploying,
    constants: &IndexMap<Name, Val, HashKey>,
    name: &Name,
    world: &mut World,
    meter: &mut Meter,
) -> Result<(), Stop>
    requires new { get (place deploying.now.checked.now.principal name.now) world.old.stack.top.nonfungibles ≡ None }
    ensures meant { (type : PlainType) (at : Span) → Makes deploying.now meter.old (defined_by deploying.now (record { name = Some name.now; kind = NonFungibleForm type; span = at }) constants.now.entries world.old.stack.top) constants.now.entries result meter.new world.new.stack.top }
    ensures below { world.new.stack.below ≡ world.old.stack.below }
{
    pay(deploying.costs, meter, CostName::Define, 0)?;
    world.define_nft(&place_of(deploying, name))?;
    Ok(())
}
