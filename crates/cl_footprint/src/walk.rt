//! The spots and functions that a typed tree uses.
ghost use Rattle.std.specs.Prelude.{◌≡◌, List, [], ◌∷◌, map, OnOk};
ghost use Rattle.cl_c32.specs.declared.principal.Principal.{Principal as Who};
ghost use Rattle.cl_code.specs.Expression.{target_leaf};
ghost use Rattle.cl_code.specs.Typed.{expression_of};
ghost use Rattle.cl_forms.specs.Shapes.{beside, principal_named};
ghost use Rattle.cl_tables.specs.declared.place.Place.{Place as PlaceSeen};
ghost use Rattle.cl_meaning.specs.Deployed.{Deployed as DeployedSeen, contract_at};
ghost use Rattle.cl_contracts.specs.Seen.{deployed_seen};
ghost use Rattle.cl_tables.specs.declared.spot.Spot.{Spot as SpotSeen};
ghost use Rattle.cl_touch.specs.Touches.{natives_at};
ghost use Rattle.cl_touch.specs.Uses.{Applies, Crosses, crossing, of_own, uses_in};
ghost use Rattle.cl_footprint.specs.NodeUses.{uses_by_name, uses_by_parts, uses_of_applied, uses_of_each, uses_of_node};
ghost use Rattle.cl_footprint.specs.Going.{AllGoIn, GoesIn};
ghost use Rattle.cl_footprint.specs.Gathering.{gathered, with_uses};

use crate::gathered::{add_function, add_spot, add_written};
use cl_c32::{ContractName, Principal};
use cl_code::{Applied, Code, NameNative, Op, PartsNative, Target};
use cl_contracts::Deployed;
use cl_keyed::HashKey;
use cl_spots::Spot;
use cl_tables::Place;
use cl_types::{Name, NoMemory};
use indexmap::IndexSet;

/// Adds what a native without a name uses.
fn add_parts_native(
    touched: &mut IndexSet<Spot, HashKey>,
    written: &mut IndexSet<Spot, HashKey>,
    native: PartsNative,
) -> Result<(), NoMemory>
    ensures { OnOk result ((W : DeployedSeen) (p : Who) (reached : List PlaceSeen) →
        gathered reached touched.new.keys written.new.keys
        ≡ with_uses W p (uses_by_parts native)
        (gathered reached touched.old.keys written.old.keys)) }
{
    match native {
        PartsNative::StxBalance => add_spot(touched, &Spot::Stx),
        PartsNative::SendStx | PartsNative::BurnStx => { add_written(touched, written, &Spot::Stx) }
        _ => Ok(()),
    }
}

/// The place of a name in a contract.
pub(crate) fn at_own(own: &Principal, name: &Name) -> Place
    ensures { result ≡ of_own own.now name.now }
{
    Place {
        contract: *own,
        name: *name,
    }
}

/// Adds what a native with a name uses.
fn add_name_native(
    own: &Principal,
    touched: &mut IndexSet<Spot, HashKey>,
    written: &mut IndexSet<Spot, HashKey>,
    native: NameNative,
    name: &Name,
) -> Result<(), NoMemory>
    ensures { OnOk result ((W : DeployedSeen) (reached : List PlaceSeen) →
        gathered reached touched.new.keys written.new.keys
        ≡ with_uses W own.now (uses_by_name own.now native name.now)
        (gathered reached touched.old.keys written.old.keys)) }
{
    match native {
        NameNative::Get => Ok(()),
        NameNative::VarGet => add_spot(touched, &Spot::Variable(at_own(own, name))),
        NameNative::VarSet => add_written(touched, written, &Spot::Variable(at_own(own, name))),
        NameNative::MapGet => add_spot(touched, &Spot::MapOf(at_own(own, name))),
        NameNative::MapSet | NameNative::MapInsert | NameNative::MapDelete => {
            add_written(touched, written, &Spot::MapOf(at_own(own, name)))
        }
        NameNative::FtBalance | NameNative::FtSupply | NameNative::NftOwner => {
            add_spot(touched, &Spot::Token(at_own(own, name)))
        }
        NameNative::MintFt
        | NameNative::BurnFt
        | NameNative::SendFt
        | NameNative::MintNft
        | NameNative::BurnNft
        | NameNative::SendNft => add_written(touched, written, &Spot::Token(at_own(own, name))),
    }
}

/// Adds a function of the contract.
fn add_own(
    own: &Principal,
    reached: &mut IndexSet<Place, HashKey>,
    name: &Name,
) -> Result<(), NoMemory>
    ensures { OnOk result ((W : DeployedSeen) (touched written : List SpotSeen) →
        gathered reached.new.keys touched written
        ≡ with_uses W own.now (Applies name.now ∷ [])
        (gathered reached.old.keys touched written)) }
{
    add_function(reached, &at_own(own, name))?;
    Ok(())
}

/// Adds the function that is given by name to `map`, `filter` or `fold`.
fn add_applied(
    own: &Principal,
    reached: &mut IndexSet<Place, HashKey>,
    applied: &Applied,
) -> Result<(), NoMemory>
    ensures { OnOk result ((W : DeployedSeen) (touched written : List SpotSeen) →
        gathered reached.new.keys touched written
        ≡ with_uses W own.now (uses_of_applied applied.now)
        (gathered reached.old.keys touched written)) }
{
    match applied {
        Applied::Function(function) => {
            add_own(own, reached, &function.name)?;
            Ok(())
        }
        _ => Ok(()),
    }
}

/// Adds a function of the contract of a principal, if one is deployed there.
fn add_deployed(
    deployed: &Deployed,
    reached: &mut IndexSet<Place, HashKey>,
    principal: &Principal,
    name: &Name,
) -> Result<(), NoMemory>
    ensures { OnOk result ((p : Who) (touched written : List SpotSeen) →
        gathered reached.new.keys touched written
        ≡ with_uses (deployed_seen deployed.now) p (Crosses principal.now name.now ∷ [])
        (gathered reached.old.keys touched written)) }
{
    match deployed.find(principal) {
        Some(_) => {
            add_own(principal, reached, name)?;
            Ok(())
        }
        None => Ok(()),
    }
}

/// The contract of a name, deployed by the same sender as a contract.
fn beside(own: &Principal, name: &ContractName) -> Principal
    ensures { result ≡ beside own.now name.now }
{
    Principal {
        address: own.address,
        contract: Some(*name),
    }
}

/// Adds a function of another contract.
fn add_target(
    deployed: &Deployed,
    own: &Principal,
    reached: &mut IndexSet<Place, HashKey>,
    target: &Target,
    name: &Name,
) -> Result<(), NoMemory>
    ensures { OnOk result ((touched written : List SpotSeen) →
        gathered reached.new.keys touched written
        ≡ with_uses (deployed_seen deployed.now)
        own.now (crossing (principal_named own.now (target_leaf target.now)) name.now)
        (gathered reached.old.keys touched written)) }
{
    match target {
        Target::Standing(principal, _) => {
            add_deployed(deployed, reached, principal, name)?;
            Ok(())
        }
        Target::Local(contract, _) => {
            let principal = beside(own, contract);
            add_deployed(deployed, reached, &principal, name)?;
            Ok(())
        }
    }
}

/// Adds what a node uses by itself.
fn add_node(
    deployed: &Deployed,
    own: &Principal,
    reached: &mut IndexSet<Place, HashKey>,
    touched: &mut IndexSet<Spot, HashKey>,
    written: &mut IndexSet<Spot, HashKey>,
    op: &Op,
) -> Result<(), NoMemory>
    ensures { OnOk result (
        gathered reached.new.keys touched.new.keys written.new.keys
        ≡ with_uses (deployed_seen deployed.now) own.now (uses_of_node own.now op.now)
        (gathered reached.old.keys touched.old.keys written.old.keys)) }
{
    match op {
        Op::OnParts { native, .. } => {
            add_parts_native(touched, written, *native)?;
            Ok(())
        }
        Op::OnName { native, name, .. } => {
            add_name_native(own, touched, written, *native, &name.name)?;
            Ok(())
        }
        Op::Iterate { applied, .. } => {
            add_applied(own, reached, applied)?;
            Ok(())
        }
        Op::Call(function) => {
            add_own(own, reached, &function.name)?;
            Ok(())
        }
        Op::ContractCall {
            target,
            function,
            ..
        } => {
            add_target(deployed, own, reached, target, &function.name)?;
            Ok(())
        }
        _ => Ok(()),
    }
}

/// Adds what an expression of a contract uses.
#[cycle(walking)]
pub(crate) fn walk(
    deployed: &Deployed,
    own: &Principal,
    reached: &mut IndexSet<Place, HashKey>,
    touched: &mut IndexSet<Spot, HashKey>,
    written: &mut IndexSet<Spot, HashKey>,
    code: &Code,
) -> Result<(), NoMemory>
    requires { GoesIn (contract_at own.now (deployed_seen deployed.now)) code.now }
    ensures { OnOk result (
        gathered reached.new.keys touched.new.keys written.new.keys
        ≡ with_uses (deployed_seen deployed.now)
        own.now (uses_in (natives_at own.now (deployed_seen deployed.now)) own.now
        (expression_of code.now))
        (gathered reached.old.keys touched.old.keys written.old.keys)) }
{
    add_node(deployed, own, reached, touched, written, &code.op)?;
    walk_parts(deployed, own, reached, touched, written, &code.parts)?;
    Ok(())
}

/// Adds what these parts use.
#[cycle(walking)]
fn walk_parts(
    deployed: &Deployed,
    own: &Principal,
    reached: &mut IndexSet<Place, HashKey>,
    touched: &mut IndexSet<Spot, HashKey>,
    written: &mut IndexSet<Spot, HashKey>,
    parts: &[Code],
) -> Result<(), NoMemory>
    requires { AllGoIn (contract_at own.now (deployed_seen deployed.now)) parts.now }
    ensures { OnOk result (
        gathered reached.new.keys touched.new.keys written.new.keys
        ≡ with_uses (deployed_seen deployed.now)
        own.now (uses_of_each (natives_at own.now (deployed_seen deployed.now)) own.now
        (map expression_of parts.now))
        (gathered reached.old.keys touched.old.keys written.old.keys)) }
{
    for part in parts {
        walk(deployed, own, reached, touched, written, part)?;
    }
    Ok(())
}
