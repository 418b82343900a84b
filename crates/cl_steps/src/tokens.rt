//! Natives on tokens and STX, where the values of their parts are there.
ghost use Rattle.std.specs.Prelude.{◌≡◌, ◌<◌, [], length, IsSome, is_some, true, false};
ghost use Rattle.cl_c32.specs.declared.principal.Principal.{Principal};
ghost use Rattle.cl_shapes.specs.Limits.{Purse};
ghost use Rattle.cl_values.specs.Tree.{UintV, BoolV, SomeV, ResponseV, PrincipalV};
ghost use Rattle.cl_values.specs.Computed.{Gives};
ghost use Rattle.cl_events.specs.State.{State, place};
ghost use Rattle.cl_maps.specs.Maps.{get};
ghost use Rattle.cl_events.specs.Acts.{acted, sender_refusal};
ghost use Rattle.cl_events.specs.declared.event.EventKind.TheVariants.{StxTransfer, StxBurn};
ghost use Rattle.cl_forms.specs.declared.head.TokenNative.TheVariants as natives;
ghost use Rattle.cl_tables.specs.Deeds.{is_there};
ghost use Rattle.cl_tables.specs.Amounts.{amount_of};
ghost use Rattle.cl_state.specs.Rows.{ActsOn};
ghost use Rattle.cl_meaning.specs.Answers.{outcome_of, with_known, give};
ghost use Rattle.cl_meaning.specs.Limits.{Costs, limited};
ghost use Rattle.cl_meaning.specs.Tokens.{acts, answered};
ghost use Rattle.cl_frames.specs.Runs.{Ends, Runs, Computes};
ghost use Rattle.cl_frames.specs.Seen.{scope};
ghost use Rattle.cl_frames.specs.Tails.{supply_read, balance_read, stx_read, owner_read, amount_read, token_acted};

use crate::acts::{act_of, burn_stx, principal_of, send_stx};
use crate::literals::principal_value;
use crate::natives::computed;
use cl_c32::Principal;
use cl_calls::{is_valid_principal, same};
use cl_events::{Asset, EventKind};
use cl_forms::TokenNative;
use cl_frames::{Context, Names, Stop, pay, pay_for, pay_for_all};
use cl_seq::{bool_value, none, response, some, uint_value};
use cl_shapes::{CostName, Meter};
use cl_state::{TokenAct, World, acts_have_answers};
use cl_tables::Place;
use cl_tokens::TokenRefusal;
use cl_types::{Fault, Name};
use cl_values::Val;

/// The supply of a token.
pub(crate) fn read_supply(
    context: &Context,
    names: &Names,
    name: &Name,
    world: &World,
    meter: &mut Meter,
) -> Result<Val, Stop>
    ensures { Runs context.now meter.old (supply_read (scope context.now names.now) name.now world.now.stack.top) result meter.new world.now.stack.top }
{
    pay(context.costs, meter, CostName::ReadToken, 0)?;
    let place = Place {
        contract: context.frame.contract,
        name: *name,
    };
    if !world.has_ft(&place) {
        return Err(Stop::Stuck);
    }
    Ok(uint_value(world.supply(&place)))
}

/// What a principal has of an asset.
fn amount_held(world: &World, asset: &Asset, value: &Val) -> Result<Val, Stop>
    ensures { (costs : Costs) (p : Purse) → Ends (limited costs p (amount_read (λ who. amount_of asset.now who world.now.stack.top) value.now world.now.stack.top)) result p world.now.stack.top }
{
    match principal_of(value) {
        Some(who) => Ok(uint_value(world.balance(asset, &who)?)),
        None => Err(Stop::Stuck),
    }
}

/// What a principal has of a token.
pub(crate) fn read_balance(
    context: &Context,
    names: &Names,
    name: &Name,
    value: Val,
    world: &World,
    meter: &mut Meter,
) -> Result<Val, Stop>
    ensures { Runs context.now meter.old (balance_read (scope context.now names.now) name.now value world.now.stack.top) result meter.new world.now.stack.top }
{
    pay_for(context.costs, meter, CostName::ReadToken, &value)?;
    let place = Place {
        contract: context.frame.contract,
        name: *name,
    };
    if !world.has_ft(&place) {
        return Err(Stop::Stuck);
    }
    let asset = Asset::Ft(context.frame.contract, *name);
    amount_held(world, &asset, &value)
}

/// What a principal has of STX.
pub fn read_stx(
    context: &Context,
    value: Val,
    world: &World,
    meter: &mut Meter,
) -> Result<Val, Stop>
    ensures { Runs context.now meter.old (stx_read value world.now.stack.top) result meter.new world.now.stack.top }
{
    pay_for(context.costs, meter, CostName::ReadToken, &value)?;
    let asset = Asset::Stx;
    amount_held(world, &asset, &value)
}

/// An optional value with a principal.
fn some_principal(context: &Context, principal: Principal) -> Result<Val, Stop>
    ensures { (costs : Costs) (p : Purse) (s : State) → Ends (limited costs p (give (SomeV (PrincipalV principal)) s)) result p s }
{
    is_valid_principal(&principal);
    computed(some(context.alloc, principal_value(principal)))
}

/// The owner of an asset.
pub(crate) fn read_owner(
    context: &Context,
    names: &Names,
    name: &Name,
    id: Val,
    world: &World,
    meter: &mut Meter,
) -> Result<Val, Stop>
    ensures { Runs context.now meter.old (owner_read (scope context.now names.now) name.now id world.now.stack.top) result meter.new world.now.stack.top }
{
    pay_for(context.costs, meter, CostName::ReadToken, &id)?;
    let place = Place {
        contract: context.frame.contract,
        name: *name,
    };
    if !world.has_nft(&place) {
        return Err(Stop::Stuck);
    }
    match world.owner(&place, &id)? {
        Some(owner) => some_principal(context, owner),
        None => Ok(none()),
    }
}

/// The number with which a transfer of STX is refused by the tests up to that of the sender.
fn transfer_refusal(
    sender: &Principal,
    amount: u128,
    from: &Principal,
    to: &Principal,
) -> Option<u8>
    ensures { result ≡ sender_refusal sender.now (StxTransfer amount from.now to.now) }
{
    if amount == 0 {
        Some(3)
    } else if same(from, to) {
        Some(2)
    } else if same(from, sender) {
        None
    } else {
        Some(4)
    }
}

/// The number with which a burn of STX is refused by the tests up to that of the sender.
fn burn_refusal(sender: &Principal, amount: u128, from: &Principal) -> Option<u8>
    ensures { result ≡ sender_refusal sender.now (StxBurn amount from.now) }
{
    if amount == 0 {
        Some(3)
    } else if same(from, sender) {
        None
    } else {
        Some(4)
    }
}

/// The number with which an act is refused by the tests up to that of the sender.
fn sender_refusal(sender: &Principal, kind: &EventKind) -> Option<u8>
    ensures { result ≡ sender_refusal sender.now kind.now }
{
    match kind {
        EventKind::StxTransfer { amount, from, to } => transfer_refusal(sender, *amount, from, to),
        EventKind::StxBurn { amount, from } => burn_refusal(sender, *amount, from),
        EventKind::Print(_)
        | EventKind::FtMint { .. }
        | EventKind::FtTransfer { .. }
        | EventKind::FtBurn { .. }
        | EventKind::NftMint { .. }
        | EventKind::NftTransfer { .. }
        | EventKind::NftBurn { .. } => None,
    }
}

fn has_ft(world: &World, contract: Principal, token: &Name) -> bool
    ensures { result ≡ is_some (get (place contract token.now) world.now.stack.top.fungibles) }
{
    world.has_ft(&Place {
        contract,
        name: *token,
    })
}

fn has_nft(world: &World, contract: Principal, token: &Name) -> bool
    ensures { result ≡ is_some (get (place contract token.now) world.now.stack.top.nonfungibles) }
{
    world.has_nft(&Place {
        contract,
        name: *token,
    })
}

/// Whether there is the token that an act is on.
fn is_there(world: &World, contract: Principal, kind: &EventKind) -> bool
    ensures { result ≡ is_there contract kind.now world.now.stack.top }
{
    match kind {
        EventKind::Print(_) => false,
        EventKind::FtMint { token, .. } => has_ft(world, contract, token),
        EventKind::FtTransfer { token, .. } => has_ft(world, contract, token),
        EventKind::FtBurn { token, .. } => has_ft(world, contract, token),
        EventKind::NftMint { token, .. } => has_nft(world, contract, token),
        EventKind::NftTransfer { token, .. } => has_nft(world, contract, token),
        EventKind::NftBurn { token, .. } => has_nft(world, contract, token),
        EventKind::StxTransfer { .. } => true,
        EventKind::StxBurn { .. } => true,
    }
}

/// The answer with the number of a refusal.
fn refused(context: &Context, number: u8) -> Result<Val, Stop>
    ensures { Computes (outcome_of (Gives (ResponseV false (UintV number)))) result }
{
    computed(response(context.alloc, false, uint_value(u128::from(number))))
}

/// The answer of an act that is done.
fn done(context: &Context) -> Result<Val, Stop>
    ensures { Computes (outcome_of (Gives (ResponseV true (BoolV true)))) result }
{
    computed(response(context.alloc, true, bool_value(true)))
}

/// Does an act of a contract's code in the world.
fn perform(
    contract: Principal,
    kind: EventKind,
    world: &mut World,
) -> Result<(), Fault<TokenRefusal>>
    requires { IsSome (acted contract kind world.old.stack.top) }
    ensures { ActsOn (acted contract kind world.old.stack.top) world.old.stack result world.new.stack }
{
    world.token(TokenAct { contract, kind })
}

/// Does an act that the sender may do.
fn act_there(context: &Context, kind: EventKind, world: &mut World) -> Result<Val, Stop>
    ensures meant { (costs : Costs) (p : Purse) → Ends (limited costs p (answered world.old.stack.top (acted context.now.frame.now.contract kind world.old.stack.top))) result p world.new.stack.top }
    ensures below { world.new.stack.below ≡ world.old.stack.below }
{
    acts_have_answers();
    if !is_there(world, context.frame.contract, &kind) {
        return Err(Stop::Stuck);
    }
    match perform(context.frame.contract, kind, world) {
        Ok(()) => done(context),
        Err(Fault::Refused(TokenRefusal::Code(number))) => refused(context, number),
        Err(Fault::Refused(TokenRefusal::SupplyOverflow)) => Err(Stop::Supply),
        Err(Fault::NoMemory) => Err(Stop::NoMemory),
    }
}

/// Does an act in the frame.
fn act(context: &Context, names: &Names, kind: EventKind, world: &mut World) -> Result<Val, Stop>
    ensures meant { (p : Purse) → Runs context.now p (acts (scope context.now names.now) kind world.old.stack.top) result p world.new.stack.top }
    ensures below { world.new.stack.below ≡ world.old.stack.below }
{
    match sender_refusal(&context.frame.sender, &kind) {
        Some(number) => refused(context, number),
        None => act_there(context, kind, world),
    }
}

/// Does an act, where the values fit one.
fn act_if(
    context: &Context,
    names: &Names,
    kind: Option<EventKind>,
    world: &mut World,
) -> Result<Val, Stop>
    ensures meant { (p : Purse) → Runs context.now p (with_known kind (acts (scope context.now names.now)) world.old.stack.top) result p world.new.stack.top }
    ensures below { world.new.stack.below ≡ world.old.stack.below }
{
    match kind {
        Some(kind) => act(context, names, kind, world),
        None => Err(Stop::Stuck),
    }
}

/// A native on a token with a name.
pub(crate) fn act_on(
    context: &Context,
    names: &Names,
    native: TokenNative,
    name: &Name,
    values: Vec<Val>,
    world: &mut World,
    meter: &mut Meter,
) -> Result<Val, Stop>
    requires { length values.items < 1048576 }
    ensures meant { Runs context.now meter.old (token_acted native (scope context.now names.now) name.now values.items world.old.stack.top) result meter.new world.new.stack.top }
    ensures below { world.new.stack.below ≡ world.old.stack.below }
{
    pay_for_all(context.costs, meter, CostName::WriteToken, &values)?;
    let kind = act_of(native, name, values);
    act_if(context, names, kind, world)
}

/// A transfer of STX.
pub fn transfer_stx(
    context: &Context,
    names: &Names,
    values: Vec<Val>,
    world: &mut World,
    meter: &mut Meter,
) -> Result<Val, Stop>
    requires { length values.items < 1048576 }
    ensures meant { Runs context.now meter.old (token_acted natives.SendStx (scope context.now names.now) [] values.items world.old.stack.top) result meter.new world.new.stack.top }
    ensures below { world.new.stack.below ≡ world.old.stack.below }
{
    pay_for_all(context.costs, meter, CostName::WriteToken, &values)?;
    let kind = send_stx(values);
    act_if(context, names, kind, world)
}

/// A burn of STX.
pub fn destroy_stx(
    context: &Context,
    names: &Names,
    values: Vec<Val>,
    world: &mut World,
    meter: &mut Meter,
) -> Result<Val, Stop>
    requires { length values.items < 1048576 }
    ensures meant { Runs context.now meter.old (token_acted natives.BurnStx (scope context.now names.now) [] values.items world.old.stack.top) result meter.new world.new.stack.top }
    ensures below { world.new.stack.below ≡ world.old.stack.below }
{
    pay_for_all(context.costs, meter, CostName::WriteToken, &values)?;
    let kind = burn_stx(values);
    act_if(context, names, kind, world)
}
