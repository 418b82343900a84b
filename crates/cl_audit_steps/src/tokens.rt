//! Tokens of the contract whose code is evaluated, and STX.
ghost use Rattle.std.specs.Prelude.{◌≡◌, [], IsSome, is_some, true, false};
ghost use Rattle.cl_c32.specs.declared.principal.Principal.{Principal};
ghost use Rattle.cl_events.specs.Acts.{acted};
ghost use Rattle.cl_events.specs.State.{place};
ghost use Rattle.cl_forms.specs.declared.head.TokenNative.TheVariants as natives;
ghost use Rattle.cl_maps.specs.Maps.{get};
ghost use Rattle.cl_state.specs.Rows.{ActsOn};
ghost use Rattle.cl_tables.specs.Amounts.{amount_of};
ghost use Rattle.cl_tables.specs.Deeds.{is_there};
ghost use Rattle.cl_values.specs.Computed.{Gives};
ghost use Rattle.cl_values.specs.Tree.{UintV, BoolV, SomeV, ResponseV, PrincipalV};
ghost use Rattle.cl_meaning.specs.Answers.{give, with_known};
ghost use Rattle.cl_meaning.specs.Scope.{Scope as Around, BoundValues};
ghost use Rattle.cl_meaning.specs.Tokens.{acts, answered, ft_balance_form, ft_supply_form, stx_balance_form, nft_owner_form, token_form, named_act_form};
ghost use Rattle.cl_audit_steps.specs.Seen.{seen};
ghost use Rattle.cl_audit_steps.specs.Steps.{IsLast, StartsSo, supply_read, balance_read, stx_read, owner_read, owner_given, amount_read, token_acted, stx_act};
ghost use Rattle.cl_audit_steps.specs.Acting.{Does, DoesLast, IsDone, IsGiven};
ghost use Rattle.cl_audit_steps.specs.Ways.{IsComputed};

use crate::charge::Charge;
use crate::control::wrong;
use crate::data::{act, acts, read};
use crate::items::{atom, name_and_item, name_and_rest, one};
use crate::leaves::principal_value;
use crate::scope::Scope;
use crate::step::{End, Last, OnAct, OnActs, OnRead, Start};
use crate::values::{charged_end, computed_last};
use cl_c32::Principal;
use cl_events::{Asset, EventKind};
use cl_forms::TokenNative;
use cl_operands::{act_of, burn_stx, is_valid, principal_of, send_stx, sender_refusal};
use cl_seq::{bool_value, none, response, some, uint_value};
use cl_sexpr::Sexpr;
use cl_shapes::CostName;
use cl_state::{TokenAct, World, acts_have_answers};
use cl_tables::Place;
use cl_tokens::TokenRefusal;
use cl_types::{Fault, Name, NoMemory};
use cl_values::Val;
use cl_walks::Why;
use std::alloc::Global;

// ---- first steps

/// `ft-get-supply`
pub(crate) fn ft_supply_start(items: &[Sexpr]) -> Start
    ensures { (S : Around) → StartsSo S (λ take enter s. ft_supply_form S items.now s) result }
{
    let Some(item) = one(items) else {
        return wrong();
    };
    match atom(item) {
        Some(name) => read(OnRead::Supply(name)),
        None => wrong(),
    }
}

/// `ft-get-balance`
pub(crate) fn ft_balance_start(items: &[Sexpr]) -> Start
    ensures { (S : Around) →
        StartsSo S (λ take enter s. ft_balance_form take S items.now s) result }
{
    match name_and_item(items) {
        Some((name, part)) => act(part, OnAct::ReadBalance(name)),
        None => wrong(),
    }
}

/// `stx-get-balance`
pub(crate) fn stx_balance_start(items: &[Sexpr]) -> Start
    ensures { (S : Around) →
        StartsSo S (λ take enter s. stx_balance_form take S items.now s) result }
{
    match one(items) {
        Some(part) => act(part, OnAct::ReadStx),
        None => wrong(),
    }
}

/// `nft-get-owner?`
pub(crate) fn nft_owner_start(items: &[Sexpr]) -> Start
    ensures { (S : Around) → StartsSo S (λ take enter s. nft_owner_form take S items.now s) result }
{
    match name_and_item(items) {
        Some((name, part)) => act(part, OnAct::ReadOwner(name)),
        None => wrong(),
    }
}

/// The act of a native on STX.
fn on_stx<'a>(native: TokenNative) -> Option<OnActs<'a>>
    ensures { result ≡ stx_act native }
{
    match native {
        TokenNative::SendStx => Some(OnActs::SendStx),
        TokenNative::BurnStx => Some(OnActs::BurnStx),
        _ => None,
    }
}

/// A native on a token with a name.
fn named_token_start(native: TokenNative, items: &[Sexpr]) -> Start
    ensures { (S : Around) →
        StartsSo S (λ take enter s. named_act_form native take S items.now s) result }
{
    match name_and_rest(items) {
        Some((name, parts)) => acts(parts, OnActs::Token(native, name)),
        None => wrong(),
    }
}

/// A native on tokens or STX.
pub(crate) fn token_start(native: TokenNative, items: &[Sexpr]) -> Start
    ensures { (S : Around) →
        StartsSo S (λ take enter s. token_form native take S items.now s) result }
{
    match on_stx(native) {
        Some(kind) => acts(items, kind),
        None => named_token_start(native, items),
    }
}

// ---- what is read

/// The supply of a token.
pub(crate) fn read_supply<'a>(
    world: &World,
    scope: &Scope,
    name: &Name,
) -> Result<End<'a>, NoMemory>
    ensures { (outer : BoundValues) →
        IsDone (seen scope.now outer) (supply_read (seen scope.now outer) name.now)
        world.now.stack.top result world.now.stack.top }
{
    let charge = Charge::at(CostName::ReadToken, 0)?;
    let place = Place {
        contract: scope.frame.contract,
        name: *name,
    };
    if !world.has_ft(&place) {
        return Ok(charged_end(charge, Last::Wrong));
    }
    let supply = uint_value(world.supply(&place));
    Ok(charged_end(charge, Last::Give(supply)))
}

/// What a principal has of an asset.
fn amount_held<'a>(world: &World, asset: &Asset, value: &Val) -> Result<Last<'a>, NoMemory>
    ensures { IsGiven (amount_read
        (λ who. amount_of asset.now who world.now.stack.top) value.now) result }
{
    match principal_of(value) {
        Some(who) => Ok(Last::Give(uint_value(world.balance(asset, &who)?))),
        None => Ok(Last::Wrong),
    }
}

/// What a principal has of a token.
pub(crate) fn read_balance<'a>(
    world: &World,
    scope: &Scope,
    name: &Name,
    value: Val,
) -> Result<End<'a>, NoMemory>
    ensures { (outer : BoundValues) →
        IsDone (seen scope.now outer) (balance_read (seen scope.now outer) name.now value)
        world.now.stack.top result world.now.stack.top }
{
    let charge = Charge::of(CostName::ReadToken, &value);
    let place = Place {
        contract: scope.frame.contract,
        name: *name,
    };
    if !world.has_ft(&place) {
        return Ok(charged_end(charge, Last::Wrong));
    }
    let asset = Asset::Ft(scope.frame.contract, *name);
    let last = amount_held(world, &asset, &value)?;
    Ok(charged_end(charge, last))
}

/// What a principal has of STX.
pub(crate) fn read_stx<'a>(world: &World, value: Val) -> Result<End<'a>, NoMemory>
    ensures { (S : Around) →
        IsDone S (stx_read value) world.now.stack.top result world.now.stack.top }
{
    let charge = Charge::of(CostName::ReadToken, &value);
    let asset = Asset::Stx;
    let last = amount_held(world, &asset, &value)?;
    Ok(charged_end(charge, last))
}

/// A principal as an optional value.
fn some_principal<'a>(alloc: Global, principal: Principal) -> Result<Last<'a>, NoMemory>
    ensures { IsGiven (give (SomeV (PrincipalV principal))) result }
{
    is_valid(&principal);
    computed_last(some(alloc, principal_value(principal)))
}

/// The owner of an asset, as an optional value.
fn owner_value<'a>(alloc: Global, owner: Option<Principal>) -> Result<Last<'a>, NoMemory>
    ensures { IsGiven (owner_given owner) result }
{
    match owner {
        Some(owner) => some_principal(alloc, owner),
        None => Ok(Last::Give(none())),
    }
}

/// The owner of an asset.
pub(crate) fn read_owner<'a>(
    world: &World,
    scope: &Scope,
    name: &Name,
    id: Val,
) -> Result<End<'a>, NoMemory>
    ensures { (outer : BoundValues) →
        IsDone (seen scope.now outer) (owner_read (seen scope.now outer) name.now id)
        world.now.stack.top result world.now.stack.top }
{
    let charge = Charge::of(CostName::ReadToken, &id);
    let place = Place {
        contract: scope.frame.contract,
        name: *name,
    };
    if !world.has_nft(&place) {
        return Ok(charged_end(charge, Last::Wrong));
    }
    let owner = world.owner(&place, &id)?;
    Ok(charged_end(charge, owner_value(scope.alloc, owner)?))
}

// ---- acts

fn has_ft(world: &World, contract: Principal, token: &Name) -> bool
    ensures { result ≡ is_some (get (place contract token.now) world.now.stack.top.fungibles) }
{
    world.has_ft(&Place {
        contract,
        name: *token,
    })
}

fn has_nft(world: &World, contract: Principal, token: &Name) -> bool
    ensures { result ≡ is_some (get (place contract token.now) world.now.stack.top.nonfungibles) }
{
    world.has_nft(&Place {
        contract,
        name: *token,
    })
}

/// Whether there is the token that an act is on.
fn is_there(world: &World, contract: Principal, kind: &EventKind) -> bool
    ensures { result ≡ is_there contract kind.now world.now.stack.top }
{
    match kind {
        EventKind::Print(_) => false,
        EventKind::FtMint { token, .. } => has_ft(world, contract, token),
        EventKind::FtTransfer { token, .. } => has_ft(world, contract, token),
        EventKind::FtBurn { token, .. } => has_ft(world, contract, token),
        EventKind::NftMint { token, .. } => has_nft(world, contract, token),
        EventKind::NftTransfer { token, .. } => has_nft(world, contract, token),
        EventKind::NftBurn { token, .. } => has_nft(world, contract, token),
        EventKind::StxTransfer { .. } => true,
        EventKind::StxBurn { .. } => true,
    }
}

/// The answer with the number of a refusal.
fn refusal_answer<'a>(alloc: Global, number: u8) -> Result<Last<'a>, NoMemory>
    ensures { IsComputed (Gives (ResponseV false (UintV number))) result }
{
    computed_last(response(alloc, false, uint_value(u128::from(number))))
}

/// The answer of an act that is done.
fn success_answer<'a>(alloc: Global) -> Result<Last<'a>, NoMemory>
    ensures { IsComputed (Gives (ResponseV true (BoolV true))) result }
{
    computed_last(response(alloc, true, bool_value(true)))
}

/// Does an act in the world.
fn perform(
    contract: Principal,
    kind: EventKind,
    world: &mut World,
) -> Result<(), Fault<TokenRefusal>>
    requires { IsSome (acted contract kind world.old.stack.top) }
    ensures { ActsOn (acted contract kind world.old.stack.top)
        world.old.stack result world.new.stack }
{
    world.token(TokenAct { contract, kind })
}

/// Does an act that the sender may do.
fn act_there<'a>(world: &mut World, scope: &Scope, kind: EventKind) -> Result<Last<'a>, NoMemory>
    ensures { (S : Around) →
        DoesLast S (λ s. answered s (acted scope.now.frame.now.contract kind s))
        world.old.stack result world.new.stack }
{
    acts_have_answers();
    if !is_there(world, scope.frame.contract, &kind) {
        return Ok(Last::Wrong);
    }
    match perform(scope.frame.contract, kind, world) {
        Ok(()) => success_answer(scope.alloc),
        Err(Fault::Refused(TokenRefusal::Code(number))) => refusal_answer(scope.alloc, number),
        Err(Fault::Refused(TokenRefusal::SupplyOverflow)) => Ok(Last::Abort(Why::Supply)),
        Err(Fault::NoMemory) => Err(NoMemory),
    }
}

/// Does an act in the frame.
fn act_in_frame<'a>(world: &mut World, scope: &Scope, kind: EventKind) -> Result<Last<'a>, NoMemory>
    ensures { (outer : BoundValues) →
        DoesLast (seen scope.now outer) (acts (seen scope.now outer) kind)
        world.old.stack result world.new.stack }
{
    match sender_refusal(&scope.frame.sender, &kind) {
        Some(number) => refusal_answer(scope.alloc, number),
        None => act_there(world, scope, kind),
    }
}

/// Does an act, where the arguments are of its types.
fn act_if<'a>(
    world: &mut World,
    scope: &Scope,
    kind: Option<EventKind>,
) -> Result<Last<'a>, NoMemory>
    ensures { (outer : BoundValues) →
        DoesLast (seen scope.now outer) (with_known kind (acts (seen scope.now outer)))
        world.old.stack result world.new.stack }
{
    match kind {
        Some(kind) => act_in_frame(world, scope, kind),
        None => Ok(Last::Wrong),
    }
}

/// A native on a token with a name, on values.
pub(crate) fn act_on<'a>(
    world: &mut World,
    scope: &Scope,
    native: TokenNative,
    name: &Name,
    values: Vec<Val>,
) -> Result<End<'a>, NoMemory>
    ensures { (outer : BoundValues) → Does (seen scope.now outer)
        (token_acted native (seen scope.now outer) name.now values.items)
        world.old.stack result world.new.stack }
{
    let charge = Charge::of_all(CostName::WriteToken, &values)?;
    let last = act_if(world, scope, act_of(native, name, values))?;
    Ok(charged_end(charge, last))
}

/// `stx-transfer?` on values.
pub(crate) fn send<'a>(
    world: &mut World,
    scope: &Scope,
    values: Vec<Val>,
) -> Result<End<'a>, NoMemory>
    ensures { (outer : BoundValues) → Does (seen scope.now outer)
        (token_acted natives.SendStx (seen scope.now outer) [] values.items)
        world.old.stack result world.new.stack }
{
    let charge = Charge::of_all(CostName::WriteToken, &values)?;
    let last = act_if(world, scope, send_stx(values))?;
    Ok(charged_end(charge, last))
}

/// `stx-burn?` on values.
pub(crate) fn burn<'a>(
    world: &mut World,
    scope: &Scope,
    values: Vec<Val>,
) -> Result<End<'a>, NoMemory>
    ensures { (outer : BoundValues) → Does (seen scope.now outer)
        (token_acted natives.BurnStx (seen scope.now outer) [] values.items)
        world.old.stack result world.new.stack }
{
    let charge = Charge::of_all(CostName::WriteToken, &values)?;
    let last = act_if(world, scope, burn_stx(values))?;
    Ok(charged_end(charge, last))
}
