//! Literals, keywords, bound names and constants.
ghost use Rattle.std.specs.Prelude.{◌≡◌, ◌<◌, false, IfOk, option_copied};
ghost use Rattle.cl_c32.specs.declared.principal.Principal.{Principal};
ghost use Rattle.cl_events.specs.State.{State};
ghost use Rattle.cl_forms.specs.Names.{is_one_of};
ghost use Rattle.cl_forms.specs.Keywords.{keyword_name, keywords};
ghost use Rattle.cl_shapes.specs.declared.name.CostName.TheVariants.{Literal};
ghost use Rattle.cl_values.specs.Tree.{BuffV, AsciiV, Utf8V, PrincipalV, depth_of};
ghost use Rattle.cl_values.specs.View.{tree_of};
ghost use Rattle.cl_values.specs.Valid.{made};
ghost use Rattle.cl_meaning.specs.Deployed.{value_of};
ghost use Rattle.cl_meaning.specs.Names.{name_form, standing, literal};
ghost use Rattle.cl_frames.specs.Runs.{Runs};
ghost use Rattle.cl_frames.specs.Seen.{scope, Fits};

use cl_c32::Principal;
use cl_forms::Keyword;
use cl_frames::{Context, Names, Stop, pay_for};
use cl_keyed::HashKey;
use cl_seq::{bool_value, int_value, none, uint_value};
use cl_shapes::{CostName, Meter};
use cl_types::{Name, NoMemory};
use cl_values::{Kind, Val, Value};
use indexmap::IndexMap;
use std::alloc::Global;

/// A value that stands there, charged by its size.
pub fn stands(context: &Context, cost: CostName, value: Val, meter: &mut Meter) -> Result<Val, Stop>
    ensures { (s : State) → Runs context.now meter.old (standing cost value s) result meter.new s }
{
    pay_for(context.costs, meter, cost, &value)?;
    Ok(value)
}

/// A copy of a value. A number is made anew, which takes less.
#[inline]
fn copied(alloc: Global, value: &Val) -> Result<Val, NoMemory>
    ensures { IfOk result (λ copy. copy ≡ value.now) }
{
    match &value.value().kind {
        Kind::Int(number) => Ok(int_value(*number)),
        Kind::Uint(number) => Ok(uint_value(*number)),
        _ => value.copy(alloc),
    }
}

/// A copy of a value that stands there, charged by its size.
fn reads(context: &Context, cost: CostName, value: &Val, meter: &mut Meter) -> Result<Val, Stop>
    ensures { (s : State) → Runs context.now meter.old (standing cost value.now s) result meter.new s }
{
    pay_for(context.costs, meter, cost, value)?;
    Ok(copied(context.alloc, value)?)
}

/// A literal of bytes or characters, where they are a value.
fn literal(context: &Context, kind: Kind, meter: &mut Meter) -> Result<Val, Stop>
    requires { depth_of (tree_of kind) ≡ 1 }
    ensures { (s : State) → Runs context.now meter.old (literal (made (tree_of kind)) s) result meter.new s }
{
    match Val::make(Value { kind }) {
        Ok(value) => stands(context, CostName::Literal, value, meter),
        Err(_) => Err(Stop::Stuck),
    }
}

/// A buffer.
pub fn buff_literal(context: &Context, bytes: &[u8], meter: &mut Meter) -> Result<Val, Stop>
    ensures { (s : State) → Runs context.now meter.old (literal (made (BuffV bytes.now)) s) result meter.new s }
{
    let bytes = bytes.to_vec(context.alloc)?;
    literal(context, Kind::Buff(bytes), meter)
}

/// A string of ASCII characters.
pub fn ascii_literal(context: &Context, bytes: &[u8], meter: &mut Meter) -> Result<Val, Stop>
    ensures { (s : State) → Runs context.now meter.old (literal (made (AsciiV bytes.now)) s) result meter.new s }
{
    let bytes = bytes.to_vec(context.alloc)?;
    literal(context, Kind::Ascii(bytes), meter)
}

/// A string of Unicode characters.
pub fn utf8_literal(context: &Context, characters: &[char], meter: &mut Meter) -> Result<Val, Stop>
    ensures { (s : State) → Runs context.now meter.old (literal (made (Utf8V characters.now)) s) result meter.new s }
{
    let characters = characters.to_vec(context.alloc)?;
    literal(context, Kind::Utf8(characters), meter)
}

/// A principal as a value.
pub(crate) fn principal_value(principal: Principal) -> Val
    ensures { result ≡ PrincipalV principal }
{
    match Val::make(Value {
        kind: Kind::Principal(principal),
    }) {
        Ok(value) => value,
        Err(_) => unreachable!(),
    }
}

/// A principal that is written out.
pub fn principal_literal(
    context: &Context,
    principal: Principal,
    meter: &mut Meter,
) -> Result<Val, Stop>
    ensures { (s : State) → Runs context.now meter.old (standing Literal (PrincipalV principal) s) result meter.new s }
{
    stands(
        context,
        CostName::Literal,
        principal_value(principal),
        meter,
    )
}

/// A keyword.
pub fn keyword(
    context: &Context,
    names: &Names,
    keyword: Keyword,
    meter: &mut Meter,
) -> Result<Val, Stop>
    ensures { (s : State) → Runs context.now meter.old (name_form (scope context.now names.now) (keyword_name keyword) s) result meter.new s }
{
    let frame = context.frame;
    match keyword {
        Keyword::True => stands(context, CostName::Literal, bool_value(true), meter),
        Keyword::False => stands(context, CostName::Literal, bool_value(false), meter),
        Keyword::None => stands(context, CostName::Literal, none(), meter),
        Keyword::TxSender => {
            let value = principal_value(frame.sender);
            stands(context, CostName::Context, value, meter)
        }
        Keyword::ContractCaller => {
            let value = principal_value(frame.caller);
            stands(context, CostName::Context, value, meter)
        }
        Keyword::BlockHeight => {
            let value = uint_value(frame.height);
            stands(context, CostName::Context, value, meter)
        }
    }
}

/// The value of a constant.
#[tactic(auto, using(cl_contracts::proofs::Places::value_under))]
fn constant<'a>(constants: &'a IndexMap<Name, Val, HashKey>, name: &Name) -> Option<&'a Val>
    ensures { option_copied result ≡ value_of name.now constants.now.entries }
{
    constants.get(name)
}

/// A name: a bound one, or else a constant.
pub fn named(context: &Context, names: &Names, name: &Name, meter: &mut Meter) -> Result<Val, Stop>
    requires { is_one_of keywords name.now ≡ false }
    ensures { (s : State) → Fits context.now → Runs context.now meter.old (name_form (scope context.now names.now) name.now s) result meter.new s }
{
    match names.find(name) {
        Some(value) => reads(context, CostName::Lookup, value, meter),
        None => match constant(context.home.constants, name) {
            Some(value) => reads(context, CostName::Lookup, value, meter),
            None => Err(Stop::Stuck),
        },
    }
}
