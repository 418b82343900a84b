//! Each native by its row.
ghost use Rattle.std.specs.Prelude.{◌≡◌, ◌∷◌, [], true};
ghost use Rattle.cl_values.specs.declared.native.Arity.TheVariants.{One, Two, Three, Each};
ghost use Rattle.cl_values.specs.Tree.{UintV};
ghost use Rattle.cl_values.specs.Computed.{Computed, Gives};
ghost use Rattle.cl_values.specs.Applied.{Answered, Applied};
ghost use Rattle.cl_values.specs.Natives.{native_value, arity_of, value_row_of};
ghost use Rattle.cl_values.specs.Sequences.{length_of, element_at, index_of, optional};
ghost use Rattle.cl_apply.specs.Entries.{as_optional};
ghost use Rattle.cl_apply.specs.Reading.{is_read};

use crate::arguments::{both, only, three};
use crate::bits::{Joining, complement, joined, shifted_left, shifted_right};
use crate::content::{after, before, no_earlier, no_later, part_between, replaced, wire_of};
use crate::equality::equality;
use crate::hashes::{Hash, digest};
use crate::numbers::{Folded, difference, from_left};
use crate::optionals::{
    default_to, is_err, is_none, is_ok, is_some, unwrap_err_panic, unwrap_panic,
};
use crate::pairs::{
    at_least, at_most, exclusive_or, greater, int_of, less, logarithm, opposite, power, remainder,
    square_root, uint_of,
};
use cl_seq::{
    list_of, none, response, some, try_append, try_concat, try_element_at, try_index_of, try_len,
    try_merge, uint_value,
};
use cl_types::Fault;
use cl_values::{Arity, Kind, Native, NoValue, Val};
use std::alloc::Global;

/// An answer for which no memory was taken.
fn answer(found: Result<Val, NoValue>) -> Result<Val, Fault<NoValue>>
    ensures { (c : Computed) → Answered c found → Applied c result }
{
    match found {
        Ok(value) => Ok(value),
        Err(why) => Err(Fault::Refused(why)),
    }
}

/// `len`
fn count(value: &Val) -> Result<Val, NoValue>
    ensures { Answered (length_of (value.now ∷ [])) result }
{
    match try_len(value) {
        Some(length) => Ok(uint_value(length as u128)),
        None => Err(NoValue::Undefined),
    }
}

/// A native of one argument that is only looked at.
#[tactic(auto, unfolding(cl_values::specs::Natives::native_value))]
pub(crate) fn read_one(native: Native, value: &Val) -> Result<Val, NoValue>
    requires one { arity_of (value_row_of native) ≡ One }
    requires read { is_read native ≡ true }
    ensures { Answered (native_value native (value.now ∷ [])) result }
{
    match native {
        Native::ToInt => int_of(value),
        Native::ToUint => uint_of(value),
        Native::Not => opposite(value),
        Native::SquareRoot => square_root(value),
        Native::Log2 => logarithm(value),
        Native::IsSome => is_some(value),
        Native::IsNone => is_none(value),
        Native::IsOk => is_ok(value),
        Native::IsErr => is_err(value),
        Native::Len => count(value),
        Native::BitNot => complement(value),
        _ => unreachable!(),
    }
}

/// A native of one argument.
#[tactic(auto, unfolding(cl_values::specs::Natives::native_value))]
fn apply_one(alloc: Global, native: Native, value: Val) -> Result<Val, Fault<NoValue>>
    requires { arity_of (value_row_of native) ≡ One }
    ensures { Applied (native_value native (value ∷ [])) result }
{
    match native {
        Native::Sha256 => digest(alloc, Hash::Sha256, &value),
        Native::Sha512Of256 => digest(alloc, Hash::Sha512Of256, &value),
        Native::Sha512 => digest(alloc, Hash::Sha512, &value),
        Native::MakeSome => some(alloc, value),
        Native::MakeOk => response(alloc, true, value),
        Native::MakeErr => response(alloc, false, value),
        Native::UnwrapPanic => unwrap_panic(value),
        Native::UnwrapErrPanic => unwrap_err_panic(value),
        Native::ToConsensusBuff => wire_of(alloc, &value),
        _ => answer(read_one(native, &value)),
    }
}

/// What may be there, as an optional value.
fn optional(alloc: Global, found: Option<Val>) -> Result<Val, Fault<NoValue>>
    ensures { Applied (Gives (optional found)) result }
{
    match found {
        Some(value) => some(alloc, value),
        None => Ok(none()),
    }
}

pub(crate) fn found_value(alloc: Global, found: Option<Option<Val>>) -> Result<Val, Fault<NoValue>>
    ensures { Applied (as_optional found) result }
{
    match found {
        Some(entry) => optional(alloc, entry),
        None => Err(Fault::Refused(NoValue::Undefined)),
    }
}

fn entry_of(alloc: Global, sequence: Val, at: u128) -> Result<Val, Fault<NoValue>>
    ensures { Applied (element_at (sequence ∷ UintV at ∷ [])) result }
{
    let found = try_element_at(alloc, sequence, at)?;
    found_value(alloc, found)
}

/// `element-at`
fn entry_at(alloc: Global, sequence: Val, at: &Val) -> Result<Val, Fault<NoValue>>
    ensures { Applied (element_at (sequence ∷ at.now ∷ [])) result }
{
    match at.value().kind {
        Kind::Uint(at) => entry_of(alloc, sequence, at),
        _ => Err(Fault::Refused(NoValue::Undefined)),
    }
}

/// `index-of`
fn place_of(alloc: Global, sequence: &Val, item: &Val) -> Result<Val, Fault<NoValue>>
    ensures { Applied (index_of (sequence.now ∷ item.now ∷ [])) result }
{
    match try_index_of(sequence, item) {
        Some(Some(place)) => some(alloc, uint_value(place as u128)),
        Some(None) => Ok(none()),
        None => Err(Fault::Refused(NoValue::Undefined)),
    }
}

/// A native of two arguments that are only looked at.
#[tactic(auto, unfolding(cl_values::specs::Natives::native_value))]
pub(crate) fn read_two(native: Native, first: &Val, second: &Val) -> Result<Val, NoValue>
    requires two { arity_of (value_row_of native) ≡ Two }
    requires read { is_read native ≡ true }
    ensures { Answered (native_value native (first.now ∷ second.now ∷ [])) result }
{
    match native {
        Native::Power => power(first, second),
        Native::Modulo => remainder(first, second),
        Native::Xor => exclusive_or(first, second),
        Native::Less => less(first, second),
        Native::AtMost => at_most(first, second),
        Native::Greater => greater(first, second),
        Native::AtLeast => at_least(first, second),
        Native::ContentLess => before(first, second),
        Native::ContentAtMost => no_later(first, second),
        Native::ContentGreater => after(first, second),
        Native::ContentAtLeast => no_earlier(first, second),
        Native::ShiftLeft => shifted_left(first, second),
        Native::ShiftRight => shifted_right(first, second),
        _ => unreachable!(),
    }
}

/// A native of two arguments.
#[tactic(auto, unfolding(cl_values::specs::Natives::native_value))]
fn apply_two(alloc: Global, native: Native, first: Val, second: Val) -> Result<Val, Fault<NoValue>>
    requires { arity_of (value_row_of native) ≡ Two }
    ensures { Applied (native_value native (first ∷ second ∷ [])) result }
{
    match native {
        Native::DefaultTo => default_to(first, second),
        Native::Merge => try_merge(alloc, first, second),
        Native::Append => try_append(first, second),
        Native::Concat => try_concat(first, second),
        Native::ElementAt | Native::EntryAt => entry_at(alloc, first, &second),
        Native::IndexOf | Native::PlaceOf => place_of(alloc, &first, &second),
        _ => answer(read_two(native, &first, &second)),
    }
}

/// A native of three arguments.
#[tactic(auto, unfolding(cl_values::specs::Natives::native_value))]
fn apply_three(
    alloc: Global,
    native: Native,
    first: Val,
    second: &Val,
    third: Val,
) -> Result<Val, Fault<NoValue>>
    requires { arity_of (value_row_of native) ≡ Three }
    ensures { Applied (native_value native (first ∷ second.now ∷ third ∷ [])) result }
{
    match native {
        Native::Slice => part_between(alloc, first, second, &third),
        Native::ReplaceAt => replaced(alloc, first, second, third),
        _ => unreachable!(),
    }
}

/// A native of any number of arguments that are only looked at.
#[tactic(auto, unfolding(cl_values::specs::Natives::native_value))]
pub(crate) fn read_each(native: Native, values: &[Val]) -> Result<Val, NoValue>
    requires each { arity_of (value_row_of native) ≡ Each }
    requires read { is_read native ≡ true }
    ensures { Answered (native_value native values.now) result }
{
    match native {
        Native::Add => from_left(Folded::Sum, values),
        Native::Subtract => difference(values),
        Native::Multiply => from_left(Folded::Product, values),
        Native::Divide => from_left(Folded::Quotient, values),
        Native::Same => equality(values),
        Native::BitAnd => joined(Joining::And, values),
        Native::BitOr => joined(Joining::Or, values),
        Native::BitXor => joined(Joining::Xor, values),
        _ => unreachable!(),
    }
}

fn read_values(native: Native, values: &[Val]) -> Result<Val, Fault<NoValue>>
    requires each { arity_of (value_row_of native) ≡ Each }
    requires read { is_read native ≡ true }
    ensures { Applied (native_value native values.now) result }
{
    answer(read_each(native, values))
}

/// A native of any number of arguments.
#[tactic(auto, unfolding(cl_values::specs::Natives::native_value))]
fn apply_each(alloc: Global, native: Native, values: Vec<Val>) -> Result<Val, Fault<NoValue>>
    requires { arity_of (value_row_of native) ≡ Each }
    ensures { Applied (native_value native values.items) result }
{
    match native {
        Native::MakeList => list_of(alloc, values),
        _ => read_values(native, &values),
    }
}

/// What a native is of these values, which are moved; or why it has none.
#[tactic(auto, unfolding(cl_values::specs::Natives::native_value))]
pub fn apply_native(
    alloc: Global,
    native: Native,
    arguments: Vec<Val>,
) -> Result<Val, Fault<NoValue>>
    ensures { Applied (native_value native arguments.items) result }
{
    match native.arity() {
        Arity::One => match only(arguments) {
            Some(value) => apply_one(alloc, native, value),
            None => Err(Fault::Refused(NoValue::Undefined)),
        },
        Arity::Two => match both(arguments) {
            Some((first, second)) => apply_two(alloc, native, first, second),
            None => Err(Fault::Refused(NoValue::Undefined)),
        },
        Arity::Three => match three(arguments) {
            Some((first, second, third)) => apply_three(alloc, native, first, &second, third),
            None => Err(Fault::Refused(NoValue::Undefined)),
        },
        Arity::Each => apply_each(alloc, native, arguments),
    }
}
