//! Whether natives are defined at values. Where the value would take memory, none is made: it shows
//! in kinds, sizes and depths. A size or depth that is read and not used tells the proof alone that the
//! value is within the limits.
ghost use Rattle.std.specs.Prelude.{◌≡◌, ◌≢◌, ◌↔◌, ◌∷◌, [], ◌&&◌, nat_le, ◌+◌, ◌≤◌, true, false};
ghost use Rattle.cl_values.specs.declared.native.Arity.TheVariants.{One, Two, Three, Each};
ghost use Rattle.cl_values.specs.Tree.{SomeV, ResponseV, depth_of, entries_of};
ghost use Rattle.cl_values.specs.Computed.{Computed, Undefined, is_within, is_defined, kept};
ghost use Rattle.cl_values.specs.Applied.{Answered};
ghost use Rattle.cl_values.specs.Natives.{One as RowOfOne, native_value, at_row, arity_of, value_row_of};
ghost use Rattle.cl_values.specs.Natives.{unwrap_panic, unwrap_err_panic, default_to, digest, listed};
ghost use Rattle.sha2.specs.Sha256.{sha256};
ghost use Rattle.sha2.specs.Sha512.{sha512, sha512_256};
ghost use Rattle.cl_values.specs.Wire.{size_of, entries_size};
ghost use Rattle.cl_values.specs.Tuples.{is_among, merge, part_at};
ghost use Rattle.cl_values.specs.Contents.{consensus_bytes};
ghost use Rattle.cl_apply.specs.Added.{added_size};
ghost use Rattle.cl_apply.specs.Calls.{call_value};
ghost use Rattle.cl_values.specs.Sequences.{append, concat, element_at, index_of, within_length};

use crate::NativeCall;
use crate::rows::{read_each, read_one, read_two};
use crate::sequence_definedness::{replaces, slices};
use cl_seq::{try_len, try_within};
use cl_types::Name;
use cl_values::{Arity, Kind, Native, NoValue, Val, Value, size_up_to};

/// Whether what was found is a value, an abort or a panic.
fn is_found(found: Result<Val, NoValue>) -> bool
    ensures { (c : Computed) → Answered c found → result ≡ is_defined (kept c) }
{
    match found {
        Err(NoValue::Undefined) => false,
        _ => true,
    }
}

/// Whether a value within the limits is within them as the part of an optional or a response.
fn wraps(value: &Val) -> bool
    ensures some { result ≡ is_within (SomeV value.now) }
    ensures ok { result ≡ is_within (ResponseV true value.now) }
    ensures err { result ≡ is_within (ResponseV false value.now) }
{
    value.size() < Val::MOST_SIZE && value.depth() < Val::MOST_DEPTH
}

/// `unwrap-panic`
fn has_part(value: &Val) -> bool
    ensures { result ≡ is_defined (kept (unwrap_panic (value.now ∷ []))) }
{
    let _size = value.size();
    let _depth = value.depth();
    match &value.value().kind {
        Kind::Optional(_) | Kind::Response { .. } => true,
        _ => false,
    }
}

/// `unwrap-err-panic`
fn has_err_part(value: &Val) -> bool
    ensures { result ≡ is_defined (kept (unwrap_err_panic (value.now ∷ []))) }
{
    let _size = value.size();
    let _depth = value.depth();
    match &value.value().kind {
        Kind::Response { .. } => true,
        _ => false,
    }
}

/// `default-to`
fn has_default(otherwise: &Val, optional: &Val) -> bool
    ensures { result ≡ is_defined (kept (default_to (otherwise.now ∷ optional.now ∷ []))) }
{
    let _size = optional.size();
    let _depth = optional.depth();
    let _other = otherwise.size();
    let _depth_other = otherwise.depth();
    match &optional.value().kind {
        Kind::Optional(_) => true,
        _ => false,
    }
}

/// Whether a value of this size and depth is within the limits.
fn fits(size: u32, depth: u32) -> bool
    ensures { result ≡ (nat_le depth 32 && nat_le size 1048576) }
{
    depth <= Val::MOST_DEPTH && size <= Val::MOST_SIZE
}

/// `append`
#[tactic(auto, using(crate::proofs::DefinedLaws::appends_is))]
fn appends(list: &Val, item: &Val) -> bool
    ensures { result ≡ is_defined (kept (append (list.now ∷ item.now ∷ []))) }
{
    let size = list.size() + item.size();
    let depth = list.depth().max(item.depth() + 1);
    match &list.value().kind {
        Kind::List(_) => fits(size, depth),
        _ => false,
    }
}

/// Whether sequences of one kind are within the limits one behind the other. Each size counts five
/// bytes of its own.
fn fits_joined(first: &Val, second: &Val) -> bool
    ensures { result ≡ nat_le (size_of first.now + size_of second.now) 1048581 }
{
    first.size() + second.size() <= Val::MOST_SIZE + 5
}

/// `concat`
fn concats(first: &Val, second: &Val) -> bool
    ensures { result ≡ is_defined (kept (concat (first.now ∷ second.now ∷ []))) }
{
    let _depth = first.depth();
    let _other = second.depth();
    match (&first.value().kind, &second.value().kind) {
        (Kind::List(_), Kind::List(_)) => fits_joined(first, second),
        (Kind::Buff(_), Kind::Buff(_)) => fits_joined(first, second),
        (Kind::Ascii(_), Kind::Ascii(_)) => fits_joined(first, second),
        (Kind::Utf8(_), Kind::Utf8(_)) => fits_joined(first, second),
        _ => false,
    }
}

/// `sha256`, `sha512/256` and `sha512`
#[tactic(auto, using(crate::proofs::DefinedLaws::sha256_is, crate::proofs::DefinedLaws::sha512_256_is, crate::proofs::DefinedLaws::sha512_is))]
fn is_hashed(value: &Val) -> bool
    ensures short { result ≡ is_defined (kept (digest sha256 (value.now ∷ []))) }
    ensures shortened { result ≡ is_defined (kept (digest sha512_256 (value.now ∷ []))) }
    ensures long { result ≡ is_defined (kept (digest sha512 (value.now ∷ []))) }
{
    match &value.value().kind {
        Kind::Int(_) | Kind::Uint(_) | Kind::Buff(_) => true,
        _ => false,
    }
}

/// `list`
fn lists(values: &[Val]) -> bool
    ensures { result ≡ is_defined (kept (listed values.now)) }
{
    let mut size = 5;
    let mut depth = 0;
    for value in values {
        if size > Val::MOST_SIZE {
            return false;
        }
        size += value.size();
        depth = value.depth().max(depth);
    }
    fits(size, depth + 1)
}

/// `index-of`
fn has_places(sequence: &Val, item: &Val) -> bool
    ensures { result ≡ is_defined (kept (index_of (sequence.now ∷ item.now ∷ []))) }
{
    let _item = item;
    try_len(sequence).is_some()
}

/// `as-max-len?`, with the greatest length.
fn shortens(most: u32, sequence: &Val) -> bool
    ensures { result ≡ is_defined (kept (within_length most sequence.now)) }
{
    match try_within(sequence, most) {
        Some(true) => wraps(sequence),
        Some(false) => true,
        None => false,
    }
}

/// Whether a key is among those of entries.
fn is_among(key: &Name, entries: &[(Name, Value)]) -> bool
    ensures { result ≡ is_among key.now (entries_of entries.now) }
{
    for entry in entries {
        if *key == entry.0 {
            return true;
        }
    }
    false
}

/// The size of the entries whose keys others don't have.
fn added_size(entries: &[(Name, Value)], others: &[(Name, Value)]) -> u32
    requires { entries_size (entries_of entries.now) ≤ 1048576 }
    ensures counted { result ≡ added_size (entries_of entries.now) (entries_of others.now) }
    ensures within { result ≤ 1048576 }
{
    let mut size = 0;
    for entry in entries {
        if !is_among(&entry.0, others) {
            size += 1 + entry.0.bytes().len() as u32 + size_up_to(&entry.1);
        }
    }
    size
}

/// `merge`
#[tactic(auto, using(crate::proofs::MergeLaws::merges_is))]
fn merges(first: &Val, second: &Val) -> bool
    ensures { result ≡ is_defined (kept (merge (first.now ∷ second.now ∷ []))) }
{
    let _size = first.size();
    let _depth = first.depth();
    let _other = second.depth();
    let size = second.size();
    match (&first.value().kind, &second.value().kind) {
        (Kind::Tuple(entries), Kind::Tuple(others)) => {
            added_size(entries, others) + size <= Val::MOST_SIZE
        }
        _ => false,
    }
}

/// `element-at`. An entry is smaller than its sequence, so an optional of it is within the limits.
#[tactic(auto, using(crate::proofs::PartLaws::entry_is))]
fn has_entry(sequence: &Val, at: &Val) -> bool
    ensures { result ≡ is_defined (kept (element_at (sequence.now ∷ at.now ∷ []))) }
{
    let _size = sequence.size();
    let _depth = sequence.depth();
    match at.value().kind {
        Kind::Uint(_) => try_len(sequence).is_some(),
        _ => false,
    }
}

/// Whether an optional of this value has a part at a key.
#[tactic(auto, using(crate::proofs::PartLaws::some_part_is))]
fn has_key_inside(key: &Name, inner: &Value) -> bool
    requires deep { depth_of (SomeV inner.now) ≤ 32 }
    requires long { size_of (SomeV inner.now) ≤ 1048576 }
    ensures { result ≡ is_defined (kept (part_at key.now (SomeV inner.now))) }
{
    match &inner.kind {
        Kind::Tuple(entries) => is_among(key, entries),
        _ => false,
    }
}

/// `get`, with the key.
fn has_key(key: &Name, value: &Val) -> bool
    ensures { result ≡ is_defined (kept (part_at key.now value.now)) }
{
    let _size = value.size();
    let _depth = value.depth();
    match &value.value().kind {
        Kind::Tuple(entries) => is_among(key, entries),
        Kind::Optional(Some(inner)) => has_key_inside(key, inner),
        Kind::Optional(None) => true,
        _ => false,
    }
}

/// `to-consensus-buff?`
fn is_spelled(value: &Val) -> bool
    ensures { result ≡ is_defined (kept (consensus_bytes (value.now ∷ []))) }
{
    value.size() + 6 <= Val::MOST_SIZE
}

/// A native of one argument.
#[tactic(auto, unfolding(cl_values::specs::Natives::native_value))]
fn is_defined_at_one(native: Native, value: &Val) -> bool
    requires { arity_of (value_row_of native) ≡ One }
    ensures { result ≡ is_defined (kept (native_value native (value.now ∷ []))) }
{
    match native {
        Native::Sha256 | Native::Sha512Of256 | Native::Sha512 => is_hashed(value),
        Native::MakeSome | Native::MakeOk | Native::MakeErr => wraps(value),
        Native::UnwrapPanic => has_part(value),
        Native::UnwrapErrPanic => has_err_part(value),
        Native::ToConsensusBuff => is_spelled(value),
        _ => is_found(read_one(native, value)),
    }
}

/// A native of two arguments.
#[tactic(auto, unfolding(cl_values::specs::Natives::native_value))]
fn is_defined_at_two(native: Native, first: &Val, second: &Val) -> bool
    requires { arity_of (value_row_of native) ≡ Two }
    ensures { result ≡ is_defined (kept (native_value native (first.now ∷ second.now ∷ []))) }
{
    match native {
        Native::DefaultTo => has_default(first, second),
        Native::Merge => merges(first, second),
        Native::Append => appends(first, second),
        Native::Concat => concats(first, second),
        Native::ElementAt | Native::EntryAt => has_entry(first, second),
        Native::IndexOf | Native::PlaceOf => has_places(first, second),
        _ => is_found(read_two(native, first, second)),
    }
}

/// A native of three arguments.
#[tactic(auto, unfolding(cl_values::specs::Natives::native_value))]
fn is_defined_at_three(native: Native, first: &Val, second: &Val, third: &Val) -> bool
    requires { arity_of (value_row_of native) ≡ Three }
    ensures { result ≡ is_defined
        (kept (native_value native (first.now ∷ second.now ∷ third.now ∷ []))) }
{
    match native {
        Native::Slice => slices(first, second, third),
        Native::ReplaceAt => replaces(first, second, third),
        _ => unreachable!(),
    }
}

/// A native of any number of arguments.
#[tactic(auto, unfolding(cl_values::specs::Natives::native_value))]
fn is_defined_at_each(native: Native, values: &[Val]) -> bool
    requires { arity_of (value_row_of native) ≡ Each }
    ensures { result ≡ is_defined (kept (native_value native values.now)) }
{
    match native {
        Native::MakeList => lists(values),
        _ => is_found(read_each(native, values)),
    }
}

/// A native on values alone.
#[tactic(auto, unfolding(cl_values::specs::Natives::native_value))]
fn is_native_defined(native: Native, arguments: &[Val]) -> bool
    ensures { result ≡ is_defined (kept (native_value native arguments.now)) }
{
    match native.arity() {
        Arity::One => match arguments {
            [value] => is_defined_at_one(native, value),
            _ => false,
        },
        Arity::Two => match arguments {
            [first, second] => is_defined_at_two(native, first, second),
            _ => false,
        },
        Arity::Three => match arguments {
            [first, second, third] => is_defined_at_three(native, first, second, third),
            _ => false,
        },
        Arity::Each => is_defined_at_each(native, arguments),
    }
}

/// `get` of these arguments.
fn is_get_defined(key: &Name, arguments: &[Val]) -> bool
    ensures { result ≡ is_defined (kept (at_row (RowOfOne (part_at key.now)) arguments.now)) }
{
    match arguments {
        [value] => has_key(key, value),
        _ => false,
    }
}

/// `as-max-len?` of these arguments.
fn is_length_defined(most: u32, arguments: &[Val]) -> bool
    ensures { result ≡ is_defined (kept (at_row (RowOfOne (within_length most)) arguments.now)) }
{
    match arguments {
        [sequence] => shortens(most, sequence),
        _ => false,
    }
}

/// Whether a native is defined at these values, which is the condition of [`apply`](crate::apply).
/// This takes no memory.
#[tactic(auto, unfolding(crate::specs::Calls::call_value, cl_values::specs::Natives::native_value))]
pub fn defined(call: &NativeCall, arguments: &[Val]) -> bool
    ensures { (result ≡ true) ↔ (kept (call_value call.now arguments.now) ≢ Undefined) }
{
    match call {
        NativeCall::OnValues(native) => is_native_defined(*native, arguments),
        NativeCall::Get(key) => is_get_defined(key, arguments),
        NativeCall::AsMaxLen(most) => is_length_defined(*most, arguments),
    }
}
