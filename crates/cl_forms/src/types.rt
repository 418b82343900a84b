//! Types as a text writes them.
ghost use Rattle.std.specs.Prelude.{◌≡◌, ◌+◌, ◌≤◌, IfOk, Some, option_map};
ghost use Rattle.cl_types.specs.Sized.{made};
ghost use Rattle.cl_types.specs.Types.{TupleType, OptionalType, fields, depth_of};
ghost use Rattle.cl_sexpr.specs.Tree.{forest, pairs};
ghost use Rattle.cl_forms.specs.Items.{two_of, typed};
ghost use Rattle.cl_forms.specs.Shapes.{binding_of};
ghost use Rattle.cl_forms.specs.ItemView.{behind, first_atom, one_of};
ghost use Rattle.cl_forms.specs.WrittenTypes.{made_type, simple_type, length_by, stated_length, list_type, response_type, type_of, type_by, fields_of, fields_of_pairs, written_type};
ghost use Rattle.cl_forms.specs.TypeRoom.{within, fields_within, field_within, list_by, sequence_type};
ghost use Rattle.cl_forms.specs.declared.type_word.TypeWord.TheVariants.{Buff, Ascii, Utf8, List as ListWord, Optional, Response, Tuple};

use crate::item::{atom, first_atom};
use crate::names::is;
use crate::type_word::{TypeWord, type_word};
use cl_sexpr::{Node, Sexpr};
use cl_types::{Fault, Name, NoMemory, SizedTy, Ty, TyKind};
use std::alloc::{AllocError, Global};

fn simple_type(name: &Name) -> Option<Ty>
    ensures { result ≡ simple_type name.now }
{
    if is(name, "int") {
        Some(Ty { kind: TyKind::Int })
    } else if is(name, "uint") {
        Some(Ty { kind: TyKind::Uint })
    } else if is(name, "bool") {
        Some(Ty { kind: TyKind::Bool })
    } else if is(name, "principal") {
        Some(Ty {
            kind: TyKind::Principal,
        })
    } else {
        None
    }
}

fn length_by(value: &i128) -> Option<u32>
    ensures { result ≡ length_by value.now }
{
    if *value < 0 || *value > 1_048_576 {
        None
    } else {
        Some(*value as u32)
    }
}

/// A greatest length. It is taken by its value, so leading zeros and `-0` are allowed.
fn stated_length(item: &Sexpr) -> Option<u32>
    ensures { result ≡ stated_length item.now }
{
    match &item.node {
        Node::Int(value) => length_by(value),
        _ => None,
    }
}

fn list_type(alloc: Global, most: Option<u32>, entry: Option<Ty>) -> Result<Option<Ty>, AllocError>
    ensures { IfOk result (λ o. o ≡ list_type most entry) }
{
    match (most, entry) {
        (Some(most), Some(entry)) => {
            let entry = Box::new(alloc, entry)?;
            Ok(Some(Ty {
                kind: TyKind::List(most, entry),
            }))
        }
        _ => Ok(None),
    }
}

fn optional_type(alloc: Global, part: Option<Ty>) -> Result<Option<Ty>, AllocError>
    ensures { IfOk result (λ o. o ≡ option_map OptionalType part) }
{
    match part {
        Some(part) => {
            let part = Box::new(alloc, part)?;
            Ok(Some(Ty {
                kind: TyKind::Optional(part),
            }))
        }
        None => Ok(None),
    }
}

fn response_type(alloc: Global, good: Option<Ty>, bad: Option<Ty>) -> Result<Option<Ty>, AllocError>
    ensures { IfOk result (λ o. o ≡ response_type good bad) }
{
    match (good, bad) {
        (Some(good), Some(bad)) => {
            let good = Box::new(alloc, good)?;
            let bad = Box::new(alloc, bad)?;
            Ok(Some(Ty {
                kind: TyKind::Response(good, bad),
            }))
        }
        _ => Ok(None),
    }
}

fn tuple_type(parts: Option<Vec<(Name, Ty)>>) -> Option<Ty>
    ensures { result ≡ option_map TupleType (option_map (λ v. fields v.items) parts) }
{
    match parts {
        Some(parts) => Some(Ty {
            kind: TyKind::Tuple(parts),
        }),
        None => None,
    }
}

/// The only item.
fn only(items: &[Sexpr]) -> Option<&Sexpr>
    ensures { option_map (λ e. e.now) result ≡ one_of items.now }
{
    match items {
        [item] => Some(item),
        _ => None,
    }
}

/// Two items, where there are so many.
fn both(items: &[Sexpr]) -> Option<(&Sexpr, &Sexpr)>
    ensures { option_map (λ p. (p.0.now, p.1.now)) result ≡ two_of items.now }
{
    match items {
        [first, second] => Some((first, second)),
        _ => None,
    }
}

/// What stands behind the first item.
fn behind(items: &[Sexpr]) -> &[Sexpr]
    ensures { result.now ≡ behind items.now }
{
    match items.split_first() {
        Some((_, rest)) => rest,
        None => items,
    }
}

/// The key and the type's item of a pair in round brackets.
#[tactic(auto, using(crate::proofs::Bindings::binding_parts, crate::proofs::Bindings::trees_forest))]
fn pair_of(item: &Sexpr) -> Option<(Name, &Sexpr)>
    ensures { option_map (λ p. (p.0, p.1.now)) result ≡ binding_of item.now }
{
    let Node::List(parts) = &item.node else {
        return None;
    };
    let Some((first, part)) = both(parts) else {
        return None;
    };
    match atom(first) {
        Some(key) => Some((key, part)),
        None => None,
    }
}

/// The type of a buffer or string.
fn sequence_type(word: TypeWord, parts: &[Sexpr]) -> Option<Ty>
    ensures { result ≡ sequence_type word (one_of parts.now) }
{
    let most = match only(parts) {
        Some(item) => stated_length(item)?,
        None => return None,
    };
    match word {
        TypeWord::Buff => Some(Ty {
            kind: TyKind::Buff(most),
        }),
        TypeWord::Ascii => Some(Ty {
            kind: TyKind::Ascii(most),
        }),
        TypeWord::Utf8 => Some(Ty {
            kind: TyKind::Utf8(most),
        }),
        _ => None,
    }
}

/// The type that an item writes, if it is no deeper than there is room.
#[cycle(type_of)]
fn type_of(alloc: Global, item: &Sexpr, room: u32) -> Result<Option<Ty>, AllocError>
    ensures { IfOk result (λ o. o ≡ within room (type_of item.now)) }
{
    if room == 0 {
        Ok(None)
    } else {
        type_below(alloc, item, room - 1)
    }
}

#[cycle(type_of)]
#[tactic(auto, using(crate::proofs::TypeSteps::within_simple))]
fn type_below(alloc: Global, item: &Sexpr, room: u32) -> Result<Option<Ty>, AllocError>
    ensures { IfOk result (λ o. o ≡ within (room + 1) (type_of item.now)) }
{
    match &item.node {
        Node::Atom(name) => Ok(simple_type(name)),
        Node::List(items) => type_in(alloc, items, room),
        Node::Tuple(parts) => Ok(tuple_type(fields_of_pairs(alloc, parts, room)?)),
        _ => Ok(None),
    }
}

#[cycle(type_of)]
fn type_in(alloc: Global, items: &[Sexpr], room: u32) -> Result<Option<Ty>, AllocError>
    ensures { IfOk result (λ o. o ≡ within (room + 1) (list_by (first_atom items.now) (forest (behind items.now)))) }
{
    match first_atom(items) {
        Some(name) => type_by(alloc, type_word(&name), behind(items), room),
        None => Ok(None),
    }
}

#[cycle(type_of)]
#[tactic(auto, using(crate::proofs::TypeSteps::sequence_word))]
fn type_by(
    alloc: Global,
    word: Option<TypeWord>,
    parts: &[Sexpr],
    room: u32,
) -> Result<Option<Ty>, AllocError>
    ensures { IfOk result (λ o. o ≡ within (room + 1) (type_by word (forest parts.now))) }
{
    match word {
        None => Ok(None),
        Some(TypeWord::List) => list_of(alloc, parts, room),
        Some(TypeWord::Optional) => optional_of(alloc, parts, room),
        Some(TypeWord::Response) => response_of(alloc, parts, room),
        Some(TypeWord::Tuple) => Ok(tuple_type(fields_of(alloc, parts, room)?)),
        Some(word) => Ok(sequence_type(word, parts)),
    }
}

#[cycle(type_of)]
fn list_of(alloc: Global, parts: &[Sexpr], room: u32) -> Result<Option<Ty>, AllocError>
    ensures { IfOk result (λ o. o ≡ within (room + 1) (type_by (Some ListWord) (forest parts.now))) }
{
    match both(parts) {
        Some((most, entry)) => {
            let entry = type_of(alloc, entry, room)?;
            list_type(alloc, stated_length(most), entry)
        }
        None => Ok(None),
    }
}

#[cycle(type_of)]
fn optional_of(alloc: Global, parts: &[Sexpr], room: u32) -> Result<Option<Ty>, AllocError>
    ensures { IfOk result (λ o. o ≡ within (room + 1) (type_by (Some Optional) (forest parts.now))) }
{
    match only(parts) {
        Some(part) => {
            let part = type_of(alloc, part, room)?;
            optional_type(alloc, part)
        }
        None => Ok(None),
    }
}

#[cycle(type_of)]
fn response_of(alloc: Global, parts: &[Sexpr], room: u32) -> Result<Option<Ty>, AllocError>
    ensures { IfOk result (λ o. o ≡ within (room + 1) (type_by (Some Response) (forest parts.now))) }
{
    match both(parts) {
        Some((good, bad)) => {
            let good = type_of(alloc, good, room)?;
            let bad = type_of(alloc, bad, room)?;
            response_type(alloc, good, bad)
        }
        None => Ok(None),
    }
}

fn keyed(key: Name, ty: Option<Ty>) -> Option<(Name, Ty)>
    ensures { result ≡ option_map (λ t. (key, t)) ty }
{
    match ty {
        Some(ty) => Some((key, ty)),
        None => None,
    }
}

/// A key with its type, from a pair in round brackets.
#[cycle(type_of)]
#[tactic(auto, using(crate::proofs::TypeSteps::binding_smaller))]
fn field_of(alloc: Global, item: &Sexpr, room: u32) -> Result<Option<(Name, Ty)>, AllocError>
    ensures { IfOk result (λ o. o ≡ field_within room (binding_of item.now)) }
{
    match pair_of(item) {
        Some((key, part)) => Ok(keyed(key, type_of(alloc, part, room)?)),
        None => Ok(None),
    }
}

/// A key with its type, from a pair in curly brackets.
#[cycle(type_of)]
fn field_in(
    alloc: Global,
    pair: &(Name, Sexpr),
    room: u32,
) -> Result<Option<(Name, Ty)>, AllocError>
    ensures { IfOk result (λ o. o ≡ field_within room (Some pair.now)) }
{
    Ok(keyed(pair.0, type_of(alloc, &pair.1, room)?))
}

#[cycle(type_of)]
fn fields_of(
    alloc: Global,
    parts: &[Sexpr],
    room: u32,
) -> Result<Option<Vec<(Name, Ty)>>, AllocError>
    ensures { IfOk result (λ o. option_map (λ v. fields v.items) o ≡ fields_within room (fields_of (forest parts.now))) }
{
    let mut list = Vec::new(alloc);
    for part in parts {
        match field_of(alloc, part, room)? {
            Some(field) => list.push(field)?,
            None => return Ok(None),
        }
    }
    Ok(Some(list))
}

#[cycle(type_of)]
fn fields_of_pairs(
    alloc: Global,
    parts: &[(Name, Sexpr)],
    room: u32,
) -> Result<Option<Vec<(Name, Ty)>>, AllocError>
    ensures { IfOk result (λ o. option_map (λ v. fields v.items) o ≡ fields_within room (fields_of_pairs (pairs parts.now))) }
{
    let mut list = Vec::new(alloc);
    for part in parts {
        match field_in(alloc, part, room)? {
            Some(field) => list.push(field)?,
            None => return Ok(None),
        }
    }
    Ok(Some(list))
}

/// The type of a tree, if it keeps the limits.
fn made(alloc: Global, ty: Ty) -> Result<Option<SizedTy>, NoMemory>
    requires { depth_of ty ≤ 128 }
    ensures { IfOk result (λ o. o ≡ made_type (made ty)) }
{
    match SizedTy::make(alloc, ty) {
        Ok(ty) => Ok(Some(ty)),
        Err(Fault::Refused(_)) => Ok(None),
        Err(Fault::NoMemory) => Err(NoMemory),
    }
}

/// The type that an item writes, if it is one and keeps the limits.
#[tactic(auto, using(crate::proofs::Limits::has_room, crate::proofs::Limits::is_made, crate::proofs::Limits::is_none_made), unfolding(crate::specs::WrittenTypes::written_type))]
pub(crate) fn written_type(alloc: Global, item: &Sexpr) -> Result<Option<SizedTy>, NoMemory>
    ensures { IfOk result (λ o. o ≡ written_type item.now) }
{
    match type_of(alloc, item, SizedTy::MOST_DEPTH)? {
        Some(ty) => made(alloc, ty),
        None => Ok(None),
    }
}

fn typed_by(name: Name, ty: Option<SizedTy>) -> Option<(Name, SizedTy)>
    ensures { result ≡ option_map (λ t. (name, t)) ty }
{
    match ty {
        Some(ty) => Some((name, ty)),
        None => None,
    }
}

fn typed_one(alloc: Global, param: &(Name, Sexpr)) -> Result<Option<(Name, SizedTy)>, NoMemory>
    ensures { IfOk result (λ o. o ≡ option_map (λ t. (param.now.0, t)) (written_type param.now.1)) }
{
    Ok(typed_by(param.0, written_type(alloc, &param.1)?))
}

/// Parameters with their types, if each has one.
pub(crate) fn typed(
    alloc: Global,
    params: &[(Name, Sexpr)],
) -> Result<Option<Vec<(Name, SizedTy)>>, NoMemory>
    ensures { IfOk result (λ o. option_map (λ v. v.items) o ≡ typed params.now) }
{
    let mut list = Vec::new(alloc);
    for param in params {
        match typed_one(alloc, param)? {
            Some(pair) => list.push(pair)?,
            None => return Ok(None),
        }
    }
    Ok(Some(list))
}
