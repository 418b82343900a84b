//! Functions that write, along the order of evaluation.
ghost use Rattle.std.specs.Prelude.{◌≡◌, List, ◌∷◌, [], map, slice_get, Some, None, IfOk, IfSome, OnOk};
ghost use Rattle.cl_code.specs.Definitions.{form_defined};
ghost use Rattle.cl_code.specs.declared.definition.Definition.{Definition as ADefinition};
ghost use Rattle.cl_rules.specs.Acceptance.{calls_public, FirstWriting, NoneWrites};
ghost use Rattle.cl_rules.specs.Context.{Known};
ghost use Rattle.cl_rules.specs.FormRules.{Defined};
ghost use Rattle.cl_rules.specs.Verdicts.{Found};
ghost use Rattle.cl_contracts.specs.Seen.{IsIndexed, forms_of, kind_at};
ghost use Rattle.cl_contracts.specs.Standings.{Knows, StandsAs, StandsAfter, definitions_in_order};
ghost use Rattle.cl_readonly.specs.Functions.{AreThoseThatWrite, BodyNames, HaveOwnNames, first_wrong, with_form};
ghost use Rattle.cl_readonly.specs.Writing.{AreFunctions};

use crate::nodes::is_among;
use crate::walk::tree_writes;
use cl_c32::Principal;
use cl_code::Definition;
use cl_contracts::{Deployed, Parts};
use cl_keyed::HashKey;
use cl_sexpr::Span;
use cl_types::{Access, Name, NoMemory};
use indexmap::IndexSet;
use std::alloc::Global;

/// Notes a definition, if it is a function that writes.
fn note(
    deployed: &Deployed,
    own: &Principal,
    writing: &mut IndexSet<Name, HashKey>,
    definition: &Definition,
) -> Result<(), NoMemory>
    ensures { OnOk result ((known : List Known) (D : Defined) (fs : List Found) →
        Knows deployed.now known → AreFunctions D.context writing.old.keys →
        StandsAs D definition.now fs →
        (writing.new.keys ≡ with_form (calls_public known own.now) writing.old.keys
        (form_defined definition.now))
        × BodyNames D.context (calls_public known own.now) writing.old.keys
        (kind_at definition.now)) }
{
    match definition {
        Definition::Function(function) => {
            if tree_writes(deployed, own, writing, &function.body) {
                writing.insert(function.name)?;
            }
            Ok(())
        }
        _ => Ok(()),
    }
}

/// Notes the definition at a place, if there is one.
fn note_at(
    deployed: &Deployed,
    parts: &Parts,
    writing: &mut IndexSet<Name, HashKey>,
    place: usize,
) -> Result<(), NoMemory>
    ensures there { OnOk result
        ((d : ADefinition) (known : List Known) (D : Defined) (fs : List Found) →
        slice_get parts.now.definitions.items place ≡ Some d → Knows deployed.now known →
        AreFunctions D.context writing.old.keys → StandsAs D d fs →
        (writing.new.keys ≡ with_form (calls_public known parts.now.principal) writing.old.keys
        (form_defined d))
        × BodyNames D.context (calls_public known parts.now.principal) writing.old.keys
        (kind_at d)) }
    ensures none { OnOk result
        (slice_get parts.now.definitions.items place ≡ None →
        writing.new.keys ≡ writing.old.keys) }
{
    match parts.definitions.get(place) {
        Some(definition) => note(deployed, &parts.principal, writing, definition),
        None => Ok(()),
    }
}

/// The names of the functions that write: the least set such that a function is in it whose body
/// holds a native that writes, calls a function of the set, gives one to `map`, `filter` or `fold`,
/// or calls a public function of another contract.
pub fn functions_that_write(
    alloc: Global,
    deployed: &Deployed,
    parts: &Parts,
) -> Result<IndexSet<Name, HashKey>, NoMemory>
    requires names { IsIndexed parts.now }
    requires own { HaveOwnNames parts.now.version (forms_of parts.now) }
    ensures { IfOk result (λ s. (known : List Known) (E : Defined) →
        Knows deployed.now known → StandsAfter known parts.now E →
        AreThoseThatWrite (forms_of parts.now) (calls_public known parts.now.principal) s.keys) }
{
    let mut writing = IndexSet::with_hasher(alloc, parts.hash_key());
    for place in &parts.order {
        note_at(deployed, parts, &mut writing, *place)?;
    }
    Ok(writing)
}

/// The span of a read-only function among those that write.
fn wrong(writing: &IndexSet<Name, HashKey>, definition: &Definition) -> Option<Span>
    ensures { result ≡ first_wrong writing.now.keys (form_defined definition.now ∷ []) }
{
    match definition {
        Definition::Function(function) => match function.access {
            Access::ReadOnly => {
                if is_among(writing, &function.name) {
                    Some(function.span)
                } else {
                    None
                }
            }
            _ => None,
        },
        _ => None,
    }
}

/// The same at a place.
fn wrong_at(writing: &IndexSet<Name, HashKey>, parts: &Parts, place: usize) -> Option<Span>
    ensures there { (d : ADefinition) → slice_get parts.now.definitions.items place ≡ Some d →
        result ≡ first_wrong writing.now.keys (form_defined d ∷ []) }
    ensures none { slice_get parts.now.definitions.items place ≡ None → result ≡ None }
{
    match parts.definitions.get(place) {
        Some(definition) => wrong(writing, definition),
        None => None,
    }
}

/// The first read-only function among those that write, in the order of evaluation.
fn first_wrong(writing: &IndexSet<Name, HashKey>, parts: &Parts) -> Option<Span>
    ensures { result
        ≡ first_wrong writing.now.keys (map form_defined (definitions_in_order parts.now)) }
{
    for place in &parts.order {
        if let Some(span) = wrong_at(writing, parts, *place) {
            return Some(span);
        }
    }
    None
}

/// The first read-only function that writes, in the order of evaluation: the bytes of its
/// definition.
pub fn first_writing(
    alloc: Global,
    deployed: &Deployed,
    parts: &Parts,
) -> Result<Option<Span>, NoMemory>
    requires names { IsIndexed parts.now }
    requires own { HaveOwnNames parts.now.version (forms_of parts.now) }
    ensures none { IfOk result (λ found. found ≡ None → (known : List Known) (E : Defined) →
        Knows deployed.now known → StandsAfter known parts.now E →
        NoneWrites known parts.now.principal (forms_of parts.now)) }
    ensures first { IfOk result (λ found. IfSome found
        (λ span. (known : List Known) (E : Defined) →
        Knows deployed.now known → StandsAfter known parts.now E →
        FirstWriting known parts.now.principal (forms_of parts.now) parts.now.order.items span)) }
{
    let writing = functions_that_write(alloc, deployed, parts)?;
    Ok(first_wrong(&writing, parts))
}
