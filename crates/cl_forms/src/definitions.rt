//! The forms of a text, or the first rule of forms that it breaks.
ghost use Rattle.std.specs.Prelude.{◌≡◌, ℕ, List, [], map, IfOk, OnOk, is_some, Some, None, option_map, if◌then◌else◌};
ghost use Rattle.std.specs.List.{list_any};
ghost use Rattle.std.specs.Option.{option_or};
ghost use Rattle.indexmap.specs.IndexMap.{get as lookup};
ghost use Rattle.cl_types.specs.Fault.{IfRefused};
ghost use Rattle.cl_forms.specs.Names.{same, stands_twice};
ghost use Rattle.cl_forms.specs.Heads.{is_reserved};
ghost use Rattle.cl_forms.specs.ItemView.{plain_draft, plain_item};
ghost use Rattle.cl_forms.specs.FormBreaks.{broken_at, params_of, defines, when, IsFirstBreak, AreForms};
ghost use Rattle.cl_forms.specs.Looks.{plain_entry, first_from, is_used, has_reserved, is_before, comes_last, first_of, first_at, rules_by, break_of, first_broken, form_at};
ghost use Rattle.cl_forms.specs.Items.{Definition, form_by};

use crate::entry::{Entry, look_at_all};
use crate::form::{Form, FormKind};
use crate::item::Item;
use crate::kind::Draft;
use crate::reserved::is_reserved;
use crate::version::Version;
use cl_keyed::HashKey;
use cl_sexpr::{Break, Refusal, Rule, Sexpr, Span};
use cl_types::{Fault, Name};
use indexmap::{IndexMap, IndexSet};
use std::alloc::{AllocError, Global};

/// The names of a text: its version, which has reserved some, and where each of its own is defined first.
#[derive(Drop)]
struct Names {
    version: Version,
    first: IndexMap<Name, usize, HashKey>,
}

/// Notes where a name is defined first.
fn note(
    names: &mut IndexMap<Name, usize, HashKey>,
    place: usize,
    item: &Item,
) -> Result<(), AllocError>
    ensures { OnOk result ((x : List ℕ) → lookup same names.new x
        ≡ option_or (lookup same names.old x) (if defines x (plain_item item.now) then Some place else None)) }
{
    if let Item::Definition(name, _) = item {
        if !names.contains_key(name) {
            names.insert(*name, place)?;
        }
    }
    Ok(())
}

/// Where each name is defined first.
fn first_places(
    alloc: Global,
    hash_key: HashKey,
    entries: &[Entry],
) -> Result<IndexMap<Name, usize, HashKey>, AllocError>
    ensures { IfOk result (λ names. (x : List ℕ) → lookup same names x ≡ first_from 0 (map (λ e. plain_item e.item) entries.now) x) }
{
    let mut names = IndexMap::with_hasher(alloc, hash_key);
    for (place, entry) in entries.iter().enumerate() {
        note(&mut names, place, &entry.item)?;
    }
    Ok(names)
}

fn params_of(draft: &Draft) -> &[(Name, Sexpr)]
    ensures { map (λ p. p.0) result.now ≡ params_of (plain_draft draft.now) }
{
    match draft {
        Draft::Function(_, params, _) => params.as_slice(),
        _ => &[],
    }
}

fn any_reserved(version: Version, params: &[(Name, Sexpr)]) -> bool
    ensures { result ≡ list_any (is_reserved version) (map (λ p. p.0) params.now) }
{
    for param in params {
        if is_reserved(version, &param.0) {
            return true;
        }
    }
    false
}

fn has_reserved(version: Version, name: &Name, params: &[(Name, Sexpr)]) -> bool
    ensures { result ≡ has_reserved version name.now (map (λ p. p.0) params.now) }
{
    if is_reserved(version, name) {
        return true;
    }
    any_reserved(version, params)
}

fn repeats(alloc: Global, hash_key: HashKey, params: &[(Name, Sexpr)]) -> Result<bool, AllocError>
    ensures { IfOk result (λ b. b ≡ stands_twice (map (λ p. p.0) params.now)) }
{
    let mut seen = IndexSet::with_hasher(alloc, hash_key);
    for param in params {
        if seen.contains(&param.0) {
            return Ok(true);
        }
        seen.insert(param.0)?;
    }
    Ok(false)
}

fn any_defined(names: &IndexMap<Name, usize, HashKey>, params: &[(Name, Sexpr)]) -> bool
    ensures { result ≡ list_any (λ p. is_some (lookup same names.now p)) (map (λ p. p.0) params.now) }
{
    for param in params {
        if names.contains_key(&param.0) {
            return true;
        }
    }
    false
}

fn is_before(names: &IndexMap<Name, usize, HashKey>, place: usize, name: &Name) -> bool
    ensures { result ≡ is_before place (lookup same names.now name.now) }
{
    match names.get(name) {
        Some(first) => *first < place,
        None => false,
    }
}

fn is_used(
    alloc: Global,
    names: &IndexMap<Name, usize, HashKey>,
    place: usize,
    name: &Name,
    params: &[(Name, Sexpr)],
) -> Result<bool, AllocError>
    ensures { IfOk result (λ b. b ≡ is_used (lookup same names.now) place name.now (map (λ p. p.0) params.now)) }
{
    if is_before(names, place, name) {
        return Ok(true);
    }
    if repeats(alloc, *names.hasher(), params)? {
        return Ok(true);
    }
    Ok(any_defined(names, params))
}

fn broken_at(span: Span, rule: Rule) -> Break
    ensures { result ≡ broken_at span rule }
{
    Break { rule, span }
}

/// Whether a rule of items has a number above that of an atom that is left out.
fn comes_last(rule: Rule) -> bool
    ensures { result ≡ comes_last rule }
{
    match rule {
        Rule::NameUsed => true,
        _ => false,
    }
}

/// The first of an atom that is left out and a rule that is broken with an item's span.
fn first_of(left_out: Option<Span>, rule: Rule, span: Span) -> Break
    ensures { result ≡ first_of left_out rule span }
{
    let Some(at) = left_out else {
        return broken_at(span, rule);
    };
    if at.end < span.end || (at.end == span.end && comes_last(rule)) {
        broken_at(at, Rule::NotInProfile)
    } else {
        broken_at(span, rule)
    }
}

/// What an item breaks by an atom that is left out.
fn by_left_out(left_out: Option<Span>) -> Option<Break>
    ensures { result ≡ option_map (λ at. broken_at at Rule.NotInProfile) left_out }
{
    match left_out {
        Some(at) => Some(broken_at(at, Rule::NotInProfile)),
        None => None,
    }
}

/// What a definition breaks first whose types are types, by its names and an atom that is left out.
fn by_names(
    alloc: Global,
    names: &Names,
    place: usize,
    name: &Name,
    params: &[(Name, Sexpr)],
    left_out: Option<Span>,
    span: Span,
) -> Result<Option<Break>, AllocError>
    ensures { IfOk result (λ b. b ≡ first_at
        (when (has_reserved names.now.version name.now (map (λ p. p.0) params.now)) Rule.BadName
        (when (is_used (lookup same names.now.first) place name.now (map (λ p. p.0) params.now)) Rule.NameUsed []))
        left_out span) }
{
    if has_reserved(names.version, name, params) {
        return Ok(Some(first_of(left_out, Rule::BadName, span)));
    }
    if is_used(alloc, &names.first, place, name, params)? {
        return Ok(Some(first_of(left_out, Rule::NameUsed, span)));
    }
    Ok(by_left_out(left_out))
}

/// The form, unless its item breaks a rule.
fn unless_broken(broken: Option<Break>, form: Form) -> Result<Form, Fault<Break>>
    ensures found { IfOk result (λ f. (broken ≡ None) × (f ≡ form)) }
    ensures broken { IfRefused result (λ r. broken ≡ Some r) }
{
    match broken {
        Some(broken) => Err(Fault::Refused(broken)),
        None => Ok(form),
    }
}

fn definition(
    alloc: Global,
    names: &Names,
    place: usize,
    name: Name,
    draft: Draft,
    left_out: Option<Span>,
    span: Span,
) -> Result<Form, Fault<Break>>
    ensures found { IfOk result (λ f.
        (first_at (rules_by names.now.version (lookup same names.now.first) place (Definition name (plain_draft draft))) left_out span ≡ None)
        × (form_by (Definition name (plain_draft draft)) span ≡ Some f)) }
    ensures broken { IfRefused result (λ r. first_at (rules_by names.now.version (lookup same names.now.first) place (Definition name (plain_draft draft))) left_out span ≡ Some r) }
{
    let broken = by_names(
        alloc,
        names,
        place,
        &name,
        params_of(&draft),
        left_out,
        span,
    )?;
    match draft.kind_of(alloc)? {
        Some(kind) => {
            let form = Form {
                name: Some(name),
                kind,
                span,
            };
            unless_broken(broken, form)
        }
        None => Err(Fault::Refused(first_of(left_out, Rule::BadType, span))),
    }
}

/// The form of an item at a place, or the first rule that it breaks.
fn form_of(alloc: Global, names: &Names, place: usize, entry: Entry) -> Result<Form, Fault<Break>>
    ensures found { IfOk result (λ f. (break_of names.now.version (lookup same names.now.first) place (plain_entry entry) ≡ None) × (form_at (plain_entry entry) ≡ Some f)) }
    ensures broken { IfRefused result (λ r. break_of names.now.version (lookup same names.now.first) place (plain_entry entry) ≡ Some r) }
{
    let Entry {
        item,
        left_out,
        span,
    } = entry;
    match item {
        Item::Expression(e) => {
            let form = Form {
                name: None,
                kind: FormKind::Expression(e),
                span,
            };
            unless_broken(by_left_out(left_out), form)
        }
        Item::Misshapen => Err(Fault::Refused(first_of(left_out, Rule::BadDefinition, span))),
        Item::Definition(name, draft) => {
            definition(alloc, names, place, name, draft, left_out, span)
        }
    }
}

fn forms_or_break(
    alloc: Global,
    names: &Names,
    entries: Vec<Entry>,
) -> Result<Vec<Form>, Fault<Break>>
    ensures found { IfOk result (λ v.
        (first_broken names.now.version (lookup same names.now.first) 0 (map plain_entry entries.items) ≡ None)
        × (map form_at (map plain_entry entries.items) ≡ map Some v.items)) }
    ensures broken { IfRefused result (λ r. first_broken names.now.version (lookup same names.now.first) 0 (map plain_entry entries.items) ≡ Some r) }
{
    let mut forms = Vec::new(alloc);
    for entry in entries {
        let place = forms.len();
        match form_of(alloc, names, place, entry) {
            Ok(form) => forms.push(form)?,
            Err(fault) => return Err(fault),
        }
    }
    Ok(forms)
}

fn forms_of(
    alloc: Global,
    hash_key: HashKey,
    items: Vec<Sexpr>,
    version: Version,
) -> Result<Vec<Form>, Fault<Break>>
    ensures found { IfOk result (λ v. AreForms version items.items v.items) }
    ensures broken { IfRefused result (IsFirstBreak version items.items) }
{
    let entries = look_at_all(alloc, items)?;
    let first = first_places(alloc, hash_key, &entries)?;
    let names = Names { version, first };
    forms_or_break(alloc, &names, entries)
}

/// The forms of the items of a text of this version, in their order, or the first of the rules F1 to F5 that an item breaks.
///
/// An earlier item goes first, then within an item the span that ends first, then the rule with the least number: so a
/// name that is left out (F4) is refused before what is wrong with its item. A definition is read by its shape (SIP-002);
/// numbers in types are taken by their value. It recurs only into brackets, and takes a time near linear in the size of the
/// items where no stranger chose their names: its tables hash by the key that everybody knows.
pub fn forms(
    alloc: Global,
    items: Vec<Sexpr>,
    version: Version,
) -> Result<Vec<Form>, Fault<Refusal>>
    ensures found { IfOk result (λ v. AreForms version items.items v.items) }
    ensures broken { IfRefused result
        (λ r. IsFirstBreak version items.items (record { rule = r.rule; span = r.span })) }
    ensures nameless { IfRefused result (λ r. r.names.items ≡ []) }
{
    forms_with_hash_key(alloc, HashKey::FIXED, items, version)
}

/// The same, with tables of names that hash by this key.
pub fn forms_with_hash_key(
    alloc: Global,
    hash_key: HashKey,
    items: Vec<Sexpr>,
    version: Version,
) -> Result<Vec<Form>, Fault<Refusal>>
    ensures found { IfOk result (λ v. AreForms version items.items v.items) }
    ensures broken { IfRefused result
        (λ r. IsFirstBreak version items.items (record { rule = r.rule; span = r.span })) }
    ensures nameless { IfRefused result (λ r. r.names.items ≡ []) }
{
    match forms_of(alloc, hash_key, items, version) {
        Ok(forms) => Ok(forms),
        Err(Fault::Refused(broken)) => Err(Fault::Refused(Refusal::of(alloc, broken))),
        Err(Fault::NoMemory) => Err(Fault::NoMemory),
    }
}
