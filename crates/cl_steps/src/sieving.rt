//! What filter keeps of a sequence.
ghost use Rattle.std.specs.Prelude.{◌≡◌, ◌≤◌, ◌∷◌, ◌++◌, [], true, false, List, IfOk, option_map, get_or, if◌then◌else◌};
ghost use Rattle.cl_shapes.specs.Limits.{Purse};
ghost use Rattle.cl_events.specs.State.{State};
ghost use Rattle.std.specs.List.{list_all};
ghost use Rattle.cl_values.specs.Tree.{Tree, BuffV, AsciiV, Utf8V, ListV, items_of, depth_of};
ghost use Rattle.cl_values.specs.Valid.{IsVal, has_rising_keys, has_good_texts, is_text_byte};
ghost use Rattle.cl_values.specs.Computed.{Gives};
ghost use Rattle.cl_meaning.specs.Answers.{outcome_of};
ghost use Rattle.cl_meaning.specs.Limits.{Costs, limited};
ghost use Rattle.cl_frames.specs.Kept.{flags_of, chosen, sieved, kept_of};
ghost use Rattle.cl_frames.specs.Runs.{Computes, Ends};

use crate::applied::truth_of;
use cl_frames::Stop;
use cl_types::NoMemory;
use cl_values::{Kind, Val, Value};
use std::alloc::Global;

/// The results as truth values; None where one is none.
fn flags(alloc: Global, results: &[Val]) -> Result<Option<Vec<bool>>, NoMemory>
    ensures { IfOk result (λ flags. option_map (λ bs. bs.items) flags ≡ flags_of results.now) }
{
    let mut flags = Vec::with_capacity(alloc, results.len())?;
    for value in results {
        match truth_of(value) {
            Some(holds) => flags.push(holds)?,
            None => return Ok(None),
        }
    }
    Ok(Some(flags))
}

/// Whether there is a flag at a place that is true.
fn flag_at(flags: &[bool], place: usize) -> bool
    ensures { result ≡ get_or flags.now place false }
{
    place < flags.len() && flags[place]
}

/// With one more item at the end, where it is to be kept.
fn with_chosen<T: Drop>(mut kept: Vec<T>, item: T, holds: bool) -> Result<Vec<T>, NoMemory>
    ensures { IfOk result (λ more. more.items ≡ (if holds then kept.items ++ item ∷ [] else kept.items)) }
{
    if holds {
        kept.push(item)?;
    }
    Ok(kept)
}

/// The items at which the flag is true, moved.
fn chosen<T: Drop>(alloc: Global, items: Vec<T>, flags: &[bool]) -> Result<Vec<T>, NoMemory>
    ensures { IfOk result (λ kept. kept.items ≡ chosen items.items flags.now) }
{
    let mut kept = Vec::new(alloc);
    let mut place = 0;
    for item in items {
        kept = with_chosen(kept, item, flag_at(flags, place))?;
        place += 1;
    }
    Ok(kept)
}

/// A value that is to be within the limits.
fn within(value: Value) -> Result<Val, Stop>
    requires keys { has_rising_keys value ≡ true }
    requires texts { has_good_texts value ≡ true }
    requires flat { depth_of value ≤ 32 }
    ensures { Computes (outcome_of (Gives value)) result }
{
    match Val::make(value) {
        Ok(value) => Ok(value),
        Err(_) => Err(Stop::Stuck),
    }
}

fn sieved_buff(alloc: Global, bytes: Vec<u8>, flags: &[bool]) -> Result<Val, Stop>
    ensures { Computes (outcome_of (sieved (BuffV bytes.items) flags.now)) result }
{
    let kept = chosen(alloc, bytes, flags)?;
    within(Value {
        kind: Kind::Buff(kept),
    })
}

fn sieved_text(alloc: Global, bytes: Vec<u8>, flags: &[bool]) -> Result<Val, Stop>
    requires { list_all is_text_byte bytes.items ≡ true }
    ensures { Computes (outcome_of (sieved (AsciiV bytes.items) flags.now)) result }
{
    let kept = chosen(alloc, bytes, flags)?;
    within(Value {
        kind: Kind::Ascii(kept),
    })
}

fn sieved_string(alloc: Global, characters: Vec<char>, flags: &[bool]) -> Result<Val, Stop>
    ensures { Computes (outcome_of (sieved (Utf8V characters.items) flags.now)) result }
{
    let kept = chosen(alloc, characters, flags)?;
    within(Value {
        kind: Kind::Utf8(kept),
    })
}

fn sieved_list(alloc: Global, values: Vec<Value>, flags: &[bool]) -> Result<Val, Stop>
    requires { IsVal (ListV (items_of values.items)) }
    ensures { Computes (outcome_of (sieved (ListV (items_of values.items)) flags.now)) result }
{
    let kept = chosen(alloc, values, flags)?;
    within(Value {
        kind: Kind::List(kept),
    })
}

/// The entries of a sequence at which the flag is true, as a sequence of the same kind.
fn sieved(alloc: Global, sequence: Val, flags: &[bool]) -> Result<Val, Stop>
    ensures { Computes (outcome_of (sieved sequence flags.now)) result }
{
    match sequence.into_value().kind {
        Kind::Buff(bytes) => sieved_buff(alloc, bytes, flags),
        Kind::Ascii(bytes) => sieved_text(alloc, bytes, flags),
        Kind::Utf8(characters) => sieved_string(alloc, characters, flags),
        Kind::List(values) => sieved_list(alloc, values, flags),
        _ => Err(Stop::Stuck),
    }
}

/// The same of the only one of sequences.
fn only_sieved(alloc: Global, mut sequences: Vec<Val>, flags: &[bool]) -> Result<Val, Stop>
    ensures { (v : Tree) → sequences.items ≡ v ∷ [] → Computes (outcome_of (sieved v flags.now)) result }
{
    match sequences.pop() {
        Some(sequence) => sieved(alloc, sequence, flags),
        None => Err(Stop::Stuck),
    }
}

/// What filter keeps of the only one of sequences, by the results at its entries.
pub fn sieve(alloc: Global, sequences: Vec<Val>, results: &[Val]) -> Result<Val, Stop>
    ensures { (costs : Costs) (p : Purse) (s : State) (v : Tree) → sequences.items ≡ v ∷ [] → Ends (limited costs p (kept_of v results.now s)) result p s }
{
    match flags(alloc, results)? {
        Some(flags) => only_sieved(alloc, sequences, &flags),
        None => Err(Stop::Stuck),
    }
}
