//! Tuples.
ghost use Rattle.std.specs.Prelude.{◌≡◌, ◌<◌, [], false, filter_map, is_some, length, map, not, true, IfOk};
ghost use Rattle.cl_code.specs.Nodes.{are_once};
ghost use Rattle.cl_forms.specs.Shapes.{binding_of, bindings_of};
ghost use Rattle.cl_judging.specs.LetWalk.{exprs_of};
ghost use Rattle.cl_rules.specs.DataShapes.{keys_of, stands_twice, tuple_row};
ghost use Rattle.cl_typing.specs.Verdicts.{ConcludesRow};

use crate::context::Context;
use crate::scope::binding_at;
use cl_contracts::keys_stand_once;
use cl_keyed::HashKey;
use cl_sexpr::{Rule, Sexpr};
use cl_types::{Fault, Name};
use cl_typing::{Checked, Concluded, conclude, tuple_type, types_of};
use indexmap::IndexSet;
use std::alloc::{AllocError, Global};

/// The keys of a tuple.
pub(crate) fn keys_in(alloc: Global, pairs: &[(Name, Sexpr)]) -> Result<Vec<Name>, AllocError>
    ensures { IfOk result (λ v. v.items ≡ keys_of pairs.now) }
{
    let mut keys = Vec::new(alloc);
    for pair in pairs {
        keys.push(pair.0)?;
    }
    Ok(keys)
}

/// The expressions of a tuple.
pub(crate) fn exprs_in<'a>(
    alloc: Global,
    pairs: &'a [(Name, Sexpr)],
) -> Result<Vec<&'a Sexpr>, AllocError>
    ensures { IfOk result (λ v. map (λ e. e.now) v.items ≡ map (λ p. p.1) pairs.now) }
{
    let mut exprs = Vec::new(alloc);
    for pair in pairs {
        exprs.push(&pair.1)?;
    }
    Ok(exprs)
}

/// The keys of bindings.
pub(crate) fn bound_keys(alloc: Global, items: &[Sexpr]) -> Result<Vec<Name>, AllocError>
    requires { is_some (bindings_of items.now) ≡ true }
    ensures { IfOk result (λ v. v.items ≡ keys_of (filter_map binding_of items.now)) }
{
    let mut keys = Vec::new(alloc);
    for item in items {
        let Some((binding, _)) = binding_at(item) else {
            unreachable!()
        };
        keys.push(binding.word.name)?;
    }
    Ok(keys)
}

/// The expressions of bindings.
pub(crate) fn bound_exprs<'a>(
    alloc: Global,
    items: &'a [Sexpr],
) -> Result<Vec<&'a Sexpr>, AllocError>
    requires { is_some (bindings_of items.now) ≡ true }
    ensures { IfOk result (λ v. map (λ e. e.now) v.items ≡ exprs_of items.now) }
{
    let mut exprs = Vec::new(alloc);
    for item in items {
        let Some((_, e)) = binding_at(item) else {
            unreachable!()
        };
        exprs.push(e)?;
    }
    Ok(exprs)
}

/// Whether a key stands twice. Those before it are noted in a set that is borrowed, so none of the
/// ways out lets go of it.
fn repeats_in(keys: &[Name], seen: &mut IndexSet<Name, HashKey>) -> Result<bool, AllocError>
    requires { seen.old.keys ≡ [] }
    ensures { IfOk result (λ b. b ≡ stands_twice keys.now) }
{
    for key in keys {
        if seen.contains(key) {
            return Ok(true);
        }
        seen.insert(*key)?;
    }
    Ok(false)
}

fn repeats(alloc: Global, hash_key: HashKey, keys: &[Name]) -> Result<bool, AllocError>
    ensures { IfOk result (λ b. b ≡ stands_twice keys.now) }
{
    let mut seen = IndexSet::with_hasher(alloc, hash_key);
    repeats_in(keys, &mut seen)
}

/// Whether a key stands twice.
pub(crate) fn stand_twice(alloc: Global, ctx: &Context, keys: &[Name]) -> Result<bool, AllocError>
    ensures twice { IfOk result (λ b. b ≡ stands_twice keys.now) }
    ensures once { IfOk result (λ b. are_once keys.now ≡ not b) }
{
    keys_stand_once();
    let twice = repeats(alloc, ctx.hash_key(), keys)?;
    Ok(twice)
}

/// The verdict on a tuple of these keys, of which none stands twice.
pub(crate) fn on_tuple(
    alloc: Global,
    keys: &[Name],
    parts: &[Checked],
) -> Result<Concluded, Fault<Rule>>
    requires count { length keys.now ≡ length parts.now }
    requires some { 0 < length keys.now }
    requires once { stands_twice keys.now ≡ false }
    ensures { ConcludesRow (tuple_row keys.now) 0 parts.now result }
{
    let types = types_of(alloc, parts)?;
    let ruled = tuple_type(alloc, keys, &types);
    conclude(alloc, ruled, &None, 0, parts)
}
