//! What names stand for.
ghost use Rattle.std.specs.Prelude.{◌≡◌, is_some, IfOk, IfSome};
ghost use Rattle.cl_forms.specs.Names.{is_one_of};
ghost use Rattle.cl_forms.specs.Keywords.{keyword_name, keyword_of};
ghost use Rattle.cl_forms.specs.Heads.{native, define_words};
ghost use Rattle.cl_rules.specs.Context.{same, keyword_type, is_named};
ghost use Rattle.cl_judging.specs.Seen.{no_value_in, top_level_in, taken_in};

use crate::context::{Context, Signature, function_under, is_in, map_under, type_under};
use cl_forms::{Keyword, Version, is_one_of, is_reserved, native};
use cl_keyed::HashKey;
use cl_types::{Name, NoMemory, SizedTy, TyKind};
use cl_typing::{none_type, of};
use indexmap::IndexMap;
use std::alloc::Global;

/// Whether a name is a word.
#[tactic(auto, using(crate::proofs::WordLengths::other_length))]
pub(crate) fn is(name: &Name, word: &str) -> bool
    ensures { result ≡ same name.now word.now }
{
    // Most names differ in length, and this is told first.
    if name.bytes().len() != word.len() {
        return false;
    }
    name.bytes() == word.as_bytes()
}

/// The keyword of a name.
#[tactic(auto, using(cl_types::proofs::Lattice::keys_equal))]
pub(crate) fn keyword_of(name: &Name) -> Option<Keyword>
    ensures facts { result ≡ keyword_of name.now }
    ensures name { IfSome result (λ k. keyword_name k ≡ name.now) }
{
    if is(name, "true") {
        Some(Keyword::True)
    } else if is(name, "false") {
        Some(Keyword::False)
    } else if is(name, "none") {
        Some(Keyword::None)
    } else if is(name, "tx-sender") {
        Some(Keyword::TxSender)
    } else if is(name, "contract-caller") {
        Some(Keyword::ContractCaller)
    } else if is(name, "block-height") {
        Some(Keyword::BlockHeight)
    } else {
        None
    }
}

/// The type of a keyword.
pub(crate) fn keyword_type(alloc: Global, keyword: Keyword) -> Result<SizedTy, NoMemory>
    ensures { IfOk result (λ t. t ≡ keyword_type keyword) }
{
    match keyword {
        Keyword::True | Keyword::False => of(alloc, TyKind::Bool),
        Keyword::None => none_type(alloc),
        Keyword::TxSender | Keyword::ContractCaller => of(alloc, TyKind::Principal),
        Keyword::BlockHeight => of(alloc, TyKind::Uint),
    }
}

fn is_define_word(name: &Name) -> bool
    ensures { result ≡ is_one_of define_words name.now }
{
    is_one_of(
        &[
            "define-constant",
            "define-data-var",
            "define-map",
            "define-fungible-token",
            "define-non-fungible-token",
            "define-public",
            "define-read-only",
            "define-private",
        ],
        name,
    )
}

fn is_native(version: Version, name: &Name) -> bool
    ensures { result ≡ is_some (native version name.now) }
{
    native(name, version).is_some()
}

fn has_type(types: &IndexMap<Name, SizedTy, HashKey>, name: &Name) -> bool
    ensures { result ≡ is_named name.now types.now.entries }
{
    type_under(types, name).is_some()
}

fn has_map(maps: &IndexMap<Name, (SizedTy, SizedTy), HashKey>, name: &Name) -> bool
    ensures { result ≡ is_named name.now maps.now.entries }
{
    map_under(maps, name).is_some()
}

fn has_function(functions: &IndexMap<Name, Signature, HashKey>, name: &Name) -> bool
    ensures { result ≡ is_named name.now functions.now.entries }
{
    function_under(functions, name).is_some()
}

/// Whether a name stands for no value.
pub(crate) fn is_no_value(ctx: &Context, name: &Name) -> bool
    ensures { result ≡ no_value_in ctx.now name.now }
{
    is_native(ctx.version, name)
        || has_function(&ctx.functions, name)
        || has_type(&ctx.variables, name)
        || has_map(&ctx.maps, name)
        || is_in(&ctx.fungibles, name)
        || has_type(&ctx.nonfungibles, name)
        || is_define_word(name)
}

fn is_top_level(ctx: &Context, name: &Name) -> bool
    ensures { result ≡ top_level_in ctx.now name.now }
{
    has_type(&ctx.constants, name)
        || has_type(&ctx.variables, name)
        || has_map(&ctx.maps, name)
        || is_in(&ctx.fungibles, name)
        || has_type(&ctx.nonfungibles, name)
        || has_function(&ctx.functions, name)
}

/// Whether no binding may have a name.
pub(crate) fn is_taken(ctx: &Context, scope: &IndexMap<Name, SizedTy, HashKey>, name: &Name) -> bool
    ensures { result ≡ taken_in ctx.now scope.now.entries name.now }
{
    is_reserved(ctx.version, name) || is_top_level(ctx, name) || has_type(scope, name)
}
