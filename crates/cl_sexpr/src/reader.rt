//! The reader.
ghost use Rattle.std.specs.Prelude.{◌≡◌, ◌≤◌, ◌<◌, ◌+◌, ◌*◌, ◌^◌, List, [], ℕ, length, IfOk, IsTrue, Some};
ghost use Rattle.cl_types.specs.Fault.{IfRefused};
ghost use Rattle.cl_sexpr.specs.declared.rule.Break.{Break as Broken};
ghost use Rattle.cl_sexpr.specs.Tree.{Forest, forest, forest_size};
ghost use Rattle.cl_sexpr.specs.Token.{Opens, OpensTuple, Faulty, leaf_in, in_place, wants_key};
ghost use Rattle.cl_sexpr.specs.Text.{closes_none, opens_none, misplaced, break_at, Reads, Breaks, ReadsOrBreaks};
ghost use Rattle.cl_sexpr.specs.declared.leaf.Leaf.TheVariants.{Named};
ghost use Rattle.cl_sexpr.specs.declared.lexer.Token.TheVariants.{Item};
ghost use Rattle.cl_sexpr.specs.Leaf.{begins_name};
ghost use Rattle.cl_sexpr.specs.Lexed.{leaf, token, Lexes, number_leaf};
ghost use Rattle.cl_sexpr.specs.Progress.{opens, Takes};
ghost use Rattle.cl_sexpr.specs.Advances.{Advances};

use crate::bracket::Bracket;
use crate::bytes::{begins_name, is_separator, split_byte};
use crate::leaf::Leaf;
use crate::lexer::{Token, run_length, token_at};
use crate::number::{Number, number_at};
use crate::reading::{Level, Phase, Reading};
use crate::rule::{Break, Refusal, Rule, broken};
use crate::sexpr::{Sexpr, Span};
use cl_types::{Fault, Name};
use std::alloc::{AllocError, Global};

/// The most bytes of a text.
pub const MOST_BYTES: usize = 1_048_576;

/// How deep brackets may nest.
const MOST_OPEN: usize = 64;

fn closes_none(reading: &Reading) -> Rule
    ensures { result ≡ closes_none (opens reading.now) }
{
    match reading.open.last() {
        None => Rule::StrayClose,
        Some(level) => match level {
            Level::List(_, _) => Rule::StrayClose,
            Level::Tuple(_, _, _) => Rule::BadTuple,
        },
    }
}

fn opens_none(reading: &Reading) -> Rule
    ensures { result ≡ opens_none (opens reading.now) }
{
    if reading.depth() >= MOST_OPEN {
        Rule::TooNested
    } else {
        Rule::BadTuple
    }
}

fn faulty(reading: &Reading, refusal: Break, at: u32, end: u32) -> Break
    ensures { result ≡ misplaced (opens reading.now) (Faulty refusal) at end }
{
    if reading.takes() {
        refusal
    } else {
        broken(Rule::BadTuple, at, end)
    }
}

// What a token breaks, if it can't stand there.
fn misplaced(reading: &Reading, given: &Token, at: u32, end: u32) -> Break
    ensures { result ≡ misplaced (opens reading.now) (token given.now at end) at end }
{
    match given {
        Token::Opens | Token::OpensTuple => broken(opens_none(reading), at, end),
        Token::Closes => broken(Rule::StrayClose, at, end),
        Token::ClosesTuple => broken(closes_none(reading), at, end),
        Token::Faulty(refusal) => faulty(reading, *refusal, at, end),
        _ => broken(Rule::BadTuple, at, end),
    }
}

fn open_list(reading: &mut Reading, alloc: Global, at: u32) -> Result<bool, AllocError>
    requires { at + 1 < 2 ^ 32 }
    ensures { IfOk result (Takes reading.old reading.new (Opens at)) }
{
    if reading.depth() >= MOST_OPEN {
        return Ok(false);
    }
    if !reading.takes() {
        return Ok(false);
    }
    reading.open(Level::List(Bracket { place: at }, Vec::new(alloc)))?;
    Ok(true)
}

fn open_tuple(reading: &mut Reading, alloc: Global, at: u32) -> Result<bool, AllocError>
    requires { at + 1 < 2 ^ 32 }
    ensures { IfOk result (Takes reading.old reading.new (OpensTuple at)) }
{
    if reading.depth() >= MOST_OPEN {
        return Ok(false);
    }
    if !reading.takes() {
        return Ok(false);
    }
    reading.open(Level::Tuple(Bracket { place: at }, Vec::new(alloc), Phase::First))?;
    Ok(true)
}

// Takes an item of one token, or a key where one may stand.
fn take_leaf(reading: &mut Reading, given: Leaf, span: Span) -> Result<bool, AllocError>
    ensures { IfOk result (Takes reading.old reading.new (leaf_in (opens reading.old) (leaf given) span)) }
{
    match given {
        Leaf::Named(name) => {
            if reading.wants_key() {
                Ok(reading.key(name))
            } else {
                reading.add(Leaf::Named(name).item(span))
            }
        }
        given => reading.add(given.item(span)),
    }
}

// Takes a token, if it can stand there.
fn take(
    reading: &mut Reading,
    alloc: Global,
    given: Token,
    at: u32,
    end: u32,
) -> Result<bool, AllocError>
    requires room { at + 1 < 2 ^ 32 }
    ensures { IfOk result (Takes reading.old reading.new (in_place (opens reading.old) (token given at end))) }
{
    match given {
        Token::Separator => Ok(true),
        Token::Comment => Ok(true),
        Token::Colon => Ok(reading.colon()),
        Token::Comma => Ok(reading.comma()),
        Token::Opens => open_list(reading, alloc, at),
        Token::Closes => reading.close_list(end),
        Token::OpensTuple => open_tuple(reading, alloc, at),
        Token::ClosesTuple => reading.close_tuple(end),
        Token::Item(leaf) => take_leaf(reading, leaf, Span { start: at, end }),
        Token::Faulty(_) => Ok(false),
    }
}

// Reads any token on.
fn take_token<'a>(
    reading: &mut Reading,
    alloc: Global,
    bytes: &'a [u8],
    at: u32,
) -> Result<(&'a [u8], u32), Fault<Break>>
    requires some { 0 < length bytes.now }
    requires room { at + length bytes.now < 2 ^ 31 }
    ensures found { IfOk result (λ next. Advances reading.old reading.new at bytes.now next.1 next.0.now) }
    ensures shorter { IfOk result (λ next. length next.0.now < length bytes.now) }
    ensures broken { IfRefused result (λ r. break_at (opens reading.old) at bytes.now ≡ Some r) }
{
    match token_at(alloc, bytes, at) {
        Ok((given, size)) => {
            let (_, more) = bytes.split_at(size);
            let end = at + size as u32;
            // Found first, since a token that can't stand there ends the reading.
            let refusal = misplaced(reading, &given, at, end);
            if take(reading, alloc, given, at, end)? {
                Ok((more, end))
            } else {
                Err(Fault::Refused(refusal))
            }
        }
        Err(fault) => Err(fault),
    }
}

// Reads a number on that these bytes begin with.
fn take_number<'a>(
    reading: &mut Reading,
    number: Number,
    size: usize,
    bytes: &'a [u8],
    at: u32,
) -> Result<(&'a [u8], u32), Fault<Break>>
    requires number { Lexes (Item (number_leaf number)) size at bytes.now }
    requires room { at + length bytes.now < 2 ^ 31 }
    ensures found { IfOk result (λ next. Advances reading.old reading.new at bytes.now next.1 next.0.now) }
    ensures shorter { IfOk result (λ next. length next.0.now < length bytes.now) }
    ensures broken { IfRefused result (λ r. break_at (opens reading.old) at bytes.now ≡ Some r) }
{
    let (_, more) = bytes.split_at(size);
    let end = at + size as u32;
    if reading.add(number.item(Span { start: at, end }))? {
        Ok((more, end))
    } else {
        Err(Fault::Refused(broken(Rule::BadTuple, at, end)))
    }
}

// Reads a name on that these bytes begin with.
fn take_named<'a>(
    reading: &mut Reading,
    name: Name,
    size: usize,
    bytes: &'a [u8],
    at: u32,
) -> Result<(&'a [u8], u32), Fault<Break>>
    requires name { Lexes (Item (Named name)) size at bytes.now }
    requires room { at + length bytes.now < 2 ^ 31 }
    ensures found { IfOk result (λ next. Advances reading.old reading.new at bytes.now next.1 next.0.now) }
    ensures shorter { IfOk result (λ next. length next.0.now < length bytes.now) }
    ensures broken { IfRefused result (λ r. break_at (opens reading.old) at bytes.now ≡ Some r) }
{
    let (_, more) = bytes.split_at(size);
    let end = at + size as u32;
    if take_leaf(reading, Leaf::Named(name), Span { start: at, end })? {
        Ok((more, end))
    } else {
        Err(Fault::Refused(broken(Rule::BadTuple, at, end)))
    }
}

// Reads on a run that begins as a name does.
fn take_word<'a>(
    reading: &mut Reading,
    alloc: Global,
    bytes: &'a [u8],
    at: u32,
) -> Result<(&'a [u8], u32), Fault<Break>>
    requires begun { IsTrue (begins_name bytes.now) }
    requires some { 0 < length bytes.now }
    requires room { at + length bytes.now < 2 ^ 31 }
    ensures found { IfOk result (λ next. Advances reading.old reading.new at bytes.now next.1 next.0.now) }
    ensures shorter { IfOk result (λ next. length next.0.now < length bytes.now) }
    ensures broken { IfRefused result (λ r. break_at (opens reading.old) at bytes.now ≡ Some r) }
{
    let size = run_length(bytes);
    match Name::make(&bytes[..size]) {
        Some(name) => take_named(reading, name, size, bytes, at),
        None => take_token(reading, alloc, bytes, at),
    }
}

// Reads one token on. Separators, names and numbers go a short way, since most tokens are such.
fn take_next<'a>(
    reading: &mut Reading,
    alloc: Global,
    bytes: &'a [u8],
    at: u32,
) -> Result<(&'a [u8], u32), Fault<Break>>
    requires some { 0 < length bytes.now }
    requires room { at + length bytes.now < 2 ^ 31 }
    ensures found { IfOk result (λ next. Advances reading.old reading.new at bytes.now next.1 next.0.now) }
    ensures shorter { IfOk result (λ next. length next.0.now < length bytes.now) }
    ensures broken { IfRefused result (λ r. break_at (opens reading.old) at bytes.now ≡ Some r) }
{
    let (first, more) = split_byte(bytes);
    if is_separator(first) {
        return Ok((more, at + 1));
    }
    if begins_name(bytes) {
        return take_word(reading, alloc, bytes, at);
    }
    match number_at(bytes) {
        Some((number, size)) => take_number(reading, number, size, bytes, at),
        None => take_token(reading, alloc, bytes, at),
    }
}

fn items_or_break(alloc: Global, source: &[u8]) -> Result<Vec<Sexpr>, Fault<Break>>
    ensures found { IfOk result (λ items. Reads source.now (forest items.items)) }
    ensures broken { IfRefused result (Breaks source.now) }
{
    if source.len() > MOST_BYTES {
        return Err(Fault::Refused(broken(Rule::SourceTooLong, 0, 0)));
    }
    let mut reading = Reading::new(alloc);
    let mut rest = source;
    let mut at = 0u32;
    while !rest.is_empty() {
        match take_next(&mut reading, alloc, rest, at) {
            Ok((more, next)) => {
                rest = more;
                at = next;
            }
            Err(fault) => return Err(fault),
        }
    }
    match reading.innermost() {
        Some(span) => Err(Fault::Refused(Break {
            rule: Rule::Unclosed,
            span,
        })),
        None => Ok(reading.into_items()),
    }
}

/// The items of a text, or the first rule that it breaks.
///
/// The text is cut from the left into separators, comments and tokens that are as long as they can be. It is read in one
/// pass, with no recursion.
pub fn read(alloc: Global, source: &[u8]) -> Result<Vec<Sexpr>, Fault<Refusal>>
    ensures found { IfOk result (λ items. Reads source.now (forest items.items)) }
    ensures broken { IfRefused result (λ r. Breaks source.now (record { rule = r.rule; span = r.span })) }
    ensures nameless { IfRefused result (λ r. r.names.items ≡ []) }
{
    match items_or_break(alloc, source) {
        Ok(items) => Ok(items),
        Err(Fault::Refused(broken)) => Err(Fault::Refused(Refusal::of(alloc, broken))),
        Err(Fault::NoMemory) => Err(Fault::NoMemory),
    }
}

/// The laws of reading: a text has one list of items or one first break, and not both, and its items are few.
pub fn one_reading()
    ensures reading { (bytes : List ℕ) (a b : Forest) → Reads bytes a → Reads bytes b → a ≡ b }
    ensures either { (bytes : List ℕ) (a : Forest) (r : Broken) → Reads bytes a → Breaks bytes r → ⊥ }
    ensures first { (bytes : List ℕ) (r s : Broken) → Breaks bytes r → Breaks bytes s → r ≡ s }
    ensures few { (bytes : List ℕ) (a : Forest) → Reads bytes a → forest_size a ≤ 2 * length bytes }
{}

/// The law that reading has an answer: each text has items or a first break. With [`one_reading`] it has one of the two, and
/// one alone.
pub fn each_text_has_an_answer()
    ensures { (bytes : List ℕ) → ReadsOrBreaks bytes }
{}
