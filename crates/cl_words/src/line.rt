//! How the words of a command line are read: which are positional, and which flag is there.
ghost use Rattle.std.specs.Prelude.{◌≡◌, drop, false, option_map, IfOk};
ghost use Rattle.cl_words.specs.Seen.{line_of};
ghost use Rattle.cl_words.specs.Words.{texts, flag_of, is_dashed, keeps_rule, flags_in, only_flag, positional, line_in, same_texts};

use cl_types::NoMemory;
use clap::{Arg, ArgAction, ArgMatches, Command};
use std::alloc::{AllocError, Global};

/// A flag of a command line.
#[derive(Clone, Copy, PartialEq)]
pub enum Flag {
    /// `--state`: `run` writes the state too.
    State,
    /// `--clarity2`: all contracts of `call` or `check` are of version 2.
    Clarity2,
}

/// The names of the flags for `clap`, without the `--` before them.
const STATE: &str = "state";

const CLARITY2: &str = "clarity2";

/// The positional words of a command line that keeps the rule, and its flag, if there is one.
#[derive(Drop)]
pub struct Line {
    pub words: Vec<String>,
    pub flag: Option<Flag>,
}

/// The flag that a word is.
fn flag_of(word: &str) -> Option<Flag>
    ensures { result ≡ flag_of word.now }
{
    if word == "--state" {
        return Some(Flag::State);
    }
    if word == "--clarity2" {
        return Some(Flag::Clarity2);
    }
    None
}

/// Whether a word begins with `-` and isn't `-` alone.
fn is_dashed(word: &str) -> bool
    ensures { result ≡ is_dashed word.now }
{
    match word.as_bytes() {
        [first, _second, _rest @ ..] => *first == b'-',
        _ => false,
    }
}

/// Whether each word before the first `--` that is dashed is a flag.
fn keeps_rule(words: &[String]) -> bool
    ensures { result ≡ keeps_rule (texts words.now) }
{
    for word in words {
        if word.as_str() == "--" {
            return true;
        }
        if is_dashed(word.as_str()) && flag_of(word.as_str()).is_none() {
            return false;
        }
    }
    true
}

/// The flag before the first `--`, or that there is none; none where there are more.
fn only_flag(words: &[String]) -> Option<Option<Flag>>
    ensures { result ≡ only_flag (flags_in (texts words.now)) }
{
    let mut seen = None;
    for word in words {
        if word.as_str() == "--" {
            return Some(seen);
        }
        let flag = flag_of(word.as_str());
        if flag.is_some() {
            if seen.is_some() {
                return None;
            }
            seen = flag;
        }
    }
    Some(seen)
}

/// Whether the words from a place on are those expected from theirs on.
fn same_texts(words: &[String], from: usize, expected: &[String], at: usize) -> bool
    ensures { result ≡ same_texts (texts (drop from words.now)) (texts (drop at expected.now)) }
{
    let mut at = at;
    let mut i = from;
    while i < words.len() {
        if at >= expected.len() {
            return false;
        }
        if words[i].as_str() != expected[at].as_str() {
            return false;
        }
        at += 1;
        i += 1;
    }
    at >= expected.len()
}

/// Whether these are the positional ones of the words.
fn are_positional(words: &[String], expected: &[String]) -> bool
    ensures { result ≡ same_texts (positional (texts words.now)) (texts expected.now) }
{
    let mut at = 0;
    for i in 0..words.len() {
        let word = words[i].as_str();
        if word == "--" {
            return same_texts(words, i + 1, expected, at);
        }
        if flag_of(word).is_none() {
            if at >= expected.len() || word != expected[at].as_str() {
                return false;
            }
            at += 1;
        }
    }
    at >= expected.len()
}

/// Puts a copy of a word behind others.
fn push_copy(alloc: Global, words: &mut Vec<String>, word: &str) -> Result<(), NoMemory> {
    words.push(String::from_str(alloc, word)?)?;
    Ok(())
}

/// The flag that `clap` found.
fn flag_found(matches: &ArgMatches) -> Option<Flag> {
    if matches.get_flag(STATE) {
        return Some(Flag::State);
    }
    if matches.get_flag(CLARITY2) {
        return Some(Flag::Clarity2);
    }
    None
}

/// The words and the flag that `clap` found.
fn line_found(alloc: Global, matches: &ArgMatches) -> Result<Line, NoMemory> {
    let mut positional = Vec::new(alloc);
    if let Some(first) = matches.get_str("COMMAND") {
        push_copy(alloc, &mut positional, first)?;
    }
    if let Some(rest) = matches.get_strs("WORDS") {
        for word in rest {
            push_copy(alloc, &mut positional, word)?;
        }
    }
    Ok(Line {
        words: positional,
        flag: flag_found(matches),
    })
}

/// The command line as `clap` is given it: positional words, and the flags.
fn command<'a>(alloc: Global) -> Result<Command<'a>, AllocError> {
    let bare = Command::new(alloc, "clarity")
        .no_binary_name(true)
        .disable_help_flag(true);
    let led = bare.arg(Arg::new(alloc, "COMMAND"))?;
    let positional = led.arg(Arg::new(alloc, "WORDS").action(ArgAction::Append))?;
    let state = Arg::new(alloc, STATE).long(STATE);
    let stated = positional.arg(state.action(ArgAction::SetTrue))?;
    let clarity2 = Arg::new(alloc, CLARITY2).long(CLARITY2);
    stated.arg(clarity2.action(ArgAction::SetTrue))
}

/// What `clap` makes of words that keep the rule. It refuses none of them: where it fails, memory
/// ran out. No clause speaks of what it gives, since that is tested.
fn by_clap(alloc: Global, words: &[String]) -> Result<Line, NoMemory> {
    let Ok(matches) = command(alloc)?.try_get_matches_from(words) else {
        return Err(NoMemory);
    };
    let line = line_found(alloc, &matches);
    drop(matches);
    line
}

/// Reads the words; none where they don't keep the rule. It is tested on the words themselves, as
/// is what `clap` gives, so that nothing rests on a fault of `clap`.
pub fn read(alloc: Global, words: &[String]) -> Result<Option<Line>, NoMemory>
    ensures { IfOk result (λ line. option_map line_of line ≡ line_in (texts words.now)) }
{
    if !keeps_rule(words) {
        return Ok(None);
    }
    let Some(flag) = only_flag(words) else {
        return Ok(None);
    };
    let line = by_clap(alloc, words)?;
    if line.flag == flag && are_positional(words, line.words.as_slice()) {
        return Ok(Some(line));
    }
    Err(NoMemory)
}
