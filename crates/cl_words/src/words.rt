//! The table of commands.
ghost use Rattle.std.specs.Prelude.{◌≡◌, ◌≤◌, ◌-◌, ◌^◌, option_map, IfSome};
ghost use Rattle.cl_words.specs.Words.{texts, check_under, run_of, gen_by, gen_of, trace_of, audit_of, root_of, prove_of, are_short, verify_of, root_command, command_with, command_with_words, command_of, with_flag, command_in, command_on, IsOfTable};
ghost use Rattle.cl_words.specs.Numbers.{number_within};
ghost use Rattle.cl_words.specs.Seen.{command_seen, line_of};
ghost use Rattle.cl_c32.specs.Codec.{decoded};

use crate::line::{Flag, Line};
use crate::numbers::number_within;
use crate::sources::are_sources;
use cl_c32::{Address, decode};
use cl_forms::Version;

/// The words of `check`.
#[derive(Clone, Copy)]
pub struct CheckWords<'a> {
    pub costs: &'a str,
    pub address: Address,
    pub paths: &'a [String],
    /// The version of all its contracts.
    pub version: Version,
}

/// The words of `audit`.
#[derive(Clone, Copy)]
pub struct AuditWords<'a> {
    pub costs: &'a str,
    pub file: &'a str,
    pub trace: &'a str,
    pub report: &'a str,
}

/// A command with its words.
#[derive(Clone, Copy)]
pub enum Command<'a> {
    /// Deploys the file as a contract of this version, and calls the function with the values that
    /// these words spell.
    Call {
        file: &'a str,
        function: &'a str,
        args: &'a [String],
        version: Version,
    },
    /// What the entries of a transaction file come to under a file of costs, and with `state` the
    /// state after them.
    Run {
        costs: &'a str,
        file: &'a str,
        state: bool,
    },
    /// What becomes of the sources under these paths, one after another, as contracts under an
    /// address.
    Check(CheckWords<'a>),
    /// The text of the value with this wire form.
    Value(&'a str),
    /// The wire form of the value with this text.
    Wire(&'a str),
    /// What a workload comes to, by its seed and its number of calls.
    Gen {
        seed: u64,
        count: u32,
    },
    /// The value of each node of the entries' evaluations that gives one, with the node's span.
    Trace {
        costs: &'a str,
        file: &'a str,
    },
    /// Whether a trace file and a report are those of a transaction file under a file of costs.
    Audit(AuditWords<'a>),
    /// The root of the state after the entries of a transaction file under a file of costs.
    Root {
        costs: &'a str,
        file: &'a str,
    },
    /// The row of that state with this number, counted from 0 in the order of the state's lines,
    /// and its path to the root.
    Prove {
        costs: &'a str,
        file: &'a str,
        number: u32,
    },
    /// Whether a key and a value lead by these sides to a root, all in hexadecimal digits.
    Verify {
        root: &'a str,
        key: &'a str,
        value: &'a str,
        sides: &'a [String],
    },
}

/// The command of one word with this name.
fn command_with<'a>(name: &str, word: &'a str) -> Option<Command<'a>>
    ensures { option_map command_seen result ≡ command_with name.now word.now }
{
    if name == "value" {
        return Some(Command::Value(word));
    }
    if name == "wire" {
        return Some(Command::Wire(word));
    }
    None
}

/// `check` under this address.
fn check_under<'a>(costs: &'a str, address: &str, paths: &'a [String]) -> Option<Command<'a>>
    ensures { option_map command_seen result
        ≡ check_under costs.now (texts paths.now) (decoded address.now) }
{
    let Ok(address) = decode(address.as_bytes()) else {
        return None;
    };
    if !are_sources(paths) {
        return None;
    }
    Some(Command::Check(CheckWords {
        costs,
        address,
        paths,
        version: Version::One,
    }))
}

/// `run` with these words.
fn run_of<'a>(costs: &'a str, file: &'a str, words: &'a [String]) -> Option<Command<'a>>
    ensures { option_map command_seen result ≡ run_of costs.now file.now (texts words.now) }
{
    match words {
        [] => Some(Command::Run {
            costs,
            file,
            state: false,
        }),
        _ => None,
    }
}

/// `gen` with these numbers, of which the second is at most 99,999.
fn gen_by<'a>(seed: Option<u64>, count: Option<u64>) -> Option<Command<'a>>
    requires { IfSome count (λ n. n ≤ 99999) }
    ensures { option_map command_seen result ≡ gen_by seed count }
{
    let seed = seed?;
    let count = count? as u32;
    Some(Command::Gen { seed, count })
}

/// `gen` with these words.
fn gen_of<'a>(seed: &str, count: &str, words: &[String]) -> Option<Command<'a>>
    ensures { option_map command_seen result ≡ gen_of seed.now count.now (texts words.now) }
{
    match words {
        [] => gen_by(number_within(seed, u64::MAX), number_within(count, 99_999)),
        _ => None,
    }
}

/// `trace` with these words.
fn trace_of<'a>(costs: &'a str, file: &'a str, words: &'a [String]) -> Option<Command<'a>>
    ensures { option_map command_seen result ≡ trace_of costs.now file.now (texts words.now) }
{
    match words {
        [] => Some(Command::Trace { costs, file }),
        _ => None,
    }
}

/// `audit` with these words.
fn audit_of<'a>(costs: &'a str, file: &'a str, words: &'a [String]) -> Option<Command<'a>>
    ensures { option_map command_seen result ≡ audit_of costs.now file.now (texts words.now) }
{
    match words {
        [trace, report] => Some(Command::Audit(AuditWords {
            costs,
            file,
            trace: trace.as_str(),
            report: report.as_str(),
        })),
        _ => None,
    }
}

/// `root` with these words.
fn root_of<'a>(costs: &'a str, file: &'a str, words: &'a [String]) -> Option<Command<'a>>
    ensures { option_map command_seen result ≡ root_of costs.now file.now (texts words.now) }
{
    match words {
        [] => Some(Command::Root { costs, file }),
        _ => None,
    }
}

/// The number of a row.
fn row_number(word: &str) -> Option<u32>
    ensures { result ≡ number_within word.now (2 ^ 32 - 1) }
{
    let number = number_within(word, 4_294_967_295)?;
    Some(number as u32)
}

/// `prove` with these words.
fn prove_of<'a>(costs: &'a str, file: &'a str, words: &'a [String]) -> Option<Command<'a>>
    ensures { option_map command_seen result ≡ prove_of costs.now file.now (texts words.now) }
{
    let [number] = words else {
        return None;
    };
    let number = row_number(number.as_str())?;
    Some(Command::Prove {
        costs,
        file,
        number,
    })
}

/// Whether the key has less than 2^32 bytes, of two digits each, and the path at most 64 sides.
fn are_short(key: &str, sides: &[String]) -> bool
    ensures { result ≡ are_short key.now (texts sides.now) }
{
    key.len() < 8_589_934_592 && sides.len() <= 64
}

/// `verify` with these words.
fn verify_of<'a>(root: &'a str, key: &'a str, words: &'a [String]) -> Option<Command<'a>>
    ensures { option_map command_seen result ≡ verify_of root.now key.now (texts words.now) }
{
    let [value, sides @ ..] = words else {
        return None;
    };
    if !are_short(key, sides) {
        return None;
    }
    Some(Command::Verify {
        root,
        key,
        value: value.as_str(),
        sides,
    })
}

/// The command of a state's root with this name and at least two more words.
fn root_command<'a>(
    name: &str,
    first: &'a str,
    second: &'a str,
    words: &'a [String],
) -> Option<Command<'a>>
    ensures { option_map command_seen result
        ≡ root_command name.now first.now second.now (texts words.now) }
{
    if name == "root" {
        return root_of(first, second, words);
    }
    if name == "prove" {
        return prove_of(first, second, words);
    }
    if name == "verify" {
        return verify_of(first, second, words);
    }
    None
}

/// The command with this name and at least two more words.
fn command_with_words<'a>(
    name: &str,
    first: &'a str,
    second: &'a str,
    words: &'a [String],
) -> Option<Command<'a>>
    ensures { option_map command_seen result
        ≡ command_with_words name.now first.now second.now (texts words.now) }
{
    if name == "call" {
        return Some(Command::Call {
            file: first,
            function: second,
            args: words,
            version: Version::One,
        });
    }
    if name == "check" {
        return check_under(first, second, words);
    }
    if name == "run" {
        return run_of(first, second, words);
    }
    if name == "gen" {
        return gen_of(first, second, words);
    }
    if name == "trace" {
        return trace_of(first, second, words);
    }
    if name == "audit" {
        return audit_of(first, second, words);
    }
    root_command(name, first, second, words)
}

/// The command of words without a flag.
fn command_of(words: &[String]) -> Option<Command<'_>>
    ensures { option_map command_seen result ≡ command_of (texts words.now) }
{
    match words {
        [name, word] => command_with(name.as_str(), word.as_str()),
        [name, first, second, words @ ..] => {
            command_with_words(name.as_str(), first.as_str(), second.as_str(), words)
        }
        [] | [_] => None,
    }
}

/// The command with a flag: `run` alone takes `--state`, and `call` and `check` alone take
/// `--clarity2`.
fn with_flag<'a>(flag: Flag, command: &Command<'a>) -> Option<Command<'a>>
    ensures { option_map command_seen result ≡ with_flag flag (command_seen command.now) }
{
    match (flag, command) {
        (Flag::State, Command::Run { costs, file, .. }) => Some(Command::Run {
            costs: *costs,
            file: *file,
            state: true,
        }),
        (
            Flag::Clarity2,
            Command::Call {
                file,
                function,
                args,
                ..
            },
        ) => Some(Command::Call {
            file: *file,
            function: *function,
            args: *args,
            version: Version::Two,
        }),
        (Flag::Clarity2, Command::Check(words)) => Some(Command::Check(CheckWords {
            version: Version::Two,
            ..*words
        })),
        _ => None,
    }
}

/// The command of positional words, with a flag or without.
fn command_in(line: &Line) -> Option<Command<'_>>
    ensures { option_map command_seen result
        ≡ command_in line.now.flag (texts line.now.words.items) }
{
    let command = command_of(line.words.as_slice());
    let Some(flag) = line.flag else {
        return command;
    };
    match &command {
        Some(command) => with_flag(flag, command),
        None => None,
    }
}

/// The command that words give, where they keep the rule and are of the table.
pub fn command_on(line: &Option<Line>) -> Option<Command<'_>>
    ensures command { option_map command_seen result ≡ command_on (option_map line_of line.now) }
    ensures table { IsOfTable (option_map command_seen result) }
{
    match line {
        Some(line) => command_in(line),
        None => None,
    }
}
