//! A case is run over files, a sink and listeners in memory, by the top call of its program.
use crate::fault::BadCase;
use crate::hearing::{is_heard, recorders};
use crate::member::{bytes, number, numbers, texts, words};
use cl_app::clarity;
use cl_json::unknown_member;
use cl_lanes_app::clarity_lanes;
use cl_ports::{MemoryFiles, MemorySink};
use serde_json::Value;
use std::alloc::Global;

/// The room of a sink, where the case says none.
const ROOM: u32 = 100_000;

const MEMBERS: [&str; 16] = [
    "about",
    "cases",
    "name",
    "program",
    "words",
    "files",
    "failing_reads",
    "failing_writes",
    "failing_hearings",
    "room",
    "status",
    "output",
    "start",
    "asked",
    "heard",
    "deaf",
];

/// A case of a theme. What it leaves out is as the theme says.
#[derive(Clone, Copy)]
pub(crate) struct Case<'a> {
    theme: &'a Value,
    own: &'a Value,
}

impl<'a> Case<'a> {
    /// The case, if the names of all members are known.
    pub(crate) fn new(theme: &'a Value, own: &'a Value) -> Result<Self, BadCase> {
        if are_known(theme) && are_known(own) {
            Ok(Case { theme, own })
        } else {
            Err(BadCase::Unknown)
        }
    }

    fn get(self, name: &str) -> Option<&'a Value> {
        match self.own.get(name) {
            Some(value) => Some(value),
            None => self.theme.get(name),
        }
    }
}

type Held = Vec<(String, Vec<u8>)>;

// Adds these files to those that are held.
fn hold(rt: &HostRuntime, files: Option<&Value>, held: &mut Held) -> Result<(), BadCase> {
    let alloc = rt.alloc();
    let Some(files) = files else {
        return Ok(());
    };
    for (name, content) in files.as_object().ok_or(BadCase::Member("files"))?.iter() {
        let content = bytes(rt, content, "files")?;
        held.push((String::from_str(alloc, name.as_str())?, content))?;
    }
    Ok(())
}

// The files of the case, and behind them those of its theme: of two with one name the first counts.
fn files_of(rt: &HostRuntime, case: Case) -> Result<MemoryFiles, BadCase> {
    let alloc = rt.alloc();
    let mut held = Vec::new(alloc);
    hold(rt, case.own.get("files"), &mut held)?;
    hold(rt, case.theme.get("files"), &mut held)?;
    let fails = numbers(alloc, case.get("failing_reads"), "failing_reads")?;
    Ok(MemoryFiles::new(alloc, held, fails))
}

fn sink_of(alloc: Global, case: Case) -> Result<MemorySink, BadCase> {
    let fails = numbers(alloc, case.get("failing_writes"), "failing_writes")?;
    let room = match case.get("room") {
        Some(room) => number(room, "room")?,
        None => ROOM,
    };
    MemorySink::new(alloc, room, fails).map_err(|_| BadCase::NoMemory)
}

fn is_status(case: Case, status: u8) -> Result<bool, BadCase> {
    let wanted = case.get("status").ok_or(BadCase::Member("status"))?;
    Ok(number(wanted, "status")? == u32::from(status))
}

// Whether these bytes are the whole that the case wants, or start as it says.
fn is_output(rt: &HostRuntime, case: Case, written: &[u8]) -> Result<bool, BadCase> {
    if let Some(start) = case.get("start") {
        return Ok(written.starts_with(bytes(rt, start, "start")?.as_slice()));
    }
    let output = case.get("output").ok_or(BadCase::Member("output"))?;
    Ok(written == bytes(rt, output, "output")?.as_slice())
}

fn is_asked(alloc: Global, case: Case, asked: &[String]) -> Result<bool, BadCase> {
    let wanted = case.get("asked");
    if wanted.is_none() {
        return Ok(true);
    }
    Ok(texts(alloc, wanted, "asked")?.as_slice() == asked)
}

/// What a case ended with.
#[derive(Drop)]
pub(crate) struct Ended {
    pub(crate) is_as_wanted: bool,
    pub(crate) status: u8,
    pub(crate) out: MemorySink,
    pub(crate) files: MemoryFiles,
}

// That a theme or a case has none but the known members.
fn are_known(value: &Value) -> bool {
    match value.as_object() {
        Some(members) => unknown_member(&MEMBERS, members).is_none(),
        None => false,
    }
}

// Whether the case wants what was answered.
fn is_wanted(
    rt: &HostRuntime,
    case: Case,
    status: u8,
    out: &MemorySink,
    files: &MemoryFiles,
) -> Result<bool, BadCase> {
    Ok(
        is_status(case, status)?
            && is_output(rt, case, out.bytes())?
            && is_asked(rt.alloc(), case, files.asked())?,
    )
}

// Whether the case is one of `clarity_lanes`, and not of `clarity`.
fn is_of_lanes(case: Case) -> Result<bool, BadCase> {
    match case.get("program") {
        None => Ok(false),
        Some(program) if program.as_str() == Some("clarity_lanes") => Ok(true),
        Some(_) => Err(BadCase::Member("program")),
    }
}

// The status of the words over these files and this sink, and whether listeners heard what the
// case wants.
fn run_program(
    rt: &HostRuntime,
    case: Case,
    words: &[String],
    files: &mut MemoryFiles,
    out: &mut MemorySink,
) -> Result<(u8, bool), BadCase> {
    let alloc = rt.alloc();
    let mut listeners = recorders(alloc, case.get("failing_hearings"))?;
    let status = if is_of_lanes(case)? {
        clarity_lanes(alloc, words, files, out)
    } else {
        clarity(alloc, words, files, out, &mut listeners)
    };
    let heard = is_heard(rt, &listeners, case.get("heard"), case.get("deaf"))?;
    Ok((status, heard))
}

// Runs the case over its files.
fn run_over(
    rt: &HostRuntime,
    case: Case,
    words: &[String],
    mut files: MemoryFiles,
) -> Result<Ended, BadCase> {
    let mut out = sink_of(rt.alloc(), case)?;
    let (status, heard) = run_program(rt, case, words, &mut files, &mut out)?;
    let is_as_wanted = heard && is_wanted(rt, case, status, &out, &files)?;
    Ok(Ended {
        is_as_wanted,
        status,
        out,
        files,
    })
}

/// Runs the case.
pub(crate) fn run(rt: &HostRuntime, case: Case) -> Result<Ended, BadCase> {
    let words = words(rt, case.get("words"))?;
    let files = files_of(rt, case)?;
    run_over(rt, case, &words, files)
}
