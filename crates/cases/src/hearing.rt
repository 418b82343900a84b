//! The listeners of a case: three recorders.
use crate::fault::BadCase;
use crate::member::{bytes, numbers};
use cl_lines::event_line;
use cl_listeners::{Listener, Listeners, Numbered, Recorder};
use serde_json::Value;
use std::alloc::Global;

fn recorder(alloc: Global, fails: Option<&Value>, number: &str) -> Result<Recorder, BadCase> {
    let own = fails.and_then(|fails| fails.get(number));
    Ok(Recorder::new(alloc, numbers(alloc, own, "failing_hearings")?))
}

/// Recorders with the numbers 1 to 3, of which the calls fail that stand under their numbers.
pub(crate) fn recorders(
    alloc: Global,
    fails: Option<&Value>,
) -> Result<Listeners<Recorder>, BadCase> {
    let (first, second) = (recorder(alloc, fails, "1")?, recorder(alloc, fails, "2")?);
    let third = recorder(alloc, fails, "3")?;
    let mut active = Vec::new(alloc);
    active.push(Numbered {
        number: 1,
        listener: first,
    })?;
    active.push(Numbered {
        number: 2,
        listener: second,
    })?;
    active.push(Numbered {
        number: 3,
        listener: third,
    })?;
    Listeners::new(alloc, active).map_err(|_| BadCase::NoMemory)
}

// The lines of the events that a recorder heard.
fn lines_heard(alloc: Global, recorder: &Recorder) -> Result<Vec<u8>, BadCase> {
    let mut text = Vec::new(alloc);
    let Some(events) = recorder.told() else {
        return Ok(text);
    };
    for event in events {
        let line = event_line(alloc, event).map_err(|_| BadCase::NoMemory)?;
        text.extend_from_slice(line.as_slice())?;
    }
    Ok(text)
}

// Whether each of these that the case speaks of heard what it says.
fn heard_so(rt: &HostRuntime, all: &[Numbered<Recorder>], wanted: &Value) -> Result<bool, BadCase> {
    for one in all {
        let name = format!(in rt.alloc(); "{}", one.number)?;
        if let Some(lines) = wanted.get(name.as_str()) {
            let heard = lines_heard(rt.alloc(), &one.listener)?;
            if heard.as_slice() != bytes(rt, lines, "heard")?.as_slice() {
                return Ok(false);
            }
        }
    }
    Ok(true)
}

fn have_numbers(all: &[Numbered<Recorder>], numbers: &[u32]) -> bool {
    all.len() == numbers.len()
        && all
            .iter()
            .zip(numbers)
            .all(|(one, number)| one.number == *number)
}

/// Whether the listeners heard what the case says, and those went deaf that it names, in this
/// order; none where it names none.
pub(crate) fn is_heard(
    rt: &HostRuntime,
    listeners: &Listeners<Recorder>,
    heard: Option<&Value>,
    deaf: Option<&Value>,
) -> Result<bool, BadCase> {
    let deaf = numbers(rt.alloc(), deaf, "deaf")?;
    if !have_numbers(listeners.deaf(), &deaf) {
        return Ok(false);
    }
    match heard {
        Some(wanted) => {
            Ok(heard_so(rt, listeners.active(), wanted)? && heard_so(rt, listeners.deaf(), wanted)?)
        }
        None => Ok(true),
    }
}
