//! What the values of members say.
use crate::fault::BadCase;
use serde_json::Value;
use std::alloc::Global;
use std::fs;

/// A list of texts, under this name.
pub(crate) fn texts(
    alloc: Global,
    value: Option<&Value>,
    name: &'static str,
) -> Result<Vec<String>, BadCase> {
    let items = value
        .and_then(Value::as_array)
        .ok_or(BadCase::Member(name))?;
    let mut texts = Vec::new(alloc);
    for item in items {
        let text = item.as_str().ok_or(BadCase::Member(name))?;
        texts.push(String::from_str(alloc, text)?)?;
    }
    Ok(texts)
}

// A word's bytes as a text.
fn word(rt: &HostRuntime, value: &Value) -> Result<String, BadCase> {
    String::from_utf8(bytes(rt, value, "words")?).map_err(|_| BadCase::Member("words"))
}

/// The words of a command line, each in any form of bytes.
pub(crate) fn words(rt: &HostRuntime, value: Option<&Value>) -> Result<Vec<String>, BadCase> {
    let items = value
        .and_then(Value::as_array)
        .ok_or(BadCase::Member("words"))?;
    let mut words = Vec::new(rt.alloc());
    for item in items {
        words.push(word(rt, item)?)?;
    }
    Ok(words)
}

/// A number below 2^32, under this name.
pub(crate) fn number(value: &Value, name: &'static str) -> Result<u32, BadCase> {
    let number = value.as_u64().ok_or(BadCase::Member(name))?;
    u32::try_from(number).map_err(|_| BadCase::Member(name))
}

/// A list of numbers, none where there is no value.
pub(crate) fn numbers(
    alloc: Global,
    value: Option<&Value>,
    name: &'static str,
) -> Result<Vec<u32>, BadCase> {
    let mut numbers = Vec::new(alloc);
    let Some(value) = value else {
        return Ok(numbers);
    };
    for item in value.as_array().ok_or(BadCase::Member(name))? {
        numbers.push(number(item, name)?)?;
    }
    Ok(numbers)
}

// Lines, each with a line feed.
fn lines(alloc: Global, items: &[Value], name: &'static str) -> Result<Vec<u8>, BadCase> {
    let mut bytes = Vec::new(alloc);
    for item in items {
        let text = item.as_str().ok_or(BadCase::Member(name))?;
        bytes.extend_from_slice(text.as_bytes())?;
        bytes.push(b'\n')?;
    }
    Ok(bytes)
}

// A text so many times.
fn repeated(alloc: Global, text: &[u8], times: u32) -> Result<Vec<u8>, BadCase> {
    let mut bytes = Vec::new(alloc);
    for _ in 0..times {
        bytes.extend_from_slice(text)?;
    }
    Ok(bytes)
}

fn from_hex(alloc: Global, text: &str, name: &'static str) -> Result<Vec<u8>, BadCase> {
    hex::decode(alloc, text).map_err(|_| BadCase::Member(name))
}

// A text, the text of a JSON value (`{"json": any}`), hexadecimal digits (`{"hex": ".."}`), a text
// so many times (`{"repeat": "..", "times": n}`), or a file of the folder of the run
// (`{"file": ".."}`).
fn part(rt: &HostRuntime, value: &Value, name: &'static str) -> Result<Vec<u8>, BadCase> {
    let alloc = rt.alloc();
    if let Some(text) = value.as_str() {
        return Ok(Vec::from_slice(alloc, text.as_bytes())?);
    }
    if let Some(json) = value.get("json") {
        return Ok(json.to_string(alloc)?.into_bytes());
    }
    if let Some(text) = value.get("hex").and_then(Value::as_str) {
        return from_hex(alloc, text, name);
    }
    if let Some(path) = value.get("file").and_then(Value::as_str) {
        return fs::read(rt, path).map_err(|_| BadCase::File);
    }
    let text = value
        .get("repeat")
        .and_then(Value::as_str)
        .ok_or(BadCase::Member(name))?;
    let times = value.get("times").ok_or(BadCase::Member(name))?;
    repeated(alloc, text.as_bytes(), number(times, name)?)
}

// Parts, one behind the other.
fn joined(rt: &HostRuntime, parts: &[Value], name: &'static str) -> Result<Vec<u8>, BadCase> {
    let mut bytes = Vec::new(rt.alloc());
    for value in parts {
        bytes.extend_from_slice(part(rt, value, name)?.as_slice())?;
    }
    Ok(bytes)
}

/// Bytes: lines that each end with a line feed, several parts (`{"parts": [..]}`), or one part.
pub(crate) fn bytes(
    rt: &HostRuntime,
    value: &Value,
    name: &'static str,
) -> Result<Vec<u8>, BadCase> {
    if let Some(items) = value.as_array() {
        return lines(rt.alloc(), items, name);
    }
    match value.get("parts").and_then(Value::as_array) {
        Some(parts) => joined(rt, parts, name),
        None => part(rt, value, name),
    }
}
