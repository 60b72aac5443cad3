use crate::bad_values::tell_bad_value;
use crate::found_values::{say_found, say_key};
use crate::graph_words::tell_graph;
use crate::near_keys::{guess_known, guess_written, key_at};
use crate::sentence_parts::{Part, say};
use ov_certfile::{FileFault, Key, NoJson, RefusedFile, Verdict, Version, is_among, keys_of};
use ov_ids::OutOfMemory;
use serde_json::Value;
use std::alloc::Global;

/// Tells where in a file the fault shows for which it is refused.
pub(crate) fn tell_refusal(
    alloc: Global,
    text: &mut String,
    refusal: &RefusedFile,
) -> Result<(), OutOfMemory> {
    match refusal.fault {
        FileFault::NotJson(why) => return tell_no_json(text, why),
        FileFault::Graph(fault) => return tell_graph(text, fault),
        _ => {}
    }
    match &refusal.value {
        Some(value) => tell_value(alloc, text, refusal.fault, value),
        None => Ok(()),
    }
}

/// Tells where a JSON value is no certificate file.
fn tell_value(
    alloc: Global,
    text: &mut String,
    fault: FileFault,
    value: &Value,
) -> Result<(), OutOfMemory> {
    match fault {
        FileFault::MissingKey(key) => tell_missing(alloc, text, key, value),
        FileFault::UnknownKey {
            at,
            version,
            verdict,
        } => tell_unknown(alloc, text, value, at, keys_of(version, verdict)),
        FileFault::BadVersion { newest } => tell_version(alloc, text, newest, value),
        FileFault::BadValue(bad) => tell_bad_value(alloc, text, bad, value),
        FileFault::NotJson(_) | FileFault::Graph(_) | FileFault::OutOfMemory => Ok(()),
    }
}

/// Tells where a text is no JSON.
fn tell_no_json(text: &mut String, why: NoJson) -> Result<(), OutOfMemory> {
    match why {
        NoJson::NoText { byte } => Ok(write!(text, ": no UTF-8 from byte {byte} on")?),
        NoJson::Empty => say(text, &[Part::Text(": it is empty")]),
        NoJson::ByteOrderMark => say(text, &[Part::Text(": it begins with a byte order mark")]),
        NoJson::EndsEarly { line, column } => {
            say_place(text, ": it ends too early, at line ", line, column)
        }
        NoJson::Breaks { line, column } => say_place(text, ": line ", line, column),
    }
}

fn say_place(text: &mut String, why: &str, line: usize, column: usize) -> Result<(), OutOfMemory> {
    Ok(write!(text, "{why}{line}, column {column}")?)
}

/// Tells which key is missing, and a key of the file that may have been meant for it.
fn tell_missing(
    alloc: Global,
    text: &mut String,
    key: Key,
    value: &Value,
) -> Result<(), OutOfMemory> {
    text.push_str(": ")?;
    say_key(alloc, text, key.name())?;
    guess_written(
        alloc,
        text,
        keys_of(Version::Two, Verdict::Split),
        value,
        key,
    )
}

/// Tells which key is unknown, what may have been meant, and which files have that key.
fn tell_unknown(
    alloc: Global,
    text: &mut String,
    value: &Value,
    at: usize,
    known: &[Key],
) -> Result<(), OutOfMemory> {
    let Some(name) = key_at(value, at) else {
        return Ok(());
    };
    text.push_str(": ")?;
    say_key(alloc, text, name)?;
    guess_known(alloc, text, known, name)?;
    Ok(text.push_str(who_lacks(name))?)
}

/// Which files do not have a key that others have.
fn who_lacks(name: &str) -> &'static str {
    if is_among(keys_of(Version::Two, Verdict::Linked), name) {
        return ", which version 1 does not have";
    }
    if is_among(keys_of(Version::Two, Verdict::Split), name) {
        return ", which a linked file does not have";
    }
    ""
}

/// Tells which version there is, and which are read.
fn tell_version(
    alloc: Global,
    text: &mut String,
    newest: Version,
    value: &Value,
) -> Result<(), OutOfMemory> {
    match value.get(Key::Version.name()) {
        Some(version) => say_found(alloc, text, versions_up_to(newest), version),
        None => Ok(()),
    }
}

/// Whether a file says version 3 and is refused for that, where older ones alone are read.
pub fn is_newer(refusal: &RefusedFile) -> bool {
    match (&refusal.fault, &refusal.value) {
        (FileFault::BadVersion { .. }, Some(value)) => says_version_three(value),
        _ => false,
    }
}

/// Whether a JSON value says version 3.
fn says_version_three(value: &Value) -> bool {
    match value.get(Key::Version.name()) {
        Some(version) => version.as_u64() == Some(3),
        None => false,
    }
}

/// The versions that are read where this is the newest.
fn versions_up_to(newest: Version) -> &'static str {
    match newest {
        Version::One => "1",
        Version::Two => "1 or 2",
        Version::Three => "1, 2 or 3",
    }
}
