use crate::sentence_parts::{Part, say};
use ov_ids::OutOfMemory;
use serde_json::Value;
use std::alloc::Global;

/// The longest text that is shown, in bytes.
const LONGEST_SHOWN: usize = 40;

/// Appends what is expected, and what stands in its place.
pub(crate) fn say_found(
    alloc: Global,
    text: &mut String,
    expected: &str,
    value: &Value,
) -> Result<(), OutOfMemory> {
    say(
        text,
        &[
            Part::Text(": expected "),
            Part::Text(expected),
            Part::Text(", found "),
        ],
    )?;
    match kind_of(value) {
        Some(kind) => say(text, &[Part::Text(kind)]),
        None => say_json(alloc, text, value),
    }
}

/// What is said in place of a value that may be long.
fn kind_of(value: &Value) -> Option<&'static str> {
    match value {
        Value::Array(_) => Some("a list"),
        Value::Object(_) => Some("an object"),
        Value::String(found) if found.len() > LONGEST_SHOWN => Some("a long text"),
        _ => None,
    }
}

/// Appends a value as JSON writes it.
fn say_json(alloc: Global, text: &mut String, value: &Value) -> Result<(), OutOfMemory> {
    let shown = value.to_string(alloc)?;
    Ok(text.push_str(shown.as_str())?)
}

/// Appends a text as JSON writes it, if it is not too long.
pub(crate) fn say_key(alloc: Global, text: &mut String, key: &str) -> Result<(), OutOfMemory> {
    if key.len() > LONGEST_SHOWN {
        return Ok(text.push_str("a long text")?);
    }
    let key = Value::String(String::from_str(alloc, key)?);
    say_json(alloc, text, &key)
}
