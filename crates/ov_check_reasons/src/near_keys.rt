ghost use Rattle.std.specs.Prelude.{◌≤◌, length};

use crate::found_values::say_key;
use ov_certfile::{Key, is_among};
use ov_ids::OutOfMemory;
use serde_json::Value;
use std::alloc::Global;

/// Two keys are near where so many bytes of each, at most, differ from the other in one place.
const MOST_APART: usize = 2;

/// The name of the key at a place of an object, in the order of their bytes.
pub(crate) fn key_at(value: &Value, at: usize) -> Option<&str> {
    let members = value.as_object()?;
    let key = members.keys().nth(at)?;
    Some(key.as_str())
}

/// Asks whether an unknown key of an object is meant for a key that is missing.
pub(crate) fn guess_written(
    alloc: Global,
    text: &mut String,
    known: &[Key],
    value: &Value,
    key: Key,
) -> Result<(), OutOfMemory> {
    match near_unknown(known, value, key.name()) {
        Some(other) => guess(alloc, text, "; is it written ", other),
        None => Ok(()),
    }
}

/// Asks whether a known key is meant by an unknown one.
pub(crate) fn guess_known(
    alloc: Global,
    text: &mut String,
    known: &[Key],
    name: &str,
) -> Result<(), OutOfMemory> {
    for key in known {
        if are_near(name, key.name()) {
            return guess(alloc, text, "; did you mean ", key.name());
        }
    }
    Ok(())
}

fn guess(alloc: Global, text: &mut String, question: &str, key: &str) -> Result<(), OutOfMemory> {
    text.push_str(question)?;
    say_key(alloc, text, key)?;
    Ok(text.push_str("?")?)
}

/// The first key of a value that is unknown, and near to a key.
fn near_unknown<'v>(known: &[Key], value: &'v Value, name: &str) -> Option<&'v str> {
    let members = value.as_object()?;
    for other in members.keys() {
        if !is_among(known, other.as_str()) && are_near(name, other.as_str()) {
            return Some(other.as_str());
        }
    }
    None
}

/// Whether two keys are alike but for a few bytes in one place.
fn are_near(a: &str, b: &str) -> bool {
    let front = same_front(a.as_bytes(), b.as_bytes());
    let (a, b) = (&a.as_bytes()[front..], &b.as_bytes()[front..]);
    let back = same_back(a, b);
    let apart = a.len().max(b.len()) - back;
    apart == 0 || (apart <= MOST_APART && apart <= front + back)
}

/// How many bytes two keys have in common from the front.
fn same_front(a: &[u8], b: &[u8]) -> usize
    ensures { (result ≤ length a.now) × (result ≤ length b.now) }
{
    let mut same = 0;
    while same < a.len() && same < b.len() && a[same].eq_ignore_ascii_case(&b[same]) {
        same += 1;
    }
    same
}

/// How many bytes two keys have in common from the back.
fn same_back(a: &[u8], b: &[u8]) -> usize
    ensures { (result ≤ length a.now) × (result ≤ length b.now) }
{
    let mut same = 0;
    while same < a.len()
        && same < b.len()
        && a[a.len() - 1 - same].eq_ignore_ascii_case(&b[b.len() - 1 - same])
    {
        same += 1;
    }
    same
}
