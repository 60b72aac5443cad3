use crate::found_values::{say_found, say_key};
use crate::near_keys::{guess_known, guess_written, key_at};
use crate::sentence_parts::{Part, count, say};
use ov_certfile::{BadValue, FAN_KEYS, Key, PAIR_KEYS, Step, Wanted};
use ov_ids::OutOfMemory;
use serde_json::Value;
use std::alloc::Global;

/// Tells which value of a file does not have its form: the way to it, what is expected there, and what is found.
pub(crate) fn tell_bad_value(
    alloc: Global,
    text: &mut String,
    bad: BadValue,
    file: &Value,
) -> Result<(), OutOfMemory> {
    let mut value = file;
    if let Some(key) = bad.key {
        let name = key.name();
        say(text, &[Part::Text(", "), Part::Text(name)])?;
        let Some(there) = file.get(name) else {
            return Ok(());
        };
        value = there;
    }
    let steps = bad.misfit.steps;
    for step in [steps.first, steps.second, steps.third, steps.fourth] {
        let Some(step) = step else {
            break;
        };
        say_step(text, step)?;
        let Some(inner) = step_into(value, step) else {
            return Ok(());
        };
        value = inner;
    }
    tell_wanted(alloc, text, entry_keys(bad.key), bad.misfit.wanted, value)
}

/// The keys of the entries at a key of a file.
fn entry_keys(key: Option<Key>) -> &'static [Key] {
    match key {
        Some(Key::Pairs) => PAIR_KEYS,
        Some(Key::Fans) => FAN_KEYS,
        _ => &[],
    }
}

fn say_step(text: &mut String, step: Step) -> Result<(), OutOfMemory> {
    match step {
        Step::Item(at) => say(text, &[Part::Text("["), count(at), Part::Text("]")]),
        Step::Key(key) => say(text, &[Part::Text("."), Part::Text(key.name())]),
    }
}

fn step_into(value: &Value, step: Step) -> Option<&Value> {
    match step {
        Step::Item(at) => value.as_array()?.as_slice().get(at),
        Step::Key(key) => value.get(key.name()),
    }
}

/// Tells what is wanted of a value, and what is found. An entry has these keys.
fn tell_wanted(
    alloc: Global,
    text: &mut String,
    keys: &[Key],
    wanted: Wanted,
    value: &Value,
) -> Result<(), OutOfMemory> {
    match wanted {
        Wanted::Object => say_found(alloc, text, "an object", value),
        Wanted::List => say_found(alloc, text, "a list", value),
        Wanted::Id => say_found(alloc, text, "an id", value),
        Wanted::Verdict => say_found(alloc, text, "\"linked\" or \"split\"", value),
        Wanted::UpTo(last) => tell_no_number(alloc, text, last, value),
        Wanted::TwoIds => tell_number_of_ids(text, value),
        Wanted::Key(key) => {
            text.push_str(" lacks the key ")?;
            say_key(alloc, text, key.name())?;
            guess_written(alloc, text, keys, value, key)
        }
        Wanted::NoOther(at) => tell_other_key(alloc, text, keys, at, value),
    }
}

fn tell_no_number(
    alloc: Global,
    text: &mut String,
    last: u64,
    value: &Value,
) -> Result<(), OutOfMemory> {
    let expected = format!(in alloc; "a whole number from 0 to {last}")?;
    say_found(alloc, text, expected.as_str(), value)
}

fn tell_number_of_ids(text: &mut String, value: &Value) -> Result<(), OutOfMemory> {
    let Some(values) = value.as_array() else {
        return Ok(());
    };
    let number = count(values.len());
    say(text, &[Part::Text(": expected two ids, found "), number])
}

fn tell_other_key(
    alloc: Global,
    text: &mut String,
    keys: &[Key],
    at: usize,
    value: &Value,
) -> Result<(), OutOfMemory> {
    let Some(name) = key_at(value, at) else {
        return Ok(());
    };
    text.push_str(" has the unknown key ")?;
    say_key(alloc, text, name)?;
    guess_known(alloc, text, keys, name)
}
