use crate::GrowArgumentsFault;
use crate::grow_arguments_fault::refused;
use clap::error::ErrorKind;
use clap::{ArgMatches, Error as ClapError};
use ov_command_tree::{
    GrowingCommand, HELP_BELOW, growing_command, list_tip, reason_meant, shown, slip_tip, with_tip,
};
use ov_grow_options::OptionRow;
use ov_io::shown_name;
use std::alloc::{AllocError, Global};

/// What is found in the words of a command.
pub(crate) fn found_in<'a>(
    alloc: Global,
    name: GrowingCommand,
    words: &'a [String],
) -> Result<ArgMatches<'a>, GrowArgumentsFault> {
    match growing_command(alloc, name)?.try_get_matches_from(words) {
        Ok(found) => Ok(found),
        Err(error) if error.kind() == ErrorKind::OutOfMemory => Err(
            GrowArgumentsFault::OutOfMemory,
        ),
        Err(error) => Err(refused(told(alloc, name, words, &error))),
    }
}

/// What `clap` says of words in which it found a fault, with a tip if something is known that may be meant. The words
/// are shown with the codes of their control characters, so that each is on one line.
fn told(
    alloc: Global,
    name: GrowingCommand,
    words: &[String],
    error: &ClapError,
) -> Result<String, AllocError> {
    let shown = shown(alloc, words)?;
    let said = said_of(alloc, name, &shown, error)?;
    let reason = reason_meant(alloc, name, &said, &shown)?;
    if reason.is_empty() {
        return with_tip(alloc, &said, name.text(), &shown);
    }
    Ok(reason)
}

/// What `clap` says of these words, or of this error where it finds none in them.
fn said_of(
    alloc: Global,
    name: GrowingCommand,
    words: &[String],
    error: &ClapError,
) -> Result<String, AllocError> {
    match growing_command(alloc, name)?.try_get_matches_from(words) {
        Ok(_) => format!(in alloc; "{error}"),
        Err(error) => format!(in alloc; "{error}"),
    }
}

/// Why the option does not take this text.
pub(crate) fn bad_value(
    alloc: Global,
    option: &OptionRow,
    text: &str,
) -> Result<String, AllocError> {
    let takes = takes_text(alloc, option)?;
    bad_value_since(alloc, option.name, text, &takes)
}

/// Why the option of this name can't have this text, in the form of `clap`.
pub(crate) fn bad_value_since(
    alloc: Global,
    name: &str,
    text: &str,
    reason: &str,
) -> Result<String, AllocError> {
    let shown = shown_name(alloc, text)?;
    let tip = slip_tip(alloc, name, &shown)?;
    format!(in alloc; "error: invalid value '{shown}' for '--{name}': {reason}{HELP_BELOW}{tip}")
}

/// Why the option of this name can't have this number beside what another option says.
pub(crate) fn bad_number(
    alloc: Global,
    name: &str,
    number: u64,
    reason: &str,
) -> Result<String, AllocError> {
    let text = format!(in alloc; "{number}")?;
    bad_value_since(alloc, name, &text, reason)
}

/// Why the option takes no such part of the list that was given in these parts.
pub(crate) fn bad_part(
    alloc: Global,
    option: &OptionRow,
    part: &str,
    parts: &[&str],
) -> Result<String, AllocError> {
    let name = option.name;
    let takes = takes_text(alloc, option)?;
    let shown = shown_name(alloc, part)?;
    let tip = list_tip(alloc, parts)?;
    format!(in alloc; "error: invalid value '{shown}' for '--{name}': {takes}{HELP_BELOW}{tip}")
}

/// What an option takes, in words.
fn takes_text(alloc: Global, option: &OptionRow) -> Result<String, AllocError> {
    let Some((lowest, highest)) = option.limits else {
        return String::from_str(alloc, "it takes no such value");
    };
    let (or, word) = match option.words.first() {
        Some(word) => (", or ", *word),
        None => ("", ""),
    };
    format!(in alloc; "it takes a number from {lowest} to {highest}{or}{word}")
}
