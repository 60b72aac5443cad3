use crate::arguments::{is_read_later, read_least};
use clap::error::ErrorKind;
use clap::{ArgMatches, Command, Error as ClapError};
use ov_command_tree::{
    HELP_BELOW, command, command_tree, has_flag, is_command, joined_list, push_list, shown,
    with_tip,
};
use ov_ids::OutOfMemory;
use ov_lines::{comma_hint, read_ids, read_workers};
use std::alloc::{AllocError, Global};
use std::fmt::Write;

/// What is printed of arguments of which one is no text, so that `clap` does not see them.
const NO_TEXT: &str = "error: an argument is no UTF-8 text\n";

/// What the texts of `--group`, `--at-least` and `--workers` must be. `clap` takes any text; they are read here.
const GROUP: &str = "ids from 0 to 4294967295, with one comma between two, or names beside --names";

const LEAST: &str = "a number from 0 to 1023, or beside --large to 32767";

const LEAST_OF_LARGE: &str = "a number from 0 to 32767";

const WORKERS: &str = "a number from 1 to 64";

/// What the texts of `--pair` and `--fan` must be.
const PAIR: &str = "two ids with one comma between them";

const FAN: &str = "one id";

/// What is printed if two of three flags are given, or two of two options.
const FORMATS: &str = "error: only one of '--views', '--edges' and '--dot' can be given\n\n\
                       For more information, try '--help'.\n";

const ENTRIES: &str = "error: only one of '--pair' and '--fan' can be given\n\n\
                       For more information, try '--help'.\n";

/// What is wrong with arguments that `overlay` refuses. They are the arguments after the program's name. An empty list
/// means that an argument is no UTF-8. The text ends with a line feed; it is empty if nothing is wrong. `clap` makes it,
/// from the arguments that `overlay` takes, except for a bad text of an option. A line `tip: ..` below it may say what
/// is meant. OutOfMemory (99) if an allocation is refused.
pub fn argument_reasons(alloc: Global, arguments: &[String]) -> Result<String, OutOfMemory> {
    if arguments.is_empty() {
        return Ok(String::from_str(alloc, NO_TEXT)?);
    }
    reasons(alloc, arguments)
}

/// What `clap` says of these arguments, or what is wrong with the texts that it finds in them.
fn reasons(alloc: Global, arguments: &[String]) -> Result<String, OutOfMemory> {
    let shown = shown(alloc, arguments)?;
    match told_by(alloc, &shown)?.try_get_matches_from(&shown) {
        Ok(matches) => text_reason(alloc, &matches, &shown),
        Err(error) => told(alloc, &error, &shown),
    }
}

/// What `clap` says of arguments that it refuses, with a tip if something is known that may be meant.
fn told(alloc: Global, error: &ClapError, arguments: &[String]) -> Result<String, OutOfMemory> {
    if error.kind() == ErrorKind::OutOfMemory {
        return Err(OutOfMemory);
    }
    let (command, behind) = match arguments.split_first() {
        Some((first, behind)) if is_command(first.as_str()) => (first.as_str(), behind),
        Some((_, behind)) => ("", behind),
        None => ("", arguments),
    };
    let said = format!(in alloc; "{error}")?;
    Ok(with_tip(alloc, &said, command, behind)?)
}

/// The commands by which these arguments are told: all of them if the first argument is a word and none of those that
/// `read_arguments` reads, so that any may be offered in place of what is none. In place of a file those that grow
/// overlays are not offered.
fn told_by<'a>(alloc: Global, arguments: &[String]) -> Result<Command<'a>, AllocError> {
    match arguments.first() {
        Some(first) if is_word(first) && !is_command(first.as_str()) => command_tree(alloc),
        _ => command(alloc),
    }
}

/// Whether a text is letters alone.
fn is_word(text: &str) -> bool {
    text.bytes().all(|byte| byte.is_ascii_alphabetic())
}

/// What is wrong with the texts that a command was given, if they ask for nothing. If ids stand among these arguments
/// with spaces, a line says that a list has none.
fn text_reason(
    alloc: Global,
    matches: &ArgMatches,
    arguments: &[String],
) -> Result<String, OutOfMemory> {
    let wrong = match matches.subcommand() {
        Some(("analyse", found)) => wrong_in_analysis(alloc, found)?,
        Some(("import", _)) => WrongText::Beside(FORMATS),
        Some(("picture", found)) => wrong_in_picture(found),
        _ => WrongText::Nothing,
    };
    let mut reason = wrong_told(alloc, wrong)?;
    let list = joined_list(alloc, arguments)?;
    if read_ids(alloc, list.as_bytes())?.is_some() {
        push_list(&mut reason, &list)?;
    }
    Ok(reason)
}

/// What is wrong with the texts of options.
#[derive(Clone, Copy)]
enum WrongText<'a> {
    /// Options stand beside each other that must not, as this text says.
    Beside(&'a str),
    /// An option has a text that it does not take.
    Value {
        option: &'a str,
        text: &'a str,
        wanted: &'a str,
    },
    /// Nothing.
    Nothing,
}

/// What is wrong with the text of `--group`, of `--at-least` or of `--workers`.
fn wrong_in_analysis<'a>(
    alloc: Global,
    found: &'a ArgMatches<'_>,
) -> Result<WrongText<'a>, OutOfMemory> {
    let group = ids_asked(found);
    if read_ids(alloc, group.as_bytes())?.is_none() {
        return Ok(wrong("group", group, GROUP));
    }
    let least = found.get_str("at-least").unwrap_or("0");
    let large = has_flag(found, "large");
    if read_least(least, large).is_none() {
        let wanted = if large { LEAST_OF_LARGE } else { LEAST };
        return Ok(wrong("at-least", least, wanted));
    }
    let workers = found.get_str("workers").unwrap_or("1");
    if read_workers(workers.as_bytes()).is_none() {
        return Ok(wrong("workers", workers, WORKERS));
    }
    Ok(WrongText::Nothing)
}

/// The text of the ids of a group, one id if there is none. A list that is read later is none.
fn ids_asked<'a>(found: &'a ArgMatches<'_>) -> &'a str {
    match found.get_str("group") {
        Some(text) if !is_read_later(found.get_str("names") == Some("true"), text) => text,
        _ => "0",
    }
}

/// What is wrong with the texts of `--pair` and `--fan`.
fn wrong_in_picture<'a>(found: &'a ArgMatches<'_>) -> WrongText<'a> {
    match (found.get_str("pair"), found.get_str("fan")) {
        (Some(_), Some(_)) => WrongText::Beside(ENTRIES),
        (Some(text), None) => wrong("pair", text, PAIR),
        (None, Some(text)) => wrong("fan", text, FAN),
        (None, None) => WrongText::Nothing,
    }
}

/// An option that takes something other than this text.
fn wrong<'a>(option: &'a str, text: &'a str, wanted: &'a str) -> WrongText<'a> {
    WrongText::Value {
        option,
        text,
        wanted,
    }
}

/// What is wrong, in the form of `clap`, and which comma of a text is one too many.
fn wrong_told(alloc: Global, wrong: WrongText<'_>) -> Result<String, AllocError> {
    let (option, text, wanted) = match wrong {
        WrongText::Beside(reason) => return String::from_str(alloc, reason),
        WrongText::Nothing => return Ok(String::new(alloc)),
        WrongText::Value {
            option,
            text,
            wanted,
        } => (option, text, wanted),
    };
    let mut reason = format!(in alloc;
        "error: invalid value '{text}' for '--{option} <{option}>': it takes {wanted}{HELP_BELOW}"
    )?;
    if let Some(hint) = comma_hint(text.as_bytes()) {
        write!(reason, "tip: '{text}' {hint}\n")?;
    }
    Ok(reason)
}
