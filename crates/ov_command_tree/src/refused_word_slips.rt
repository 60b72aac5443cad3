//! What a person may mean whose words behind `overlay grow` or `overlay sweep` are refused by `clap`.
use crate::argument_tips::{FOUND, GAP, HELP_BELOW, UNEXPECTED, quoted};
use crate::grow_and_sweep_clap_commands::GrowingCommand;
use crate::grow_and_sweep_option_tables::{option_named, takes_list};
use crate::slip_tips::SlipTip;
use crate::value_slips::{counts_in_hundred, is_of_numbers, one_value};
use std::alloc::{AllocError, Global};
use std::fmt::Write;

/// What `clap` says before a value behind an option that takes none, and before one that is no word of its option.
const UNWANTED: &str = "error: unexpected value '";

const INVALID: &str = "error: invalid value '";

/// What stands between such a value and the name of its option.
const OPTION: &str = "' for '--";

/// The option that names a row.
const ROW: &str = "--row";

/// What is wrong with the words of a command, and what to write, by what `clap` says of them. It ends with a line feed,
/// and is empty if nothing is known that may be meant.
pub fn reason_meant(
    alloc: Global,
    command: GrowingCommand,
    said: &str,
    words: &[String],
) -> Result<String, AllocError> {
    if let Some((value, name)) = value_told(said, UNWANTED, "'") {
        return no_value(alloc, name, value);
    }
    if let Some((value, name)) = value_told(said, INVALID, " <") {
        if value == "none" && name == "refill" {
            return with_tip(alloc, said, SlipTip::Never);
        }
        if value.contains(',') {
            return no_list(alloc, name, value);
        }
        return list_reason(alloc, command, said, words, value);
    }
    match quoted(said, UNEXPECTED, FOUND) {
        Some(word) => unexpected_reason(alloc, command, said, words, word),
        None => Ok(String::new(alloc)),
    }
}

/// A value that is told right behind a text, and the name of its option, behind which stands another text.
fn value_told<'a>(said: &'a str, before: &str, behind: &str) -> Option<(&'a str, &'a str)> {
    let (value, rest) = said.strip_prefix(before)?.split_once(OPTION)?;
    let (name, _) = rest.split_once(behind)?;
    Some((value, name))
}

/// That the option of this name takes no value; and where a number of broadcasts may be meant, how that is written.
fn no_value(alloc: Global, name: &str, value: &str) -> Result<String, AllocError> {
    let mut reason = format!(in alloc; "error: '--{name}' takes no value{HELP_BELOW}")?;
    if matches!(name, "costs" | "messages") && is_number(value) {
        write!(
            reason,
            "tip: `--broadcasts {value}` makes so many broadcasts after each of the three snapshots\n"
        )?;
    }
    Ok(reason)
}

/// Whether a text is digits alone.
fn is_number(text: &str) -> bool {
    !text.is_empty() && text.bytes().all(|byte| byte.is_ascii_digit())
}

/// That the option of this name takes one word, and no list.
fn no_list(alloc: Global, name: &str, list: &str) -> Result<String, AllocError> {
    let reason = one_value(alloc, name, list)?;
    format!(in alloc; "error: invalid value '{list}' for '--{name}': {reason}{HELP_BELOW}")
}

/// How a list is written, if a value that is none of the words of its option is a part of one.
fn list_reason(
    alloc: Global,
    command: GrowingCommand,
    said: &str,
    words: &[String],
    value: &str,
) -> Result<String, AllocError> {
    let is_list = value.contains(';') || value.contains(' ');
    if !is_list || !matches!(command, GrowingCommand::Sweep) {
        return Ok(String::new(alloc));
    }
    let list = list_meant(alloc, words, value)?;
    with_tip(alloc, said, SlipTip::Commas(list.as_str()))
}

/// The list that is meant by the first word that has this value in it.
fn list_meant(alloc: Global, words: &[String], value: &str) -> Result<String, AllocError> {
    for word in words {
        let word = word.as_str();
        if word.contains(value) {
            return match word.split_once("=") {
                Some((_, list)) => with_commas(alloc, list),
                None => with_commas(alloc, word),
            };
        }
    }
    Ok(String::new(alloc))
}

/// A list with one comma wherever commas, semicolons and spaces stand between two values.
pub(crate) fn with_commas(alloc: Global, list: &str) -> Result<String, AllocError> {
    let mut text = String::new(alloc);
    let mut is_next = false;
    for letter in list.chars() {
        if matches!(letter, ',' | ';' | ' ') {
            is_next = !text.is_empty();
        } else {
            if is_next {
                text.push(',')?;
            }
            text.push(letter)?;
            is_next = false;
        }
    }
    Ok(text)
}

/// Why a word is not expected that stands behind an option which takes nothing, behind the file of a row, or behind the
/// numbers of an option.
fn unexpected_reason(
    alloc: Global,
    command: GrowingCommand,
    said: &str,
    words: &[String],
    word: &str,
) -> Result<String, AllocError> {
    if let Some(name) = flag_before(words, word) {
        return no_value(alloc, name, word);
    }
    match tip_of_word(command, words, word) {
        Some(tip) => with_tip(alloc, said, tip),
        None => Ok(String::new(alloc)),
    }
}

/// The name of the option which takes nothing and behind which this word stands, that is no option.
fn flag_before<'a>(words: &'a [String], word: &str) -> Option<&'a str> {
    if word.starts_with('-') {
        return None;
    }
    for (place, next) in words.iter().enumerate() {
        if next.as_str() == word {
            if let Some(name) = flag_name(word_before(words, place, 1)) {
                return Some(name);
            }
        }
    }
    None
}

/// The name of an option that takes nothing, if a word is one.
fn flag_name(word: &str) -> Option<&str> {
    let name = word.strip_prefix("--")?;
    option_named(name)?.takes_nothing().then_some(name)
}

/// The word so many places before this one, or an empty text.
fn word_before(words: &[String], place: usize, back: usize) -> &str {
    let Some(before) = place.checked_sub(back) else {
        return "";
    };
    match words.get(before) {
        Some(word) => word.as_str(),
        None => "",
    }
}

/// What to write where a word is not expected, if it is known.
fn tip_of_word<'a>(
    command: GrowingCommand,
    words: &'a [String],
    word: &'a str,
) -> Option<SlipTip<'a>> {
    match row_tip(words, word) {
        Some(tip) => Some(tip),
        None => number_tip(command, words, word),
    }
}

/// How a row is named, if a word that is not expected is a part of the name.
fn row_tip<'a>(words: &'a [String], word: &'a str) -> Option<SlipTip<'a>> {
    for (place, next) in words.iter().enumerate() {
        let next = next.as_str();
        let before = word_before(words, place, 1);
        if before == ROW && is_hyphened(next, word) {
            return Some(SlipTip::Hyphened(next));
        }
        if word_before(words, place, 2) == ROW && next == word && is_number(word) {
            return Some(SlipTip::Row(before, word));
        }
    }
    None
}

/// What to write where a word that is not expected stands behind the numbers of an option, if it is known.
fn number_tip<'a>(
    command: GrowingCommand,
    words: &'a [String],
    word: &'a str,
) -> Option<SlipTip<'a>> {
    for (place, next) in words.iter().enumerate() {
        if next.as_str() == word {
            if let Some((name, list)) = numbers_before(words, place) {
                return tip_behind(command, name, list, word);
            }
        }
    }
    None
}

/// The name of the option before this place, and the numbers that are its value.
fn numbers_before(words: &[String], place: usize) -> Option<(&str, &str)> {
    let before = word_before(words, place, 1);
    let (option, list) = match before.split_once("=") {
        Some(parts) => parts,
        None => (word_before(words, place, 2), before),
    };
    let name = option.strip_prefix("--")?;
    is_of_numbers(list).then_some((name, list))
}

/// What to write where a word stands behind these numbers of the option of this name: it is the sign of hundredths, or
/// a part of a list.
fn tip_behind<'a>(
    command: GrowingCommand,
    name: &'a str,
    list: &'a str,
    word: &'a str,
) -> Option<SlipTip<'a>> {
    if word == "%" {
        return counts_in_hundred(name).then_some(SlipTip::Hundredths(name, list));
    }
    let is_list = matches!(command, GrowingCommand::Sweep) && takes_list(name);
    (is_list && is_of_numbers(word)).then_some(SlipTip::List(list, word))
}

/// Whether a word names a row, and begins with what was taken for an option.
fn is_hyphened(word: &str, taken: &str) -> bool {
    taken.starts_with('-') && word.starts_with(taken) && word.contains(':')
}

/// What is wrong in the words of `clap`, with this tip in place of its own.
fn with_tip(alloc: Global, said: &str, tip: SlipTip<'_>) -> Result<String, AllocError> {
    let wrong = match said.split_once(GAP) {
        Some((wrong, _)) => wrong,
        None => said,
    };
    format!(in alloc; "{wrong}{HELP_BELOW}{tip}")
}
