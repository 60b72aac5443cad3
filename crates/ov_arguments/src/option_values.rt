use crate::GrowArgumentsFault;
use crate::clap_parsing_and_faults::{bad_number, bad_part, bad_value, bad_value_since};
use crate::grow_arguments_fault::refused;
use clap::ArgMatches;
use ov_command_tree::{RANGE, has_flag, is_gapped, one_value};
use ov_grow_options::{OptionRow, OptionValue};
use std::alloc::{AllocError, Global};

/// Why a list is refused that has one value twice: its runs would be counted twice.
pub(crate) const TWICE: &str = "it stands in the list twice";

/// Why a range is refused of which the first number is above the second one.
const NO_RANGE: &str = "a range goes up, as 3..8";

/// The value of an option, also if it is not given.
pub(crate) fn value(
    alloc: Global,
    found: &ArgMatches<'_>,
    option: &OptionRow,
) -> Result<OptionValue, GrowArgumentsFault> {
    if option.takes_nothing() || !found.contains_id(option.name) {
        return Ok(option.without_text(has_flag(found, option.name)));
    }
    let text = found.get_str(option.name).unwrap_or("");
    match option.read(text) {
        Some(value) => Ok(value),
        None => Err(refused(no_value(alloc, option, text))),
    }
}

/// The number that is the value of an option.
pub(crate) fn number(
    alloc: Global,
    found: &ArgMatches<'_>,
    option: &OptionRow,
) -> Result<u32, GrowArgumentsFault> {
    let number = value(alloc, found, option)?.number().unwrap_or(0);
    Ok(u32::try_from(number).unwrap_or(u32::MAX))
}

/// Why an option does not take this text as its one value.
fn no_value(alloc: Global, option: &OptionRow, text: &str) -> Result<String, AllocError> {
    if text.contains(',') || text.contains(RANGE) {
        let reason = one_value(alloc, option.name, text)?;
        return bad_value_since(alloc, option.name, text, &reason);
    }
    bad_value(alloc, option, text)
}

/// The values of an option in the order of its list, in which `LOW..HIGH` are all numbers from one to the other. None
/// of them may stand twice. What is not given has no value.
pub(crate) fn values(
    alloc: Global,
    found: &ArgMatches<'_>,
    option: &OptionRow,
) -> Result<Vec<OptionValue>, GrowArgumentsFault> {
    let mut values = Vec::new(alloc);
    let texts = found.get_strs(option.name).unwrap_or(&[]);
    for text in texts {
        push_text(alloc, &mut values, option, text, texts)?;
    }
    Ok(values)
}

/// Adds what a text of the list spells that was given in these parts: a value, or all numbers of a range.
fn push_text(
    alloc: Global,
    values: &mut Vec<OptionValue>,
    option: &OptionRow,
    text: &str,
    texts: &[&str],
) -> Result<(), GrowArgumentsFault> {
    match ends_of(text) {
        None if is_gapped(text) => Err(refused(bad_part(alloc, option, text, texts))),
        None => push_value(alloc, values, option, text),
        Some((low, high)) if low <= high => push_range(alloc, values, option, low, high),
        Some(_) => Err(refused(bad_value_since(alloc, option.name, text, NO_RANGE))),
    }
}

/// The two ends of a range, if a text is one.
fn ends_of(text: &str) -> Option<(u64, u64)> {
    let (low, high) = text.split_once(RANGE)?;
    Some((low.parse::<u64>().ok()?, high.parse::<u64>().ok()?))
}

/// Adds all numbers from one to the other, both of them among these.
fn push_range(
    alloc: Global,
    values: &mut Vec<OptionValue>,
    option: &OptionRow,
    low: u64,
    high: u64,
) -> Result<(), GrowArgumentsFault> {
    for number in low..=high {
        let text = format!(in alloc; "{number}")?;
        push_value(alloc, values, option, &text)?;
    }
    Ok(())
}

/// Adds the value that a text spells.
fn push_value(
    alloc: Global,
    values: &mut Vec<OptionValue>,
    option: &OptionRow,
    text: &str,
) -> Result<(), GrowArgumentsFault> {
    let Some(value) = option.read(text) else {
        return Err(refused(bad_value(alloc, option, text)));
    };
    if values.contains(&value) {
        return Err(refused(bad_value_since(alloc, option.name, text, TWICE)));
    }
    Ok(values.push(value)?)
}

/// Why --prwl is refused that is above --arwl.
pub(crate) fn long_walk(alloc: Global, arwl: u64, prwl: u64) -> Result<String, AllocError> {
    let reason = format!(in alloc; "with --arwl {arwl} it takes a number from 0 to {arwl}")?;
    bad_number(alloc, "prwl", prwl, &reason)
}

/// Refuses a sender above the fewest nodes of an overlay.
pub(crate) fn judge_sender(
    alloc: Global,
    sender: OptionValue,
    fewest: u64,
) -> Result<(), GrowArgumentsFault> {
    let number = sender.number().unwrap_or(0);
    if number <= fewest {
        return Ok(());
    }
    Err(refused(far_sender(alloc, number, fewest)))
}

/// Why a sender is refused above the fewest nodes.
fn far_sender(alloc: Global, sender: u64, fewest: u64) -> Result<String, AllocError> {
    let reason = format!(in alloc; "with --nodes {fewest} it takes a number from 1 to {fewest}")?;
    bad_number(alloc, "sender", sender, &reason)
}
