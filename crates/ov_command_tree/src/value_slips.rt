//! What to write in place of a value that an option does not take.
use crate::grow_and_sweep_option_tables::{option_named, takes_list};
use crate::refused_word_slips::with_commas;
use crate::slip_tips::SlipTip;
use ov_grow_options::Unit;
use ov_io::shown_name;
use std::alloc::{AllocError, Global};
use std::fmt::Write;

/// What stands between the two ends of a range.
pub const RANGE: &str = "..";

/// The largest number that each option takes which counts in 100.
const MOST_SHARE: u64 = 99;

/// A line `tip: ..` with what to write in place of this value of the option of this name. It ends with a line feed, and
/// is empty if nothing is known that may be meant.
pub fn slip_tip(alloc: Global, name: &str, text: &str) -> Result<String, AllocError> {
    let tip = value_tip(name, text);
    format!(in alloc; "{tip}")
}

/// What to write in place of this value of the option of this name.
fn value_tip<'a>(name: &'a str, text: &'a str) -> SlipTip<'a> {
    if let Some((low, high)) = range_meant(text) {
        return SlipTip::Range(low, high);
    }
    if takes_list(name) && lacks_end(text) {
        return SlipTip::HalfRange;
    }
    if counts_in_hundred(name) {
        return hundred_tip(name, text);
    }
    SlipTip::Unknown
}

/// What to write in place of this value of the option of this name, which counts in 100.
fn hundred_tip<'a>(name: &'a str, text: &'a str) -> SlipTip<'a> {
    if let Some(percent) = whole_percent(text) {
        return SlipTip::Percent(name, percent);
    }
    if let Some((below, above)) = whole_beside(text) {
        return SlipTip::Whole(below, above);
    }
    match share_of_hundred(text) {
        Some(percent) => SlipTip::Share(name, percent, text),
        None => SlipTip::Unknown,
    }
}

/// A line `tip: ..` with a list of numbers that was given in these parts, where it has spaces, semicolons or a comma
/// too many. It is empty if no such list may be meant.
pub fn list_tip(alloc: Global, parts: &[&str]) -> Result<String, AllocError> {
    let mut given = String::new(alloc);
    for part in parts {
        given.push_str(part)?;
        given.push(',')?;
    }
    let list = with_commas(alloc, given.as_str())?;
    if list.contains(',') && is_of_numbers(list.as_str()) {
        let tip = SlipTip::Commas(list.as_str());
        return format!(in alloc; "{tip}");
    }
    Ok(String::new(alloc))
}

/// Whether a part of a list of numbers is none because commas, semicolons or spaces stand where they must not.
pub fn is_gapped(part: &str) -> bool {
    part.is_empty() || part.contains(' ') || part.contains(';')
}

/// Whether a text is numbers and ranges with commas between them.
pub(crate) fn is_of_numbers(list: &str) -> bool {
    let is_spelled = list.bytes().all(|byte| byte.is_ascii_digit() || matches!(byte, b',' | b'.'));
    let is_whole = !list.starts_with([',', '.']) && !list.ends_with([',', '.']);
    is_spelled && is_whole && !list.contains(",.") && !list.contains(".,") && !list.contains(",,")
}

/// Whether the option of this name counts in 100.
pub(crate) fn counts_in_hundred(name: &str) -> bool {
    match option_named(name) {
        Some(option) => matches!(option.unit, Unit::OfHundred(_)),
        None => false,
    }
}

/// Why the option of this name does not take a text that is a list or a range, and which command takes it.
pub fn one_value(alloc: Global, name: &str, text: &str) -> Result<String, AllocError> {
    let mut reason = String::from_str(alloc, "it takes one value here")?;
    if takes_list(name) {
        let shown = shown_name(alloc, text)?;
        write!(reason, ", and `overlay sweep --{name} {shown}` a list")?;
    }
    Ok(reason)
}

/// The ends of a range, if a text is two numbers with some other sign between them.
fn range_meant(text: &str) -> Option<(u64, u64)> {
    for sign in ["...", "..=", "-", ":", "\u{2013}"] {
        if let Some((low, high)) = text.split_once(sign) {
            if let (Ok(low), Ok(high)) = (low.parse::<u64>(), high.parse::<u64>()) {
                return Some((low, high));
            }
        }
    }
    None
}

/// Whether a text is a range of which one end is missing.
fn lacks_end(text: &str) -> bool {
    match text.split_once(RANGE) {
        Some(("", end) | (end, "")) => end.parse::<u64>().is_ok(),
        _ => false,
    }
}

/// How many of 100 a text may mean that is a number with `%` behind it.
fn whole_percent(text: &str) -> Option<u64> {
    text.strip_suffix("%")?.parse::<u64>().ok()
}

/// The whole numbers below and above a fraction that is more than 1, as 1.5, if an option that counts in 100 takes
/// both.
fn whole_beside(text: &str) -> Option<(u64, u64)> {
    let (whole, digits) = text.split_once(".")?;
    let below = whole.parse::<u64>().ok()?;
    let rest = digits.parse::<u64>().ok()?;
    (1 <= below && below < MOST_SHARE && rest != 0).then_some((below, below.saturating_add(1)))
}

/// How many of 100 a fraction may mean, as 0.03 or .5, if it is a share of all.
fn share_of_hundred(text: &str) -> Option<u64> {
    let (whole, digits) = text.split_once(".")?;
    if !matches!(whole, "" | "0") {
        return None;
    }
    let number = digits.parse::<u64>().ok()?;
    match digits.len() {
        1 => Some(number.saturating_mul(10)),
        2 => Some(number),
        _ => None,
    }
}
