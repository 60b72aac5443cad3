use crate::GrowArgumentsFault;
use crate::clap_parsing_and_faults::{bad_number, bad_value_since};
use crate::grow_arguments_fault::refused;
use crate::option_values::{TWICE, judge_sender, long_walk, values};
use crate::setting_lists::SettingLists;
use clap::ArgMatches;
use clap::parser::ValueSource;
use ov_command_tree::{CRASH_CUT, growing_options, has_flag};
use ov_grow_options::{OptionRow, OptionValue};
use std::alloc::{AllocError, Global};

/// The most runs of a sweep. (Chosen here.)
const MOST_RUNS: u64 = 1_000_000;

/// The values of each option that were found in the words after `overlay sweep`, where each setting has so many runs.
pub(crate) fn lists_of(
    alloc: Global,
    found: &ArgMatches<'_>,
    runs: u32,
) -> Result<SettingLists, GrowArgumentsFault> {
    let mut lists = Vec::new(alloc);
    for option in growing_options() {
        lists.push(list_of(alloc, found, option)?)?;
    }
    let settings = SettingLists { lists };
    judge_settings(alloc, &settings, runs)?;
    Ok(settings)
}

/// The values of an option. Where no pace or sender is given, it is none; of an option that takes nothing there is one.
fn list_of(
    alloc: Global,
    found: &ArgMatches<'_>,
    option: &OptionRow,
) -> Result<Vec<OptionValue>, GrowArgumentsFault> {
    let mut list = Vec::new(alloc);
    if !option.takes_nothing() {
        list = values(alloc, found, option)?;
    }
    if option.name == "crash" && has_flag(found, CRASH_CUT) {
        push_cut(alloc, found, &mut list)?;
    }
    if list.is_empty() {
        list.push(option.without_text(has_flag(found, option.name)))?;
    }
    Ok(list)
}

/// Adds what --crash-cut says to the values of --crash, or puts that in their place if --crash is not given.
fn push_cut(
    alloc: Global,
    found: &ArgMatches<'_>,
    crashes: &mut Vec<OptionValue>,
) -> Result<(), GrowArgumentsFault> {
    let cut = OptionValue::Word("cut");
    if found.value_source("crash") == Some(ValueSource::DefaultValue) {
        crashes.clear();
    }
    if crashes.contains(&cut) {
        return Err(refused(bad_value_since(alloc, "crash", "cut", TWICE)));
    }
    Ok(crashes.push(cut)?)
}

/// Refuses settings of which one has --prwl above --arwl, or --sender above --nodes, and too many runs of them.
fn judge_settings(
    alloc: Global,
    settings: &SettingLists,
    runs: u32,
) -> Result<(), GrowArgumentsFault> {
    let (arwl, prwl) = (least(settings.list("arwl")), most(settings.list("prwl")));
    if prwl > arwl {
        return Err(refused(long_walk(alloc, arwl, prwl)));
    }
    let fewest = least(settings.list("nodes"));
    for sender in settings.list("sender") {
        judge_sender(alloc, *sender, fewest)?;
    }
    if settings.len().saturating_mul(u64::from(runs)) > MOST_RUNS {
        return Err(refused(too_many(alloc, settings.len(), runs)));
    }
    Ok(())
}

/// Why so many settings are refused, each with so many runs.
fn too_many(alloc: Global, settings: u64, runs: u32) -> Result<String, AllocError> {
    let reason = format!(in alloc;
        "with {settings} settings there are more than {MOST_RUNS} runs"
    )?;
    bad_number(alloc, "runs", u64::from(runs), &reason)
}

/// The least number of a list.
fn least(list: &[OptionValue]) -> u64 {
    let mut least = u64::MAX;
    for value in list {
        if let OptionValue::Number(number) = value {
            least = least.min(*number);
        }
    }
    least
}

/// The largest number of a list, 0 if it has none.
pub(crate) fn most(list: &[OptionValue]) -> u64 {
    let mut most = 0;
    for value in list {
        most = value.number().unwrap_or(0).max(most);
    }
    most
}
