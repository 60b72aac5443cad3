//! What `--messages` of `overlay sweep` does not stand beside, what it and `--costs` need, and why.
use crate::GrowArgumentsFault;
use crate::grow_arguments_fault::refused;
use crate::option_values::values;
use crate::sweep_list_reading::most;
use clap::ArgMatches;
use clap::parser::ValueSource;
use ov_command_tree::{HELP_BELOW, has_flag};
use ov_grow_options::BROADCASTS;
use std::alloc::{AllocError, Global};

/// Why it needs `--sequential`.
const ALONE: &str =
    "error: '--messages' needs '--sequential': PRUNE does not say for which broadcast it is sent, so \
                     what a broadcast cost is known if it is made alone";

/// Why it needs `--broadcasts`.
const SOME: &str =
    "error: '--messages' needs '--broadcasts B' with B from 1 to 1000: it prints a row for each broadcast, and \
                    without that there is none";

/// Why `--costs` needs `--broadcasts`.
const COSTS: &str =
    "error: '--costs' needs '--broadcasts B': it tells what broadcasts cost, and without that there is none";

/// Why it excludes what measures runs.
const OF_PHASES: &str =
    "which tells of all broadcasts of a phase, and it prints a row for each broadcast";

/// Why it excludes what tells of runs.
const OF_RUNS: &str = "which tells of rows of runs, and it prints none";

/// Why it excludes rows that are read.
const OF_ROWS: &str = "since rows of runs do not say what each broadcast cost";

/// The options that it excludes, and why.
static EXCLUDED: [(&str, &str); 6] = [
    ("costs", OF_PHASES),
    (
        "shape",
        "which tells of the links after a phase, and it prints a row for each broadcast",
    ),
    ("summary", OF_RUNS),
    ("svg", OF_RUNS),
    ("at-most-split", OF_RUNS),
    ("read", OF_ROWS),
];

/// Refuses `--messages` beside an option that it excludes, without `--sequential`, and if no setting has a broadcast.
pub(crate) fn judge_messages(
    alloc: Global,
    found: &ArgMatches<'_>,
) -> Result<(), GrowArgumentsFault> {
    if !has_flag(found, "messages") {
        return Ok(());
    }
    if let Some((name, reason)) = excluded_beside(found) {
        return Err(refused(excluded(alloc, name, reason)));
    }
    if !has_flag(found, "sequential") {
        return Err(refused(needs(alloc, ALONE)));
    }
    if most(&values(alloc, found, &BROADCASTS)?) == 0 {
        return Err(refused(needs(alloc, SOME)));
    }
    Ok(())
}

/// The first option that it excludes among those that are given, and why.
fn excluded_beside(found: &ArgMatches<'_>) -> Option<&'static (&'static str, &'static str)> {
    for row in &EXCLUDED {
        if is_given(found, row.0) {
            return Some(row);
        }
    }
    None
}

/// Refuses `--costs` if nobody says how many broadcasts there are. Where they are said to be none, its columns stand
/// beside those of other settings.
pub(crate) fn judge_costs(alloc: Global, found: &ArgMatches<'_>) -> Result<(), GrowArgumentsFault> {
    if has_flag(found, "costs") && !is_given(found, BROADCASTS.name) {
        return Err(refused(needs(alloc, COSTS)));
    }
    Ok(())
}

/// Whether an option is given.
fn is_given(found: &ArgMatches<'_>, name: &str) -> bool {
    found.value_source(name) == Some(ValueSource::CommandLine)
}

/// Why it does not stand beside the option of this name.
fn excluded(alloc: Global, name: &str, reason: &str) -> Result<String, AllocError> {
    format!(in alloc; "error: '--messages' cannot be used with '--{name}', {reason}{HELP_BELOW}")
}

/// Why it does not stand without what it needs.
fn needs(alloc: Global, reason: &str) -> Result<String, AllocError> {
    format!(in alloc; "{reason}{HELP_BELOW}")
}
