use crate::GrowArgumentsFault;
use crate::clap_parsing_and_faults::found_in;
use crate::grow_arguments_fault::refused;
use crate::option_values::{judge_sender, long_walk, value};
use clap::ArgMatches;
use ov_command_tree::{CRASH_CUT, GrowingCommand, growing_options, has_flag, text_of};
use ov_grow_options::{GrowOptions, OPTION_COUNT, OptionRow, OptionValue, OptionValues, SEED};
use std::alloc::Global;

/// What the words after `overlay grow` ask for.
#[derive(Drop)]
pub struct GrowRequest {
    /// The options of the overlay, unless those of a row are asked for.
    pub options: GrowOptions,
    /// The row whose options are asked for, as FILE:N.
    pub row: Option<String>,
    /// Whether the scenario asks for certificates at its end.
    pub certificates: bool,
}

/// Reads the words after `overlay grow`: its options, each at most once, `--NAME VALUE` or `--NAME=VALUE`. An option
/// that is not given has its default.
///
/// BadArguments (73): a word is no option or not what its option takes, an option is given twice, --crash and
/// --crash-cut are given, or --row and an option of growing, --prwl is above --arwl, or --sender is above --nodes.
/// OutOfMemory (99): an allocation was refused.
pub fn read_grow_arguments(
    alloc: Global,
    words: &[String],
) -> Result<GrowRequest, GrowArgumentsFault> {
    let found = found_in(alloc, GrowingCommand::Grow, words)?;
    Ok(GrowRequest {
        options: options_of(alloc, &found)?,
        row: text_of(alloc, &found, "row")?,
        certificates: has_flag(&found, "certificates"),
    })
}

fn options_of(alloc: Global, found: &ArgMatches<'_>) -> Result<GrowOptions, GrowArgumentsFault> {
    let values = values_of(alloc, found)?;
    let Some(options) = values.options(number_of(&values, SEED.name)) else {
        let arwl = number_of(&values, "arwl");
        return Err(refused(long_walk(alloc, arwl, number_of(&values, "prwl"))));
    };
    judge_sender(alloc, values.value("sender"), number_of(&values, "nodes"))?;
    Ok(options)
}

/// The value of each option of growing.
fn values_of(alloc: Global, found: &ArgMatches<'_>) -> Result<OptionValues, GrowArgumentsFault> {
    let mut values = [OptionValue::Given(false); OPTION_COUNT];
    for (slot, option) in values.iter_mut().zip(growing_options()) {
        *slot = value_of(alloc, found, option)?;
    }
    Ok(OptionValues(values))
}

/// The number of the option of this name.
fn number_of(values: &OptionValues, name: &str) -> u64 {
    values.value(name).number().unwrap_or(0)
}

/// The value of an option. `--crash-cut` is another word for one of `--crash`.
fn value_of(
    alloc: Global,
    found: &ArgMatches<'_>,
    option: &OptionRow,
) -> Result<OptionValue, GrowArgumentsFault> {
    if option.name == "crash" && has_flag(found, CRASH_CUT) {
        return Ok(OptionValue::Word("cut"));
    }
    value(alloc, found, option)
}
