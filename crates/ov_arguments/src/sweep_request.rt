ghost use Rattle.std.specs.Prelude.{◌≡◌, ◌+◌, ◌%◌, ◌^◌, IfSome};

use crate::clap_parsing_and_faults::{bad_value_since, found_in};
use crate::grow_arguments_fault::refused;
use crate::messages_option_slips::{judge_costs, judge_messages};
use crate::option_values::{number, value};
use crate::setting_lists::SettingLists;
use crate::sweep_list_reading::lists_of;
use crate::{GrowArgumentsFault, SweepBlocks, SweepRuns};
use clap::ArgMatches;
use ov_command_tree::{AFTER, BOUND, GrowingCommand, LIST, RUNS, WORKERS, has_flag, text_of};
use ov_grow_options::{GrowOptions, OptionValue, SEED, Share};
use ov_ids::Workers;
use std::alloc::{AllocError, Global};

/// Why a picture is not written to standard output.
const STANDARD_OUTPUT: &str = "rows go to standard output; name a file";

/// What the words after `overlay sweep` ask for.
#[derive(Drop)]
pub struct SweepRequest {
    /// The settings.
    pub(crate) settings: SettingLists,
    /// How many runs each setting has.
    pub runs: u32,
    /// The seed of the first run of each setting. Each further run has the next seed, and 0 follows the last of 64
    /// bits.
    pub first_seed: u64,
    /// How many runs go on at once.
    pub workers: Workers,
    /// What is printed.
    pub printed: Printed,
    /// What is asked of the settings, if something is.
    pub question: Option<SplitAsked>,
    /// The file for the picture, if one is asked for.
    pub svg: Option<String>,
    /// The files whose rows are read in place of growing, if they are given.
    pub read: Option<Vec<String>>,
    /// Whether to measure what the broadcasts of each phase cost.
    pub costs: bool,
    /// Whether to measure the shape after each phase.
    pub shape: bool,
    /// Whether to print how far the sweep has come.
    pub progress: bool,
}

/// What a sweep prints.
#[derive(Clone, Copy, PartialEq, Eq)]
pub enum Printed {
    /// The rows.
    Rows,
    /// A summary of them.
    Summary,
    /// The answer to what is asked of the settings, and nothing else.
    Answer,
    /// A row for each broadcast, in place of each run.
    Messages,
    /// The commands that grow them, each of at most so many runs. Nothing is grown.
    List { block: u32 },
}

/// What is asked of the settings: which is the smallest of which fewer runs than so many of 100 are split.
#[derive(Clone, Copy)]
pub struct SplitAsked {
    /// Fewer than so many of 100, 1 or more.
    pub bound: Share,
    /// After which phase.
    pub after: AskedPhase,
}

/// The phase after which overlays are looked at.
#[derive(Clone, Copy)]
pub enum AskedPhase {
    /// All have joined, and the overlay has settled.
    Settle,
    /// Nodes have crashed.
    Crash,
    /// The overlay has healed.
    Heal,
}

impl SweepRequest {
    /// How many runs there are in all.
    pub fn len(&self) -> u64 {
        self.settings.len().saturating_mul(u64::from(self.runs))
    }

    /// Whether one of the further options is asked for: --sequential, --sender or --detect. Rows have their columns
    /// then.
    pub fn asks_further(&self) -> bool {
        self.settings.asks_further()
    }

    /// The options of the run at a place, counted from 0: setting after setting, and seed after seed. None is returned
    /// behind the last one.
    pub fn get(&self, place: u64) -> Option<GrowOptions>
        ensures seed { IfSome result (λ options. options.seed
            ≡ (self.now.first_seed + place % self.now.runs) % 2 ^ 64) }
    {
        let runs = u64::from(self.runs);
        if runs == 0 {
            return None;
        }
        let seed = self.first_seed.wrapping_add(place % runs);
        self.settings.get(place / runs, seed)
    }

    /// All runs: setting after setting, and seed after seed.
    pub fn runs(&self) -> SweepRuns<'_> {
        SweepRuns::new(self)
    }

    /// All blocks of at most so many runs of one setting, in the order of the runs.
    pub fn blocks(&self, most: u32) -> SweepBlocks<'_> {
        SweepBlocks::new(self, most)
    }
}

/// Reads the words after `overlay sweep`: each option at most once, `--NAME VALUE` or `--NAME=VALUE`. Every option of
/// growing but --seed, --crash-cut, --sequential and --detect takes a list, with one comma between two values. An
/// option that is not given has its default alone.
///
/// BadArguments (73): a word is no option or not what its option takes, an option is given twice, two options exclude
/// each other (--list and --summary, --at-most-split, --svg or --messages, --read and what grows, --costs, --shape or
/// --progress, --messages and what is told of runs), --messages stands without --sequential or without broadcasts,
/// --costs without --broadcasts, the file of --svg is -, a value stands in its list twice, some --prwl is above some
/// --arwl, some --sender is above some --nodes, or there are more than 1,000,000 runs. OutOfMemory (99): an allocation
/// was refused.
pub fn read_sweep_arguments(
    alloc: Global,
    words: &[String],
) -> Result<SweepRequest, GrowArgumentsFault> {
    let found = found_in(alloc, GrowingCommand::Sweep, words)?;
    request_of(alloc, &found)
}

fn request_of(alloc: Global, found: &ArgMatches<'_>) -> Result<SweepRequest, GrowArgumentsFault> {
    judge_messages(alloc, found)?;
    judge_costs(alloc, found)?;
    let numbers = numbers_of(alloc, found)?;
    let question = question_of(alloc, found)?;
    let printed = printed_of(alloc, found, question.is_some())?;
    let svg = picture_of(alloc, found)?;
    let read = files_of(alloc, found)?;
    Ok(SweepRequest {
        settings: lists_of(alloc, found, numbers.runs)?,
        runs: numbers.runs,
        first_seed: numbers.first_seed,
        workers: numbers.workers,
        printed,
        question,
        svg,
        read,
        costs: has_flag(found, "costs"),
        shape: has_flag(found, "shape"),
        progress: has_flag(found, "progress"),
    })
}

/// The numbers of a sweep.
#[derive(Clone, Copy)]
struct Numbers {
    runs: u32,
    first_seed: u64,
    workers: Workers,
}

fn numbers_of(alloc: Global, found: &ArgMatches<'_>) -> Result<Numbers, GrowArgumentsFault> {
    let runs = number(alloc, found, &RUNS)?;
    let first_seed = value(alloc, found, &SEED)?.number().unwrap_or(0);
    let workers = Workers::new(number(alloc, found, &WORKERS)?).unwrap_or(Workers::ONE);
    Ok(Numbers {
        runs,
        first_seed,
        workers,
    })
}

/// What is asked of the settings.
fn question_of(
    alloc: Global,
    found: &ArgMatches<'_>,
) -> Result<Option<SplitAsked>, GrowArgumentsFault> {
    if !found.contains_id(BOUND.name) {
        return Ok(None);
    }
    let after = match value(alloc, found, &AFTER)? {
        OptionValue::Word("settle") => AskedPhase::Settle,
        OptionValue::Word("crash") => AskedPhase::Crash,
        _ => AskedPhase::Heal,
    };
    match Share::new(number(alloc, found, &BOUND)?) {
        Some(bound) => Ok(Some(SplitAsked { bound, after })),
        None => Ok(None),
    }
}

fn printed_of(
    alloc: Global,
    found: &ArgMatches<'_>,
    is_asked: bool,
) -> Result<Printed, GrowArgumentsFault> {
    if found.contains_id(LIST.name) {
        let block = number(alloc, found, &LIST)?;
        return Ok(Printed::List { block });
    }
    if has_flag(found, "messages") {
        return Ok(Printed::Messages);
    }
    Ok(match (has_flag(found, "summary"), is_asked) {
        (true, _) => Printed::Summary,
        (false, true) => Printed::Answer,
        (false, false) => Printed::Rows,
    })
}

/// The file for the picture. Standard output is none.
fn picture_of(alloc: Global, found: &ArgMatches<'_>) -> Result<Option<String>, GrowArgumentsFault> {
    if found.get_str("svg") == Some("-") {
        return Err(refused(bad_value_since(alloc, "svg", "-", STANDARD_OUTPUT)));
    }
    Ok(text_of(alloc, found, "svg")?)
}

fn files_of(alloc: Global, found: &ArgMatches<'_>) -> Result<Option<Vec<String>>, AllocError> {
    let Some(names) = found.get_strs("read") else {
        return Ok(None);
    };
    let mut files = Vec::new(alloc);
    for name in names {
        files.push(String::from_str(alloc, name)?)?;
    }
    Ok(Some(files))
}
