use crate::clap_commands_and_help::{alone, command};
use crate::grow_and_sweep_option_tables::{BOUND_NAME, own_options, takes_list};
use clap::builder::{ValueParser, ValueRange};
use clap::{Arg, ArgAction, Command};
use ov_grow_options::{CRASH_CUT, OptionRow, Unit, growing_options};
use std::alloc::{AllocError, Global};
use std::slice;

/// The names of the two commands that grow overlays.
const GROW: &str = "grow";

const SWEEP: &str = "sweep";

/// The commands, as usage begins.
const GROW_NAME: &str = "overlay grow";

const SWEEP_NAME: &str = "overlay sweep";

/// What help of `overlay grow` says, with examples first.
const GROW_EXAMPLES: &str = "\
Examples:
  overlay grow --nodes 60 --seed 7 | overlay run
  overlay grow --active 4 --crash 20 --broadcasts 5 > overlay.txt
  overlay grow --row rows.csv:12 --certificates | overlay run";

const GROW_ABOUT: &str = "Grows an overlay, and prints the scenario that grows it again";

const GROW_BELOW: &str = "\
A lost JOIN is never sent again, so with --loss-join some nodes may never come in.
The scenario is what `overlay run` reads.";

/// What help of `overlay sweep` says, with examples first.
const SWEEP_EXAMPLES: &str = "\
Examples:
  overlay sweep --active 3..7 --runs 100 --summary
  overlay sweep --active 5,8 --crash 10 --runs 400 --at-most-split 1
  overlay sweep --crash 0,10,cut --workers 4 --svg crash.svg > rows.csv
  overlay sweep --broadcasts 20 --sequential --costs --shape --summary
  overlay sweep --read rows.csv --summary";

const SWEEP_ABOUT: &str = "\
Grows many overlays, and prints a row of each: how few crashes split it, after it has settled, after the crash, and
after it has healed. An option takes values with one comma between two, and ranges, as 3..8,12. Every combination is
one setting.";

const SWEEP_BELOW: &str = "\
A row has the options, and for each P of settle, crash and heal: P_nodes, how many live; P_k, how few crashes split it,
0 if it is split; P_least_degree, the fewest links of a node; P_links; P_entries, the moment of a line `certificate`;
P_delivered, which share of nodes its broadcasts reached. Behind them stand sequential, sender and detect, if one of
these, --costs or --shape is given; by --costs P_gossip, P_ihave, P_graft, P_prune, P_hops and P_redundancy; by --shape
P_largest, P_clustering, P_path, P_diameter, P_degree_25, P_degree_50, P_degree_75 and P_articulations. docs/FORMATS.md,
\"Rows of a sweep\", says what each column is, and what a row of --messages has.
A lost JOIN is never sent again, so with --loss-join some nodes may never come in.
A row can be run again by `overlay grow --row FILE:N | overlay run`.";

/// What help of `overlay` says of `overlay sweep`, in the list of all commands.
const SWEEP_LISTED: &str = "Grows many overlays, and prints a row of each, a summary or a picture";

/// The options that name rows, beside which no option of growing stands.
const ROWS: &[&str] = &["row", "read"];

/// The options that `--crash-cut` of `overlay grow` does not stand beside.
const ROWS_AND_CRASH: &[&str] = &["row", "read", "crash"];

/// Their usage, which the list of all commands has in place of their options.
const GROW_USAGE: &str = "overlay grow [OPTIONS]";

const SWEEP_USAGE: &str = "overlay sweep [OPTIONS]";

/// The commands that grow overlays.
#[derive(Clone, Copy)]
pub enum GrowingCommand {
    /// `overlay grow`.
    Grow,
    /// `overlay sweep`.
    Sweep,
}

impl GrowingCommand {
    /// The command of this name, if it grows overlays.
    pub fn of(word: &str) -> Option<GrowingCommand> {
        match word {
            GROW => Some(GrowingCommand::Grow),
            SWEEP => Some(GrowingCommand::Sweep),
            _ => None,
        }
    }

    /// The command's name.
    pub fn text(self) -> &'static str {
        match self {
            GrowingCommand::Grow => GROW,
            GrowingCommand::Sweep => SWEEP,
        }
    }

    /// The command's name, the one with which usage begins, and what help says: above, of the command, and below the
    /// options.
    fn help<'a>(self) -> [&'a str; 5] {
        match self {
            GrowingCommand::Grow => [GROW, GROW_NAME, GROW_EXAMPLES, GROW_ABOUT, GROW_BELOW],
            GrowingCommand::Sweep => [SWEEP, SWEEP_NAME, SWEEP_EXAMPLES, SWEEP_ABOUT, SWEEP_BELOW],
        }
    }
}

/// All commands, as help of `overlay` lists them, and by whose names a word is told that looks like one.
///
/// The options of these two are not in it. Their words are parsed by their own command, and all others by the part
/// without them: `clap` has exact contracts for commands whose options take no lists and exclude no others.
pub fn command_tree<'a>(alloc: Global) -> Result<Command<'a>, AllocError> {
    let others = command(alloc)?;
    let grow = with_listed(alloc, others, GROW, GROW_ABOUT, GROW_USAGE)?;
    with_listed(alloc, grow, SWEEP, SWEEP_LISTED, SWEEP_USAGE)
}

/// With one command more, of which help says this.
fn with_listed<'a>(
    alloc: Global,
    command: Command<'a>,
    name: &'a str,
    about: &'a str,
    usage: &'a str,
) -> Result<Command<'a>, AllocError> {
    let listed = Command::new(alloc, name).about(about).override_usage(usage);
    command.subcommand(listed)
}

/// A command with the words that it takes.
pub fn growing_command<'a>(alloc: Global, name: GrowingCommand) -> Result<Command<'a>, AllocError> {
    let [word, whole_name, examples, about, below] = name.help();
    let options = options_of(alloc, name)?;
    alone(alloc, word, whole_name, examples, about, below)?.args(options)
}

/// The options of a command: those of growing, and its own.
fn options_of<'a>(alloc: Global, name: GrowingCommand) -> Result<Vec<Arg<'a>>, AllocError> {
    let mut options = Vec::new(alloc);
    for row in growing_options() {
        push_option(&mut options, argument(alloc, name, row, ROWS))?;
    }
    for own in own_options(name) {
        push_option(&mut options, argument(alloc, name, own.row, own.excludes))?;
    }
    Ok(options)
}

/// Appends an option.
fn push_option<'a>(
    options: &mut Vec<Arg<'a>>,
    option: Result<Arg<'a>, AllocError>,
) -> Result<(), AllocError> {
    Ok(options.push(option?)?)
}

/// What an option of a command is to `clap`, and the options that it does not stand beside.
fn argument<'a>(
    alloc: Global,
    command: GrowingCommand,
    row: &'static OptionRow,
    excludes: &'static [&'static str],
) -> Result<Arg<'a>, AllocError> {
    let is_list = matches!(command, GrowingCommand::Sweep) && takes_list(row.name);
    let is_cut = matches!(command, GrowingCommand::Grow) && row.name == CRASH_CUT;
    let excluded = if is_cut { ROWS_AND_CRASH } else { excludes };
    let value = ValueForm::of(row, is_list);
    argument_alone(alloc, row, value, is_list)
        .conflicts_with_all(excluded)?
        .requires_all(value.needs)
}

/// What an option with such a value, or a list of them, is to `clap`, whatever stands beside it.
fn argument_alone<'a>(
    alloc: Global,
    row: &'static OptionRow,
    value: ValueForm,
    is_list: bool,
) -> Arg<'a> {
    let arg = Arg::new(alloc, row.name)
        .long(row.name)
        .help(row.help)
        .action(value.action)
        .num_args(value.range)
        .value_names(value.names)
        .default_values(value.usual)
        .value_parser(value.parser);
    if is_list {
        return arg.value_delimiter(',');
    }
    arg
}

/// What the value of an option is to `clap`.
#[derive(Clone, Copy)]
struct ValueForm {
    action: ArgAction,
    /// How many values stand behind it.
    range: ValueRange,
    /// What help calls it, if there is one.
    names: &'static [&'static str],
    /// What stands for it if it is not given.
    usual: &'static [&'static str],
    /// Which texts it can be.
    parser: ValueParser<'static>,
    /// The options that it stands beside.
    needs: &'static [&'static str],
}

impl ValueForm {
    /// That of this option, whose value may be a list.
    fn of(row: &'static OptionRow, is_list: bool) -> ValueForm {
        if row.takes_nothing() {
            return ValueForm {
                action: ArgAction::SetTrue,
                range: ValueRange::EMPTY,
                names: &[],
                usual: &[],
                parser: ValueParser::Bool,
                needs: &[],
            };
        }
        let is_word = row.limits.is_none() && !row.words.is_empty();
        ValueForm {
            action: ArgAction::Set,
            range: match row.unit {
                Unit::Files => ValueRange::new(1..),
                _ => ValueRange::SINGLE,
            },
            names: value_names(row, is_list),
            usual: match &row.usual {
                Some(text) => slice::from_ref(text),
                None => &[],
            },
            parser: if is_word {
                ValueParser::Names(row.words)
            } else {
                ValueParser::String
            },
            needs: match row.unit {
                Unit::Phase => &[BOUND_NAME],
                _ => &[],
            },
        }
    }
}

/// What help calls the value of an option.
fn value_names(row: &OptionRow, is_list: bool) -> &'static [&'static str] {
    match (row.unit, is_list) {
        (Unit::Order, false) => &["ORDER"],
        (Unit::Order, true) => &["ORDER,.."],
        (Unit::Rule, false) => &["RULE"],
        (Unit::Rule, true) => &["RULE,.."],
        (Unit::Phase, _) => &["PHASE"],
        (Unit::Row, _) => &["FILE:N"],
        (Unit::File | Unit::Files, _) => &["FILE"],
        (_, true) => &["N,.."],
        (_, false) if row.name == BOUND_NAME => &["P"],
        (_, false) => &["N"],
    }
}
