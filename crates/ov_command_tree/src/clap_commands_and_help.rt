ghost use Rattle.std.specs.Prelude.{◌≡◌, codes, false, IfOk};
ghost use Rattle.clap.specs.Words.{app_of, new_app, new_rule, rule_of, with_rule};
ghost use Rattle.ov_command_tree.specs.Commands.{overlay_app, overlay_command};
ghost use Rattle.ov_command_tree.specs.Code.Options.{app_alone, rule_of_option, with_commands, with_options};

use clap::{Arg, ArgAction, Command};
use std::alloc::{AllocError, Global};

/// The program's name, which usage begins with, although it is none of the arguments.
const NAME: &str = "overlay";

/// What help of `overlay` begins with.
const EXAMPLES: &str = "\
Examples:
  overlay run story.scenario --explain
  overlay analyse net.graph --workers 4
  overlay analyse net.graph --certificate
  overlay import views.json > net.graph
  overlay picture net.json > net.svg
  overlay grow --nodes 60 --crash 10 | overlay run
  overlay sweep --active 3,5,8 --summary";

/// What help says of `overlay`.
const ABOUT: &str = "\
Runs a scenario file of overlay nodes, analyses a graph file, or grows overlays. Imports dumps, draws certificates.";

/// What help says below the commands.
const BELOW: &str = "\
Without a file, or with -, a command reads standard input.
Bare overlay is overlay run. overlay --version prints the version.";

/// What help says of `--progress` of both commands.
const PROGRESS: &str = "Prints on standard error how far it has come";

/// What help of `overlay run` begins with.
const RUN_EXAMPLES: &str = "\
Examples:
  overlay run story.scenario
  overlay run story.scenario --strict --progress
  overlay run --explain < story.scenario";

/// What help says of `overlay run`, and of its other options.
const ABOUT_RUN: &str = "Runs the events of a scenario file, and prints what happens";

/// What help says of refused lines, below the options.
const BELOW_RUN: &str = "\
A line that is refused as it runs prints `refused N`, changes nothing, and the run goes on.
Its status is 0 all the same. With --strict the run ends there, with status 1.";

const SCENARIO_FILE: &str = "The scenario file; standard input without it, or with -";

const EXPLAIN: &str = "Prints on standard error why lines are refused, and counts the events";

const STRICT: &str = "Ends at the first refused line, says why, and has status 1";

/// What help of `overlay analyse` begins with.
const ANALYSE_EXAMPLES: &str = "\
Examples:
  overlay analyse net.graph
  overlay analyse net.graph --group 1,2,3 --workers 4
  overlay analyse net.graph --without 4 --at-least 2
  overlay analyse net.graph --names --explain
  overlay analyse wide.graph --large --workers 4
  overlay analyse net.graph --certificate | tail -1 | overlay-check";

/// What help says of `overlay analyse`, and of its other options.
const ABOUT_ANALYSE: &str = "Reads a graph file, and prints how few crashes split it";

const GRAPH_FILE: &str = "The graph file; standard input without it, or with -";

const GROUP: &str =
    "For these nodes alone: ids, or names beside --names, with one comma between two; or @FILE";

const WITHOUT: &str = "Without these nodes and their links, given as for --group";

const AT_LEAST: &str = "Has status 3 if k is below this number, or there is no answer";

const WORKERS: &str = "With 1 to 64 workers, and with one without it";

const CERTIFICATE: &str = "Prints the certificate file too";

const NAMES: &str = "Prints the answer in the names that the graph file gives too";

const EXPLAIN_ANSWER: &str = "Says the answer in words on standard error";

const LARGE_GRAPH: &str = "Takes up to 32768 nodes, in place of 1024";

/// What help of `overlay import` begins with.
const IMPORT_EXAMPLES: &str = "\
Examples:
  overlay import views.json > net.graph
  overlay import --edges net.edges | overlay analyse --names
  overlay import --dot net.dot --either --entries > net.graph";

/// What help of `overlay import` says, and of its options.
const ABOUT_IMPORT: &str =
    "Makes a graph file of what a cluster says of its links, by names, and keeps the names as comments";

const BELOW_IMPORT: &str = "\
Without --views, --edges or --dot the first line says which: { begins views, graph or digraph DOT.
In edges each line is a link: leave out a header such as source,target. Quotes are part of a name.
What only one of two lists, and who is listed without an entry, is counted on standard error.";

const DUMP_FILE: &str = "The dump; standard input without it, or with -";

const VIEWS: &str = "Reads a JSON object: each name with the list of its peers";

const EDGES: &str = "Reads lines of two names, with a space, a tab or a comma between them";

const DOT: &str = "Reads Graphviz's language DOT";

const EITHER: &str = "Links two that do not both list each other, too";

const ENTRIES: &str = "Leaves out names that have no entry";

const LARGE_DUMP: &str = "Takes up to 32768 names, in place of 1024";

/// What help of `overlay picture` begins with.
const PICTURE_EXAMPLES: &str = "\
Examples:
  overlay analyse net.graph --certificate | tail -1 > net.json
  overlay picture net.json --names net.graph > net.svg
  overlay picture net.json --fan 20 > paths.svg";

/// What help of `overlay picture` says, and of its options.
const ABOUT_PICTURE: &str = "Draws the graph of a certificate file, with its cut in the middle";

const CERTIFICATE_FILE: &str = "The certificate file; standard input without it, or with -";

const NAMES_FILE: &str = "A graph file whose comments name the nodes";

const PAIR: &str = "Draws the paths between these two members: I,J";

const FAN: &str = "Draws the paths from this member to members below it";

const DOT_PICTURE: &str = "Prints Graphviz's language DOT in place of SVG";

/// What help of `overlay graph` begins with, and what it says.
const GRAPH_EXAMPLES: &str = "\
Example:
  overlay graph net.json > sent.graph";

const ABOUT_GRAPH: &str = "Prints the graph of a certificate file as a graph file";

const LARGE_CERTIFICATE: &str = "Reads version 3 too, of up to 32768 nodes";

/// What help of a command says.
#[derive(Clone, Copy)]
struct CommandHelp<'a> {
    /// What it begins with.
    examples: &'a str,
    /// What it says of the command.
    about: &'a str,
    /// What it says of the file.
    file: &'a str,
    /// What it says below the options.
    below: Option<&'a str>,
}

const RUN_HELP: CommandHelp<'static> = CommandHelp {
    examples: RUN_EXAMPLES,
    about: ABOUT_RUN,
    file: SCENARIO_FILE,
    below: Some(BELOW_RUN),
};

const ANALYSE_HELP: CommandHelp<'static> = CommandHelp {
    examples: ANALYSE_EXAMPLES,
    about: ABOUT_ANALYSE,
    file: GRAPH_FILE,
    below: None,
};

const IMPORT_HELP: CommandHelp<'static> = CommandHelp {
    examples: IMPORT_EXAMPLES,
    about: ABOUT_IMPORT,
    file: DUMP_FILE,
    below: Some(BELOW_IMPORT),
};

const PICTURE_HELP: CommandHelp<'static> = CommandHelp {
    examples: PICTURE_EXAMPLES,
    about: ABOUT_PICTURE,
    file: CERTIFICATE_FILE,
    below: None,
};

const GRAPH_HELP: CommandHelp<'static> = CommandHelp {
    examples: GRAPH_EXAMPLES,
    about: ABOUT_GRAPH,
    file: CERTIFICATE_FILE,
    below: None,
};

/// An option of a command.
#[derive(Clone, Copy)]
pub(crate) struct OptionRow<'a> {
    /// Its name, without the two hyphens before it.
    pub(crate) name: &'a str,
    /// What it does: with a text behind it, or without one.
    action: ArgAction,
    /// What help says of it.
    help: &'a str,
}

/// A command that reads a file.
#[derive(Clone, Copy)]
pub(crate) struct CommandRow<'a> {
    pub(crate) name: &'a str,
    help: CommandHelp<'a>,
    pub(crate) options: &'a [OptionRow<'a>],
}

/// The commands that read files, in the order of help.
static COMMANDS: [CommandRow<'static>; 5] = [
    CommandRow {
        name: "run",
        help: RUN_HELP,
        options: &[
            OptionRow {
                name: "explain",
                action: ArgAction::SetTrue,
                help: EXPLAIN,
            },
            OptionRow {
                name: "strict",
                action: ArgAction::SetTrue,
                help: STRICT,
            },
            OptionRow {
                name: "progress",
                action: ArgAction::SetTrue,
                help: PROGRESS,
            },
        ],
    },
    CommandRow {
        name: "analyse",
        help: ANALYSE_HELP,
        options: &[
            OptionRow {
                name: "group",
                action: ArgAction::Set,
                help: GROUP,
            },
            OptionRow {
                name: "without",
                action: ArgAction::Set,
                help: WITHOUT,
            },
            OptionRow {
                name: "at-least",
                action: ArgAction::Set,
                help: AT_LEAST,
            },
            OptionRow {
                name: "workers",
                action: ArgAction::Set,
                help: WORKERS,
            },
            OptionRow {
                name: "certificate",
                action: ArgAction::SetTrue,
                help: CERTIFICATE,
            },
            OptionRow {
                name: "names",
                action: ArgAction::SetTrue,
                help: NAMES,
            },
            OptionRow {
                name: "explain",
                action: ArgAction::SetTrue,
                help: EXPLAIN_ANSWER,
            },
            OptionRow {
                name: "progress",
                action: ArgAction::SetTrue,
                help: PROGRESS,
            },
            OptionRow {
                name: "large",
                action: ArgAction::SetTrue,
                help: LARGE_GRAPH,
            },
        ],
    },
    CommandRow {
        name: "import",
        help: IMPORT_HELP,
        options: &[
            OptionRow {
                name: "views",
                action: ArgAction::SetTrue,
                help: VIEWS,
            },
            OptionRow {
                name: "edges",
                action: ArgAction::SetTrue,
                help: EDGES,
            },
            OptionRow {
                name: "dot",
                action: ArgAction::SetTrue,
                help: DOT,
            },
            OptionRow {
                name: "either",
                action: ArgAction::SetTrue,
                help: EITHER,
            },
            OptionRow {
                name: "entries",
                action: ArgAction::SetTrue,
                help: ENTRIES,
            },
            OptionRow {
                name: "large",
                action: ArgAction::SetTrue,
                help: LARGE_DUMP,
            },
        ],
    },
    CommandRow {
        name: "picture",
        help: PICTURE_HELP,
        options: &[
            OptionRow {
                name: "names",
                action: ArgAction::Set,
                help: NAMES_FILE,
            },
            OptionRow {
                name: "pair",
                action: ArgAction::Set,
                help: PAIR,
            },
            OptionRow {
                name: "fan",
                action: ArgAction::Set,
                help: FAN,
            },
            OptionRow {
                name: "dot",
                action: ArgAction::SetTrue,
                help: DOT_PICTURE,
            },
        ],
    },
    CommandRow {
        name: "graph",
        help: GRAPH_HELP,
        options: &[OptionRow {
            name: "large",
            action: ArgAction::SetTrue,
            help: LARGE_CERTIFICATE,
        }],
    },
];

/// The commands that read files.
pub(crate) fn file_commands() -> &'static [CommandRow<'static>]
    ensures { with_commands overlay_app result.now ≡ overlay_command }
{
    &COMMANDS
}

/// The arguments that `overlay` takes.
pub fn command<'a>(alloc: Global) -> Result<Command<'a>, AllocError>
    ensures { IfOk result (λ c. app_of c ≡ overlay_command) }
{
    let none = alone(alloc, NAME, NAME, EXAMPLES, ABOUT, BELOW)?;
    with_commands(alloc, none, file_commands())
}

/// The command with these commands below it.
fn with_commands<'a>(
    alloc: Global,
    command: Command<'a>,
    rows: &[CommandRow<'a>],
) -> Result<Command<'a>, AllocError>
    ensures { IfOk result (λ c. app_of c ≡ with_commands (app_of command.entry) rows.now) }
{
    let mut command = command;
    for row in rows {
        let more = with_arguments(alloc, row.name, &row.help, row.options)?;
        command = command.subcommand(more)?;
    }
    Ok(command)
}

/// A command of this name without options or commands, which is no word of its own. Usage begins with its whole name.
/// Help begins with examples, and says more below the options.
pub(crate) fn alone<'a>(
    alloc: Global,
    name: &'a str,
    whole_name: &'a str,
    examples: &'a str,
    about: &'a str,
    below: &'a str,
) -> Result<Command<'a>, AllocError>
    ensures { IfOk result (λ c. app_of c ≡ app_alone name.entry.now) }
{
    Command::new(alloc, name)
        .no_binary_name(true)
        .before_help(examples)
        .about(about)
        .after_help(below)
        .bin_name(whole_name)
}

/// A command of this name with a file and these options, of which help says this.
fn with_arguments<'a>(
    alloc: Global,
    name: &'a str,
    help: &CommandHelp<'a>,
    options: &[OptionRow<'a>],
) -> Result<Command<'a>, AllocError>
    ensures { IfOk result
        (λ c. app_of c ≡ with_options (with_rule (new_app name.entry.now) (new_rule (codes "file"))) options.now) }
{
    let mut command = named(alloc, name, help).arg(file_argument(alloc, help.file))?;
    for row in options {
        command = command.arg(row.argument(alloc))?;
    }
    Ok(command)
}

/// A command of this name without options, of which help says this.
fn named<'a>(alloc: Global, name: &'a str, help: &CommandHelp<'a>) -> Command<'a>
    ensures { app_of result ≡ new_app name.entry.now }
{
    let command = Command::new(alloc, name)
        .before_help(help.examples)
        .about(help.about);
    match help.below {
        Some(below) => command.after_help(below),
        None => command,
    }
}

/// A file, of which help says this.
fn file_argument<'a>(alloc: Global, help: &'a str) -> Arg<'a>
    ensures rule { rule_of result ≡ new_rule (codes "file") }
    ensures local { result.global ≡ false }
{
    Arg::new(alloc, "file").help(help)
}

impl<'a> OptionRow<'a> {
    /// What the option is to `clap`.
    fn argument(&self, alloc: Global) -> Arg<'a>
        ensures rule { rule_of result ≡ rule_of_option self.now }
        ensures local { result.global ≡ false }
    {
        Arg::new(alloc, self.name)
            .long(self.name)
            .action(self.action)
            .help(self.help)
    }
}
