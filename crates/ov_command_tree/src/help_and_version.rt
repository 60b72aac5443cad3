//! What `overlay` tells of itself: help, and its version.
ghost use Rattle.std.specs.Prelude.{◌≡◌, map, string_bytes};
ghost use Rattle.ov_command_tree.specs.Telling.{ask_for_help, command_named, help_behind, help_of, is_help_option};
ghost use Rattle.ov_command_tree.specs.Telling.{is_version_option, name_of, telling_asked};

use crate::clap_commands_and_help::command;
use crate::grow_and_sweep_clap_commands::{GrowingCommand, command_tree, growing_command};
use clap::Command;
use clap::error::ErrorKind;
use ov_ids::OutOfMemory;
use std::alloc::{AllocError, Global};

/// The program with its version, and the logic that it is proved with. Each kit of that logic may build it.
const VERSION: &str = "overlay 1.0, proved with Rattle's logic dac8208d650f15bf\n";

/// The word that asks for help in place of a command.
const HELP: &str = "help";

/// The option that asks for help.
const HELP_OPTION: &str = "--help";

/// Behind this word no word is an option.
const END_OF_OPTIONS: &str = "--";

/// A command of which help tells.
#[derive(Clone, Copy)]
pub enum CommandTopic {
    Run,
    Analyse,
    Import,
    Picture,
    Graph,
    Grow,
    Sweep,
}

/// All of these.
pub(crate) const TOPICS: [CommandTopic; 7] = [
    CommandTopic::Run,
    CommandTopic::Analyse,
    CommandTopic::Import,
    CommandTopic::Picture,
    CommandTopic::Graph,
    CommandTopic::Grow,
    CommandTopic::Sweep,
];

impl CommandTopic {
    /// The command's name.
    pub(crate) fn name(self) -> &'static str
        ensures { result.now ≡ name_of self }
    {
        match self {
            CommandTopic::Run => "run",
            CommandTopic::Analyse => "analyse",
            CommandTopic::Import => "import",
            CommandTopic::Picture => "picture",
            CommandTopic::Graph => "graph",
            CommandTopic::Grow => "grow",
            CommandTopic::Sweep => "sweep",
        }
    }

    /// The command of this name.
    pub(crate) fn named(word: &str) -> Option<CommandTopic>
        ensures { result ≡ command_named word.now }
    {
        TOPICS
            .iter()
            .copied()
            .find(|command| command.name() == word)
    }
}

/// What `overlay` tells of itself.
#[derive(Clone, Copy)]
pub enum Telling {
    /// Help of a command, or of the whole program.
    Help(Option<CommandTopic>),
    /// The version.
    Version,
}

/// What these arguments, which follow the program's name, ask to be told. None: they ask for nothing of the kind.
pub fn telling_asked(arguments: &[String]) -> Option<Telling>
    ensures { result ≡ telling_asked (map (λ argument. string_bytes argument) arguments.now) }
{
    let (first, more) = arguments.split_first()?;
    let word = first.as_str();
    if is_version_option(word) {
        return Some(Telling::Version);
    }
    if is_help_option(word) {
        return Some(Telling::Help(None));
    }
    if word == HELP {
        return help_behind(more);
    }
    if ask_for_help(more) {
        return help_of(word);
    }
    None
}

/// Whether a word asks for the version.
fn is_version_option(word: &str) -> bool
    ensures { result ≡ is_version_option word.now }
{
    if word == "--version" {
        return true;
    }
    word == "-V"
}

/// Whether a word asks for help.
fn is_help_option(word: &str) -> bool
    ensures { result ≡ is_help_option word.now }
{
    if word == HELP_OPTION {
        return true;
    }
    word == "-h"
}

/// What the words behind the word `help` ask for.
fn help_behind(words: &[String]) -> Option<Telling>
    ensures { result ≡ help_behind (map (λ word. string_bytes word) words.now) }
{
    let Some((name, more)) = words.split_first() else {
        return Some(Telling::Help(None));
    };
    match more.split_first() {
        None => help_of(name.as_str()),
        Some(_) => None,
    }
}

/// Help of the command of this name.
fn help_of(name: &str) -> Option<Telling>
    ensures { result ≡ help_of (command_named name.now) }
{
    match CommandTopic::named(name) {
        Some(command) => Some(Telling::Help(Some(command))),
        None => None,
    }
}

/// Whether one of these words asks for help, before `--`.
fn ask_for_help(words: &[String]) -> bool
    ensures { result ≡ ask_for_help (map (λ word. string_bytes word) words.now) }
{
    let mut left = words;
    while let Some((word, rest)) = left.split_first() {
        if word.as_str() == END_OF_OPTIONS {
            return false;
        }
        if is_help_option(word.as_str()) {
            return true;
        }
        left = rest;
    }
    false
}

/// The text of what `overlay` tells of itself; it ends with a line feed. `clap` makes that of help. OutOfMemory (99) if
/// an allocation is refused.
pub fn telling_text(alloc: Global, telling: Telling) -> Result<String, OutOfMemory> {
    match telling {
        Telling::Version => Ok(String::from_str(alloc, VERSION)?),
        Telling::Help(None) => help_said(alloc, command_tree(alloc), &[HELP_OPTION]),
        Telling::Help(Some(topic)) => match GrowingCommand::of(topic.name()) {
            Some(name) => help_said(alloc, growing_command(alloc, name), &[HELP_OPTION]),
            None => help_said(alloc, command(alloc), &[topic.name(), HELP_OPTION]),
        },
    }
}

/// What `clap` says of these words, which ask for help.
fn help_said<'a>(
    alloc: Global,
    commands: Result<Command<'a>, AllocError>,
    words: &'a [&'a str],
) -> Result<String, OutOfMemory> {
    match commands?.try_get_matches_from(words) {
        Err(error) => match error.kind() {
            ErrorKind::OutOfMemory => Err(OutOfMemory),
            _ => Ok(format!(in alloc; "{error}")?),
        },
        Ok(_found) => Ok(String::new(alloc)),
    }
}
