//! What a person may mean who wrote arguments that are refused, or a file that can't be opened.
use crate::grow_and_sweep_clap_commands::GrowingCommand;
use crate::help_and_version::{CommandTopic, TOPICS};
use ov_io::shown_name;
use std::alloc::{AllocError, Global};
use std::fmt::Write;

/// What `clap` says before and behind a word that it does not expect, and one that is no command.
pub(crate) const UNEXPECTED: &str = "error: unexpected argument '";

pub(crate) const FOUND: &str = "' found\n";

const NO_COMMAND: &str = "error: unrecognized subcommand '";

const END: &str = "'\n";

/// What `clap` says of a word that begins as an option, as if a file were meant.
const VALUE_TIP: &str = "\n\n  tip: to pass '";

/// What stands between two parts of what it says.
pub(crate) const GAP: &str = "\n\n";

/// How any other tip of `clap` begins: it is better than those from here.
const TIP: &str = "\n\n  tip: ";

/// How it tells of an option that looks like the word.
const SIMILAR: &str = "\n\n  tip: a similar argument exists: ";

/// What stands below a reason.
pub const HELP_BELOW: &str = "\n\nFor more information, try '--help'.\n";

/// What is said where two commands stand.
const TWO_COMMANDS: &str =
    "tip: each command stands behind `overlay`, and a pipe joins two, as `overlay import FILE | overlay analyse`\n";

/// The word that asks for help.
const HELP: &str = "help";

/// The command with a flag that is taken for an option with the name of a file.
const ANALYSE: &str = "analyse";

const CERTIFICATE: &str = "--certificate";

/// A command, or `*` for each, or nothing where a command must stand; a word that is refused there; what may be meant.
struct Meant(&'static str, &'static str, &'static str);

const EACH: &str = "*";

const CHECK: &str = "`overlay-check FILE` checks a certificate";

const DRAW: &str = "`overlay picture FILE` draws a certificate";

const SEED: &str = "a line of the scenario says it, as `seed 4`";

const PARAMS: &str = "a line of the scenario says it, as `params 5 30 6 3 3 4 4`";

const REFILL: &str = "a line of the scenario says it, as `refill alone`";

const SHARED: &str = "a line of the scenario says it, as `analyse 6 workers 4`";

const PRINTED: &str = "a line of the scenario asks for it, as `certificate 6`";

const THREADS: &str = "`--workers N` shares out the analysis";

const INTO: &str = "`> FILE` behind the command writes what it prints into a file";

const SMALL: &str =
    "pictures are of up to 1024 nodes; `tagzirk report` draws the cut of a larger graph and its two sides";

const TAGZIRK: &str = "`tagzirk` has it, a command of its own: `tagzirk --help` says more";

/// The rows with `TAGZIRK` are the commands and options that `tagzirk` has and `overlay` has not.
static MEANT: [Meant; 49] = [
    Meant("", "version", "`overlay --version` prints the version"),
    Meant("", "check", CHECK),
    Meant("", "verify", CHECK),
    Meant("", "draw", DRAW),
    Meant("", "plot", DRAW),
    Meant("", "simulate", "`overlay run FILE` runs a scenario"),
    Meant("", "status", TAGZIRK),
    Meant("", "diff", TAGZIRK),
    Meant("", "mend", TAGZIRK),
    Meant("", "each", TAGZIRK),
    Meant("", "history", TAGZIRK),
    Meant("", "metrics", TAGZIRK),
    Meant("", "report", TAGZIRK),
    Meant("", "collect", TAGZIRK),
    Meant("run", "--seed", SEED),
    Meant("run", "--params", PARAMS),
    Meant("run", "--refill", REFILL),
    Meant("run", "--workers", SHARED),
    Meant("run", "--certificate", PRINTED),
    Meant("analyse", "--threads", THREADS),
    Meant("analyse", "-j", THREADS),
    Meant("analyse", "--json", "`--certificate` prints JSON"),
    Meant("picture", "--large", SMALL),
    Meant(EACH, "-o", INTO),
    Meant(EACH, "--output", INTO),
    Meant(EACH, "--form", TAGZIRK),
    Meant(EACH, "--by", TAGZIRK),
    Meant(EACH, "--columns", TAGZIRK),
    Meant(EACH, "--peers", TAGZIRK),
    Meant(EACH, "--links", TAGZIRK),
    Meant(EACH, "--up", TAGZIRK),
    Meant(EACH, "--skip", TAGZIRK),
    Meant(EACH, "--all", TAGZIRK),
    Meant(EACH, "--no-entries", TAGZIRK),
    Meant(EACH, "--only", TAGZIRK),
    Meant(EACH, "--site", TAGZIRK),
    Meant(EACH, "--json", TAGZIRK),
    Meant(EACH, "--html", TAGZIRK),
    Meant(EACH, "--force", TAGZIRK),
    Meant(EACH, "--to", TAGZIRK),
    Meant(EACH, "--most-links", TAGZIRK),
    Meant(EACH, "--racks", TAGZIRK),
    Meant(EACH, "--pairs", TAGZIRK),
    Meant(EACH, "--rows", TAGZIRK),
    Meant(EACH, "--csv", TAGZIRK),
    Meant(EACH, "--textfile", TAGZIRK),
    Meant(EACH, "--label", TAGZIRK),
    Meant(EACH, "--ssh", TAGZIRK),
    Meant(EACH, "--pidfile", TAGZIRK),
];

/// What `clap` says of these words behind a command, or of all words if there is none: without its tip to write `--`
/// before the name of an option, and with a line `tip: ..` below it, if something is known that may be meant.
pub fn with_tip(
    alloc: Global,
    said: &str,
    command: &str,
    words: &[String],
) -> Result<String, AllocError> {
    let mut text = without_value_tip(alloc, said)?;
    let has_tip = text.as_str().contains(TIP);
    if has_tip {
        text = owners_or_tip(alloc, said, text)?;
    }
    let word = refused_word(said);
    if push_known(&mut text, command, word)? || has_tip {
        return Ok(text);
    }
    if said.starts_with(UNEXPECTED) {
        push_unexpected(alloc, &mut text, command, words, word)?;
    }
    Ok(text)
}

/// The word that is not expected, or is no command. It is empty if something else is wrong.
fn refused_word(said: &str) -> &str {
    match quoted(said, UNEXPECTED, FOUND) {
        Some(word) => word,
        None => quoted(said, NO_COMMAND, END).unwrap_or(""),
    }
}

/// What `clap` says with a tip of its own; but of an option of other commands, which these are, unless the tip is the
/// same word with more behind it.
fn owners_or_tip(alloc: Global, said: &str, text: String) -> Result<String, AllocError> {
    let (Some(word), Some((_, tip))) = (quoted(said, UNEXPECTED, FOUND), said.split_once(SIMILAR))
    else {
        return Ok(text);
    };
    if tip.contains(word) {
        return Ok(text);
    }
    let mut owned = format!(in alloc; "error: unexpected argument '{word}' found{HELP_BELOW}")?;
    if push_owners(&mut owned, word)? {
        return Ok(owned);
    }
    Ok(text)
}

/// What `clap` says, without its tip to write `--` before the name of an option.
fn without_value_tip(alloc: Global, said: &str) -> Result<String, AllocError> {
    let Some((before, tip)) = said.split_once(VALUE_TIP) else {
        return String::from_str(alloc, said);
    };
    match tip.split_once(GAP) {
        Some((_, behind)) => format!(in alloc; "{before}{GAP}{behind}"),
        None => String::from_str(alloc, before),
    }
}

/// The word that stands in what is said right behind a text with which that begins, and before another text.
pub(crate) fn quoted<'a>(said: &'a str, before: &str, behind: &str) -> Option<&'a str> {
    let (word, _) = said.strip_prefix(before)?.split_once(behind)?;
    Some(word)
}

/// Appends what is known to be meant by a word behind a command. False: nothing is known.
fn push_known(text: &mut String, command: &str, word: &str) -> Result<bool, AllocError> {
    for Meant(name, other, tip) in &MEANT {
        if *other == word && (*name == command || *name == EACH) {
            write!(text, "tip: {tip}\n")?;
            return Ok(true);
        }
    }
    Ok(false)
}

/// Whether this word stands right behind `--certificate`, as the name of a file that the flag does not take.
fn is_certificate_file(words: &[String], word: &str) -> bool {
    let mut before = "";
    for next in words {
        if next.as_str() == word && before == CERTIFICATE {
            return true;
        }
        before = next.as_str();
    }
    false
}

/// Appends how a certificate is written into a file of this name, by the words that stand around the name.
fn push_certificate(text: &mut String, words: &[String], name: &str) -> Result<(), AllocError> {
    text.push_str("tip: `--certificate` takes no file: `overlay analyse")?;
    let mut before = "";
    for word in words {
        if word.as_str() != name || before != CERTIFICATE {
            write!(text, " {word}")?;
        }
        before = word.as_str();
    }
    write!(text, " | tail -1 > {name}`\n")
}

/// Appends what may be meant by a word that is not expected behind a command.
fn push_unexpected(
    alloc: Global,
    text: &mut String,
    command: &str,
    words: &[String],
    word: &str,
) -> Result<(), AllocError> {
    if word.starts_with('-') {
        return push_option(text, command, word);
    }
    if command.is_empty() {
        return Ok(());
    }
    if word == HELP {
        return write!(text, "tip: `overlay help {command}` tells its options\n");
    }
    if command == ANALYSE && is_certificate_file(words, word) {
        return push_certificate(text, words, word);
    }
    let list = joined_list(alloc, words)?;
    if !list.is_empty() {
        return push_list(text, &list);
    }
    push_file(text, command, words)
}

/// Appends which commands have an option; or of a number, that it has no sign; or what commands and options look like.
fn push_option(text: &mut String, command: &str, word: &str) -> Result<(), AllocError> {
    if matches!(word.as_bytes().get(1), Some(byte) if byte.is_ascii_digit()) {
        return text.push_str("tip: a number has no sign\n");
    }
    if push_owners(text, word)? {
        return Ok(());
    }
    if command.is_empty() {
        return text.push_str(
            "tip: a command stands first, without hyphens, and `overlay help` lists all\n",
        );
    }
    write!(
        text,
        "tip: options are words behind two hyphens, which `overlay help {command}` lists; \
         a file of such a name stands behind `--`\n"
    )
}

/// Appends to which commands an option of this name belongs. False: there is no such option.
fn push_owners(text: &mut String, word: &str) -> Result<bool, AllocError> {
    let Some(name) = word.strip_prefix("--") else {
        return Ok(false);
    };
    let mut is_there = false;
    for command in TOPICS {
        if command.has_option(name) {
            let owner = command.name();
            if is_there {
                write!(text, ", `overlay {owner}`")?;
            } else {
                write!(text, "tip: `{word}` belongs to `overlay {owner}`")?;
            }
            is_there = true;
        }
    }
    if is_there {
        text.push_str("\n")?;
    }
    Ok(is_there)
}

/// Appends that two commands need a pipe, if one of these words behind a command is one; else how many files it reads.
fn push_file(text: &mut String, command: &str, words: &[String]) -> Result<(), AllocError> {
    if words
        .iter()
        .any(|word| CommandTopic::named(word.as_str()).is_some())
    {
        return text.push_str(TWO_COMMANDS);
    }
    if GrowingCommand::of(command).is_some() {
        return write!(
            text,
            "tip: `overlay {command}` takes options alone, as `--nodes 60`\n"
        );
    }
    write!(text, "tip: `overlay {command}` reads one file\n")
}

/// The line that says what may be meant by these arguments of `overlay`, if a file can't be opened: help of a command,
/// or a list without spaces. It ends with a line feed; else it is empty. AllocError if an allocation is refused.
pub fn unopened_tip(alloc: Global, arguments: &[String]) -> Result<String, AllocError> {
    let Some((command, words)) = arguments.split_first() else {
        return Ok(String::new(alloc));
    };
    for word in words {
        if word.as_str() == HELP {
            let command = command.as_str();
            return format!(in alloc; "tip: `overlay help {command}` tells its options\n");
        }
    }
    let list = joined_list(alloc, words)?;
    let mut text = String::new(alloc);
    if !list.is_empty() {
        push_list(&mut text, &shown_name(alloc, &list)?)?;
    }
    Ok(text)
}

/// The arguments as a person can read them, each on one line: control characters are shown as their codes. None of
/// them is part of the name of an option, of ids or of a number, so that nothing else is wrong with what is shown.
pub fn shown(alloc: Global, arguments: &[String]) -> Result<Vec<String>, AllocError> {
    let mut shown = Vec::new(alloc);
    for argument in arguments {
        shown.push(shown_name(alloc, argument.as_str())?)?;
    }
    Ok(shown)
}

/// Appends that a list has no spaces.
pub fn push_list(text: &mut String, list: &str) -> Result<(), AllocError> {
    write!(text, "tip: a list has no spaces: `{list}`\n")
}

/// The first list among these words that has spaces, without them. It is empty if there is none.
pub fn joined_list(alloc: Global, words: &[String]) -> Result<String, AllocError> {
    let mut list = String::new(alloc);
    let mut is_joined = false;
    for word in words {
        let word = word.as_str();
        let goes_on = !list.is_empty() && (list.ends_with(',') || word.starts_with(','));
        if is_joined && !goes_on {
            return Ok(list);
        }
        if !goes_on {
            list.clear();
        }
        list.push_str(word)?;
        is_joined = goes_on;
    }
    if !is_joined {
        list.clear();
    }
    Ok(list)
}
