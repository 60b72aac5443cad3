ghost use Rattle.std.specs.Prelude.{◌≡◌, ◌≢◌, ◌<◌, length, map, codes, string_bytes, Some, None, Err};
ghost use Rattle.std.specs.Prelude.{option_map, IfOk, IfSome, IsErrOf};
ghost use Rattle.std.specs.IoError.{error_kind};
ghost use Rattle.clap.specs.Words.{found_of, first_value};
ghost use Rattle.ov_command_tree.specs.Flags.{is_flagged};
ghost use Rattle.ov_arguments.specs.Arguments.{AreReadable, AreReadableFor, AreTaken, AreTakenAsCommand, HasGroupOfIds};
ghost use Rattle.ov_arguments.specs.Arguments.{IsAsked, IsAskedByCommand, IsOfGiven, entry_of, file_asked, group_asked};
ghost use Rattle.ov_arguments.specs.Arguments.{group_list_asked};
ghost use Rattle.ov_arguments.specs.Arguments.{is_read_later, largest_k, least_asked, least_of, workers_asked};
ghost use Rattle.ov_arguments.specs.Arguments.{fault_of_parse, fault_of_text, format_of, number_of};
ghost use Rattle.ov_arguments.specs.declared.arguments.ArgumentsFault.TheVariants.{BadArguments};
ghost use Rattle.ov_arguments.specs.declared.arguments.ArgumentsFault.TheVariants.{OutOfMemory as out_of_memory};

use crate::import_and_picture_requests::{ImportRequest, PictureRequest, import_of, picture_of};
use clap::error::ErrorKind;
use clap::{ArgMatches, Error as ClapError};
use ov_command_tree::{Telling, command, has_flag, telling_asked, text_of};
use ov_ids::{NodeId, OutOfMemory, Workers};
use ov_lines::{read_ids, read_number, read_workers};
use std::alloc::{AllocError, Global};
use std::error::Error;
use std::fmt::{self, Display, Formatter, Write};
use std::io;
use std::io::ErrorKind as IoErrorKind;

/// The largest number k: it is smaller than the number of nodes, of which there are 1,024 at most.
const LARGEST_K: u64 = 1023;

/// The same of a large graph, which has 32,768 at most.
const LARGEST_K_OF_LARGE: u64 = 32767;

/// What the arguments of a command line ask for. Without a file, standard input is read.
#[derive(Drop)]
pub enum Request {
    /// To run a scenario file.
    Run {
        file: Option<String>,
        run: RunRequest,
    },
    /// To analyse a graph file.
    Analyse {
        file: Option<String>,
        analysis: AnalysisRequest,
    },
    /// To make a graph file of a dump.
    Import {
        file: Option<String>,
        dump: ImportRequest,
    },
    /// To draw the graph of a certificate file.
    Picture {
        file: Option<String>,
        picture: PictureRequest,
    },
    /// To write the graph of a certificate file as a graph file.
    Graph {
        file: Option<String>,
        /// Whether certificate files of version 3 are read too.
        large: bool,
    },
    /// To print help, or the version.
    Tell(Telling),
}

/// What is asked of a run, besides its file.
#[derive(Clone, Copy)]
pub struct RunRequest {
    /// Whether to print why lines are refused.
    pub explain: bool,
    /// Whether to end at the first refused line.
    pub strict: bool,
    /// Whether to print how far the run has come.
    pub progress: bool,
}

/// What is asked of an analysis, besides its file.
#[derive(Drop)]
pub struct AnalysisRequest {
    /// The members of the group. Without it, all nodes are the group, unless a list of members is given.
    pub group: Option<Vec<NodeId>>,
    /// The list of the members of the group, if it is read later: beside `names` alone, or `@` and the file that has
    /// it.
    pub group_list: Option<String>,
    /// The list of the nodes that are gone, or `@` and the file that has it.
    pub gone: Option<String>,
    /// The least number k that does not raise the alarm.
    pub at_least: Option<u32>,
    /// How many workers share out the analysis.
    pub workers: Workers,
    /// Whether the certificate file is asked for too.
    pub certificate: bool,
    /// Whether to print the answer in the names that the graph file gives too.
    pub names: bool,
    /// Whether to say the answer in words too.
    pub explain: bool,
    /// Whether to print how far the analysis has come.
    pub progress: bool,
    /// Whether graphs of up to 32,768 nodes are taken, and not of 1,024.
    pub large: bool,
}

/// Why the arguments of a command line can't be read. It is shown as the line that `overlay` prints of it on standard
/// error. The numbers are chosen here.
#[derive(Clone, Copy, Debug, PartialEq, Eq)]
pub enum ArgumentsFault {
    /// They are no arguments of the command (73).
    BadArguments,
    /// An allocation was refused (99).
    OutOfMemory,
}

impl ArgumentsFault {
    /// The fault's number.
    pub fn number(&self) -> u32
        ensures { result ≡ number_of self.now }
    {
        match self {
            ArgumentsFault::BadArguments => 73,
            ArgumentsFault::OutOfMemory => 99,
        }
    }
}

impl Display for ArgumentsFault {
    ghost use Rattle.std.specs.Prelude.{Some};
    ghost use Rattle.ov_io.specs.Refusal.{refusal_text};

    ghost output = { λ fault. Some (refusal_text (number_of fault)) };

    fn fmt<W: Write>(&self, f: &mut Formatter<W>) -> fmt::Result {
        let number = self.number();
        write!(f, "refused {number}")
    }
}

impl Error for ArgumentsFault {}

/// Arguments that can't be had: those that are no text are no arguments of the command.
impl From<io::Error> for ArgumentsFault {
    ghost from_gives = { λ error e. e ≡ fault_of_text (error_kind error) };

    fn from(error: io::Error) -> ArgumentsFault {
        match error.kind() {
            IoErrorKind::InvalidData => ArgumentsFault::BadArguments,
            _ => ArgumentsFault::OutOfMemory,
        }
    }
}

impl From<AllocError> for ArgumentsFault {
    ghost from_gives = { λ _ e. e ≡ out_of_memory };

    fn from(_error: AllocError) -> ArgumentsFault {
        ArgumentsFault::OutOfMemory
    }
}

impl From<OutOfMemory> for ArgumentsFault {
    ghost from_gives = { λ _ e. e ≡ out_of_memory };

    fn from(_fault: OutOfMemory) -> ArgumentsFault {
        ArgumentsFault::OutOfMemory
    }
}

/// Arguments in which `clap` finds nothing: those with a fault are no arguments of the command.
impl From<ClapError> for ArgumentsFault {
    ghost use Rattle.clap.specs.Words.{kind_of};

    ghost from_gives = { λ error e. e ≡ fault_of_parse (kind_of error) };

    fn from(error: ClapError) -> ArgumentsFault {
        match error.kind() {
            ErrorKind::OutOfMemory => ArgumentsFault::OutOfMemory,
            _ => ArgumentsFault::BadArguments,
        }
    }
}

/// Reads the arguments that follow the program's name:
///
/// - `run [FILE] [--explain] [--strict] [--progress]`, which no argument asks for too;
/// - `analyse [FILE] [--group IDS] [--without LIST] [--at-least K] [--workers N] [--certificate] [--names] [--explain]
/// [--progress] [--large]`. IDS are one or more ids of decimal digits and 32 bits, with commas between them; beside
/// `--names`, or after `@`, they may be any text, which is not read here. Nor is LIST. K is decimal digits, and from 0
/// to 1,023, or with `--large` to 32,767. N is decimal digits, and from 1 to 64; without it there is one worker;
/// - `import [FILE] [--views] [--edges] [--dot] [--either] [--entries] [--large]`, with one of the first three flags at
/// most;
/// - `picture [FILE] [--names GRAPHFILE] [--pair I,J] [--fan J] [--dot]`, with ids, and with `--pair` or `--fan` at
/// most;
/// - `graph [FILE] [--large]`.
///
/// A file that is absent or `-` is standard input. No option may be given twice. After `--` an argument that begins
/// with `-` is a file.
///
/// Or they ask for the version, by `--version` or `-V` in front; for help of the program, by `--help` or `-h` in front,
/// or by `help` alone; or for help of a command, also of `grow` and `sweep`, by `help` and its name, or by `--help` or
/// `-h` behind its name and before `--`, whatever else stands there.
///
/// All other arguments are refused with BadArguments (73). OutOfMemory (99) is returned if an allocation was refused.
/// The arguments and the numbers are chosen here.
pub fn read_arguments(alloc: Global, arguments: &[String]) -> Result<Request, ArgumentsFault>
    ensures group { IfOk result HasGroupOfIds }
    ensures given { IfOk result (IsOfGiven (map (λ argument. string_bytes argument) arguments.now)) }
    ensures taken { AreTaken (map (λ argument. string_bytes argument) arguments.now)
        → (result ≢ Err BadArguments) }
    ensures only { IfOk result (λ _. AreTaken (map (λ argument. string_bytes argument) arguments.now)) }
{
    match telling_asked(arguments) {
        Some(telling) => Ok(Request::Tell(telling)),
        None => read_command(alloc, arguments),
    }
}

/// The same of arguments that ask neither for help nor for the version.
fn read_command(alloc: Global, arguments: &[String]) -> Result<Request, ArgumentsFault>
    ensures group { IfOk result HasGroupOfIds }
    ensures given { IfOk result (IsAskedByCommand (map (λ argument. string_bytes argument) arguments.now)) }
    ensures taken { AreTakenAsCommand (map (λ argument. string_bytes argument) arguments.now)
        → (result ≢ Err BadArguments) }
    ensures only { IfOk result (λ _. AreTakenAsCommand (map (λ argument. string_bytes argument) arguments.now)) }
{
    let matches = command(alloc)?.try_get_matches_from(arguments)?;
    match matches.subcommand() {
        None => Ok(Request::Run {
            file: None,
            run: RunRequest {
                explain: false,
                strict: false,
                progress: false,
            },
        }),
        Some((command, found)) => request_of(alloc, command, found),
    }
}

/// What a command asks for, by what was found after it.
fn request_of(alloc: Global, command: &str, found: &ArgMatches) -> Result<Request, ArgumentsFault>
    ensures group { IfOk result HasGroupOfIds }
    ensures asked { IfOk result (IsAsked (Some command.now) (first_value (found_of found.now))) }
    ensures readable { AreReadableFor (Some command.now) (first_value (found_of found.now))
        → (result ≢ Err BadArguments) }
{
    if command == "analyse" {
        return analysis_of(alloc, found);
    }
    if command == "import" {
        return dump_of(alloc, found);
    }
    if command == "picture" {
        return drawing_of(alloc, found);
    }
    if command == "graph" {
        let file = file_of(alloc, found)?;
        let large = has_flag(found, "large");
        return Ok(Request::Graph { file, large });
    }
    let file = file_of(alloc, found)?;
    let run = run_of(found);
    Ok(Request::Run { file, run })
}

/// The run that is asked for, by what was found after the command.
fn run_of(found: &ArgMatches) -> RunRequest
    ensures explain { is_flagged (first_value (found_of found.now) (codes "explain")) ≡ result.explain }
    ensures strict { is_flagged (first_value (found_of found.now) (codes "strict")) ≡ result.strict }
    ensures progress { is_flagged (first_value (found_of found.now) (codes "progress")) ≡ result.progress }
{
    RunRequest {
        explain: has_flag(found, "explain"),
        strict: has_flag(found, "strict"),
        progress: has_flag(found, "progress"),
    }
}

/// The import that is asked for and its file, by what was found after the command.
fn dump_of(alloc: Global, found: &ArgMatches) -> Result<Request, ArgumentsFault>
    ensures group { IfOk result HasGroupOfIds }
    ensures asked { IfOk result (IsAsked (Some (codes "import")) (first_value (found_of found.now))) }
    ensures readable { format_of (first_value (found_of found.now)) ≢ None → (result ≢ Err BadArguments) }
{
    let dump = import_of(found)?;
    let file = file_of(alloc, found)?;
    Ok(Request::Import { file, dump })
}

/// The picture that is asked for and its file, by what was found after the command.
fn drawing_of(alloc: Global, found: &ArgMatches) -> Result<Request, ArgumentsFault>
    ensures group { IfOk result HasGroupOfIds }
    ensures asked { IfOk result (IsAsked (Some (codes "picture")) (first_value (found_of found.now))) }
    ensures readable { entry_of (first_value (found_of found.now)) ≢ None → (result ≢ Err BadArguments) }
{
    let file = file_of(alloc, found)?;
    let picture = picture_of(alloc, found)?;
    Ok(Request::Picture { file, picture })
}

/// The analysis that is asked for, by what was found after the command.
fn analysis_of(alloc: Global, found: &ArgMatches) -> Result<Request, ArgumentsFault>
    ensures group { IfOk result HasGroupOfIds }
    ensures asked { IfOk result (IsAsked (Some (codes "analyse")) (first_value (found_of found.now))) }
    ensures readable { AreReadable (first_value (found_of found.now)) → (result ≢ Err BadArguments) }
{
    let names = has_flag(found, "names");
    let large = has_flag(found, "large");
    let at_least = least_number_of(found, large)?;
    let workers = workers_of(found)?;
    let group = group_of(alloc, found, names)?;
    Ok(Request::Analyse {
        file: file_of(alloc, found)?,
        analysis: AnalysisRequest {
            group,
            group_list: group_list_of(alloc, found, names)?,
            gone: text_of(alloc, found, "without")?,
            at_least,
            workers,
            certificate: has_flag(found, "certificate"),
            names,
            explain: has_flag(found, "explain"),
            progress: has_flag(found, "progress"),
            large,
        },
    })
}

/// The file that is named, unless it is absent or `-`.
fn file_of(alloc: Global, matches: &ArgMatches) -> Result<Option<String>, AllocError>
    ensures { IfOk result (λ file. file_asked (first_value (found_of matches.now) (codes "file"))
        ≡ option_map string_bytes file) }
{
    let Some(file) = matches.get_str("file") else {
        return Ok(None);
    };
    if file == "-" {
        return Ok(None);
    }
    Ok(Some(String::from_str(alloc, file)?))
}

/// The ids of the group that is given, or nothing. A list that is read later is asked for by its text.
#[tactic(auto, using(ov_lines::proofs::Lines::Spelling::some_id))]
fn group_of(
    alloc: Global,
    matches: &ArgMatches,
    names: bool,
) -> Result<Option<Vec<NodeId>>, ArgumentsFault>
    ensures given { IfOk result (λ group. group_asked names (first_value (found_of matches.now) (codes "group"))
        ≡ Some (option_map (λ ids. ids.items) group)) }
    ensures some { IfOk result (λ group. IfSome group (λ ids. 0 < length ids.items)) }
    ensures bad { IsErrOf result BadArguments
        → (group_asked names (first_value (found_of matches.now) (codes "group")) ≡ None) }
{
    let Some(text) = matches.get_str("group") else {
        return Ok(None);
    };
    if is_read_later(names, text) {
        return Ok(None);
    }
    match read_ids(alloc, text.as_bytes())? {
        Some(ids) => Ok(Some(ids)),
        None => Err(ArgumentsFault::BadArguments),
    }
}

/// Whether the text of a group is a list that is read later: any text beside names, and one of a file.
pub(crate) fn is_read_later(names: bool, text: &str) -> bool
    ensures { result ≡ is_read_later names text.now }
{
    if names {
        return true;
    }
    text.as_bytes().starts_with(b"@")
}

/// The list of the group that is given, if it is read later, or nothing.
fn group_list_of(
    alloc: Global,
    matches: &ArgMatches,
    names: bool,
) -> Result<Option<String>, AllocError>
    ensures { IfOk result (λ text. group_list_asked names (first_value (found_of matches.now) (codes "group"))
        ≡ option_map string_bytes text) }
{
    let Some(text) = matches.get_str("group") else {
        return Ok(None);
    };
    if !is_read_later(names, text) {
        return Ok(None);
    }
    Ok(Some(String::from_str(alloc, text)?))
}

/// The least number k that is asked for, or nothing.
fn least_number_of(matches: &ArgMatches, large: bool) -> Result<Option<u32>, ArgumentsFault>
    ensures given { IfOk result
        (λ k. least_asked large (first_value (found_of matches.now) (codes "at-least")) ≡ Some k) }
    ensures bad { IsErrOf result BadArguments
        → (least_asked large (first_value (found_of matches.now) (codes "at-least")) ≡ None) }
{
    let Some(text) = matches.get_str("at-least") else {
        return Ok(None);
    };
    let Some(least) = read_least(text, large) else {
        return Err(ArgumentsFault::BadArguments);
    };
    Ok(Some(least))
}

/// The least number k that a text spells: from 0 to 1,023, or of a large graph to 32,767.
pub(crate) fn read_least(text: &str, large: bool) -> Option<u32>
    ensures { result ≡ least_of large text.now }
{
    let number = read_number(text.as_bytes())?;
    if number <= largest_k(large) {
        return u32::try_from(number).ok();
    }
    None
}

/// The largest number k of a graph, or of a large one.
fn largest_k(large: bool) -> u64
    ensures { result ≡ largest_k large }
{
    if large { LARGEST_K_OF_LARGE } else { LARGEST_K }
}

/// The number of workers that is given, or one.
fn workers_of(matches: &ArgMatches) -> Result<Workers, ArgumentsFault>
    ensures given { IfOk result
        (λ n. workers_asked (first_value (found_of matches.now) (codes "workers")) ≡ Some n) }
    ensures bad { IsErrOf result BadArguments
        → (workers_asked (first_value (found_of matches.now) (codes "workers")) ≡ None) }
{
    let Some(text) = matches.get_str("workers") else {
        return Ok(Workers::ONE);
    };
    let Some(workers) = read_workers(text.as_bytes()) else {
        return Err(ArgumentsFault::BadArguments);
    };
    Ok(workers)
}
