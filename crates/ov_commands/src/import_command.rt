ghost use Rattle.std.specs.Prelude.{◌≡◌, ◌<◌, Err, IfOk, IfErr};
ghost use Rattle.ov_io.specs.Device.{most_faults};
ghost use Rattle.ov_commands.specs.Dumps.{IsForm, IsUnreadDump, SaysDump, WasDumpPrinted, WasReadAndPrinted};
ghost use Rattle.ov_commands.specs.Dumps.{command_fault, form_of_kind, number_of_unread};
ghost use Rattle.ov_commands.specs.declared.conversion_fault.ConversionFault.TheVariants.{Refused};

use crate::conversion_fault::ConversionFault;
use crate::graph_file_out_of_certificate_file::{tell_no_json, told};
use crate::sizes_asked::limit_of;
use ov_arguments::{DumpFormat, ImportRequest};
use ov_dot::{DotFault, read_dot};
use ov_dump::{
    Choice, Dump, DumpFault, DumpReadFault, ImportFault, import_dump, import_notes, line_notes,
    read_edges, read_views,
};
use ov_graph::SizeLimit;
use ov_io::Sink;
use ov_lines::{FileKind, looks_like};
use std::alloc::Global;
use std::io::Write;

/// Why bytes are no dump of a form.
#[derive(Drop)]
pub(crate) enum UnreadDump {
    /// They are no views or no edges.
    Reading(DumpReadFault),
    /// They are no DOT.
    Dot(DotFault),
}

/// The number of the fault that a file looks like another file than a dump. (Chosen here.)
const NO_DUMP: u32 = 88;

/// What can be done about a dump with too many names.
const LARGE: &str = "tip: `overlay import --large` takes up to 32768 names";

const PART: &str =
    "analyse a part as a dump of its own, such as the hosts of one site, or a group of hosts with their \
    neighbourhood; its k is that of the part";

/// Writes the graph that follows from a dump of these bytes as a graph file with its names, in the form that is asked
/// for, or that the bytes look like. Standard error says what an operator should know of the dump; or, if nothing is
/// written, why, and how the bytes were read, if no form was asked for.
///
/// `Refused` has the number of the fault: no form is asked for, and the bytes look like another file than a dump (88);
/// or they are no dump of their form (60, 70, 83); or no graph follows from it (31, 80, 82). `Write` (72): the writer
/// failed. `OutOfMemory` (99): an allocation was refused.
pub fn print_dump<W: Write>(
    rt: &HostRuntime,
    bytes: &[u8],
    request: ImportRequest,
    sink: &mut Sink<W>,
) -> Result<(), ConversionFault>
    requires { sink.old.faults < most_faults }
    ensures printed { WasDumpPrinted request bytes.now W.contents sink.old.writer sink.new.writer result }
{
    match form_of(request.format, bytes) {
        Some(format) => {
            let printed = read_and_print(rt, bytes, format, request, sink);
            with_guess(rt, request.format, format, printed)
        }
        None => Err(no_dump(rt, bytes)),
    }
}

/// The same for a dump of this form.
fn read_and_print<W: Write>(
    rt: &HostRuntime,
    bytes: &[u8],
    format: DumpFormat,
    request: ImportRequest,
    sink: &mut Sink<W>,
) -> Result<(), ConversionFault>
    requires { sink.old.faults < most_faults }
    ensures { WasReadAndPrinted format request bytes.now W.contents sink.old.writer sink.new.writer result }
{
    let dump = match read_dump(rt.alloc(), bytes, format) {
        Ok(dump) => dump,
        Err(fault) => return Err(unread(rt, bytes, &fault)),
    };
    let choice = Choice {
        either: request.either,
        entries_only: request.entries,
        limit: limit_of(request.large),
    };
    match import_dump(rt.alloc(), &dump, choice, sink) {
        Ok(()) => {
            tell_notes(rt, &dump, choice, format);
            Ok(())
        }
        Err(fault) => Err(not_imported(rt, &fault, format)),
    }
}

/// The form of a dump of these bytes: the one that is asked for, or the one that they look like. None if they look like
/// another file.
fn form_of(asked: Option<DumpFormat>, bytes: &[u8]) -> Option<DumpFormat>
    ensures { IsForm asked bytes.now result }
{
    match asked {
        Some(format) => Some(format),
        None => form_of_kind(looks_like(bytes)),
    }
}

/// The form of a dump that looks so.
fn form_of_kind(kind: FileKind) -> Option<DumpFormat>
    ensures { result ≡ form_of_kind kind }
{
    match kind {
        FileKind::Views => Some(DumpFormat::Views),
        FileKind::Dot => Some(DumpFormat::Dot),
        FileKind::Unknown => Some(DumpFormat::Edges),
        FileKind::Certificate | FileKind::Report | FileKind::Graph | FileKind::Scenario => None,
    }
}

/// Ends since bytes look like another file than a dump. Prints what they look like, and how they are read all the same.
fn no_dump(rt: &HostRuntime, bytes: &[u8]) -> ConversionFault
    ensures { result ≡ Refused 88 }
{
    let ended = ConversionFault::Refused { number: NO_DUMP };
    let kind = looks_like(bytes);
    let what = kind.words();
    let otherwise = match kind {
        FileKind::Certificate => "; --views reads it as views",
        FileKind::Report => "",
        _ => "; --edges reads it as lines of two names",
    };
    let _ = eprintln!(rt; "{ended}\nthe file looks like {what} and not like a dump{otherwise}");
    ended
}

/// The same answer. If it is a refusal, and no form was asked for, prints how the bytes were read, and if they are no
/// dump of that form, what reads more forms.
fn with_guess(
    rt: &HostRuntime,
    asked: Option<DumpFormat>,
    format: DumpFormat,
    printed: Result<(), ConversionFault>,
) -> Result<(), ConversionFault>
    ensures { result ≡ printed }
{
    if let Err(ConversionFault::Refused { number }) = &printed {
        if asked.is_none() {
            let words = guess_words(format);
            let more = more_forms(*number);
            let _ = eprintln!(rt; "the file was read as {words}{more}");
        }
    }
    printed
}

/// What reads more forms, if the number is that of bytes that are no dump.
fn more_forms(number: u32) -> &'static str {
    if matches!(number, 60 | 70 | 83) {
        return "; `tagzirk import` of the Python package reads more forms";
    }
    ""
}

/// How bytes were read that look so, why, and what reads them otherwise.
fn guess_words(format: DumpFormat) -> &'static str {
    match format {
        DumpFormat::Views => {
            "views, since it begins like JSON; --edges and --dot read it otherwise"
        }
        DumpFormat::Edges => {
            "edges, since it begins like no other form; --views and --dot read it otherwise"
        }
        DumpFormat::Dot => "DOT, since it begins like DOT; --views and --edges read it otherwise",
    }
}

/// The dump that these bytes say in this form.
fn read_dump(alloc: Global, bytes: &[u8], format: DumpFormat) -> Result<Dump, UnreadDump>
    ensures dump { IfOk result (SaysDump format bytes.now) }
    ensures fault { IfErr result (IsUnreadDump format bytes.now) }
{
    match format {
        DumpFormat::Views => match read_views(alloc, bytes) {
            Ok(dump) => Ok(dump),
            Err(fault) => Err(UnreadDump::Reading(fault)),
        },
        DumpFormat::Edges => match read_edges(alloc, bytes) {
            Ok(dump) => Ok(dump),
            Err(fault) => Err(UnreadDump::Reading(fault)),
        },
        DumpFormat::Dot => match read_dot(alloc, bytes) {
            Ok(dump) => Ok(dump),
            Err(fault) => Err(UnreadDump::Dot(fault)),
        },
    }
}

/// Ends since bytes are no dump. Prints why.
fn unread(rt: &HostRuntime, bytes: &[u8], fault: &UnreadDump) -> ConversionFault
    ensures { result ≡ number_of_unread fault.now }
{
    match fault {
        UnreadDump::Reading(DumpReadFault::OutOfMemory) | UnreadDump::Dot(DotFault::OutOfMemory) =>
            { told(rt, ConversionFault::OutOfMemory) }
        UnreadDump::Reading(reading) => {
            let number = reading.number();
            let ended = ConversionFault::Refused { number };
            let _ = eprintln!(rt; "{ended}");
            tell_unread(rt, bytes, reading);
            ended
        }
        UnreadDump::Dot(dot) => {
            let number = dot.number();
            let ended = ConversionFault::Refused { number };
            let _ = eprintln!(rt; "{ended}\n{dot}");
            ended
        }
    }
}

/// Prints why bytes are no views or no edges. If they are no JSON, prints where.
fn tell_unread(rt: &HostRuntime, bytes: &[u8], fault: &DumpReadFault) {
    if !matches!(fault, DumpReadFault::NotJson) || !tell_no_json(rt, bytes) {
        let _ = eprintln!(rt; "{fault}");
    }
}

/// Ends since nothing, or not all, was imported. Prints why.
fn not_imported(rt: &HostRuntime, fault: &ImportFault, format: DumpFormat) -> ConversionFault
    ensures { result ≡ command_fault fault.now }
{
    match fault {
        ImportFault::Refused(DumpFault::OutOfMemory) | ImportFault::OutOfMemory => {
            told(rt, ConversionFault::OutOfMemory)
        }
        ImportFault::Write => told(rt, ConversionFault::Write),
        ImportFault::Refused(refusal) => {
            let number = refusal.number();
            let ended = ConversionFault::Refused { number };
            let _ = eprintln!(rt; "{ended}");
            tell_refusal(rt, refusal, place_word(format));
            ended
        }
    }
}

/// What the place of a fault in a dump is called.
fn place_word(format: DumpFormat) -> &'static str {
    match format {
        DumpFormat::Views => "entry",
        DumpFormat::Edges | DumpFormat::Dot => "line",
    }
}

/// Prints why no graph follows from a dump, with the place.
fn tell_refusal(rt: &HostRuntime, refusal: &DumpFault, place: &str) {
    let _ = match refusal {
        DumpFault::NameTwice { at, name } => {
            eprintln!(rt; "{place} {at}: {name} has an entry already")
        }
        DumpFault::EmptyName { at } => eprintln!(rt; "{place} {at}: a name is empty"),
        DumpFault::TooManyNodes { at, name, most } => {
            let more = more_names(*most);
            eprintln!(rt;
                "{place} {at}: {name} is one name too many, since a graph may have {most} nodes at most\n{more}"
            )
        }
        DumpFault::OutOfMemory => eprintln!(rt; "out of memory"),
    };
}

/// What can be done about a dump with more names than these.
fn more_names(most: usize) -> &'static str {
    if most < SizeLimit::Large.most() {
        LARGE
    } else {
        PART
    }
}

/// Prints what an operator should know of a dump. Prints nothing if an allocation for it is refused.
fn tell_notes(rt: &HostRuntime, dump: &Dump, choice: Choice, format: DumpFormat) {
    if matches!(format, DumpFormat::Edges) {
        if let Ok(notes) = line_notes(rt.alloc(), dump) {
            let _ = eprint!(rt; "{notes}");
        }
    }
    if let Ok(notes) = import_notes(rt.alloc(), dump, choice) {
        let _ = eprint!(rt; "{notes}");
    }
}
