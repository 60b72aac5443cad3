//! The commands that turn one file into another.
ghost use Rattle.std.specs.Prelude.{◌≡◌, ◌<◌, option_map, Some, IfOk, IfSome};
ghost use Rattle.ov_commands.specs.Dumps.{WasDumpPrinted};
ghost use Rattle.ov_commands.specs.Pictures.{WasPicturePrinted, chosen_entry};
ghost use Rattle.ov_commands.specs.Printing.{WasGraphPrinted};
ghost use Rattle.ov_commands.specs.Sizes.{newest_of};
ghost use Rattle.ov_lines.specs.FileKinds.{behind_mark};
ghost use Rattle.ov_io.specs.Device.{most_faults};
ghost use Rattle.ov_commands.specs.Statuses.{HasDone, HasRead, command_status};

use crate::command_fault::CommandFault;
use crate::conversion_fault::ConversionFault;
use crate::graph_file_out_of_certificate_file::print_graph;
use crate::import_command::print_dump;
use crate::picture_printing::print_picture;
use crate::sizes_asked::newest_of;
use ov_arguments::{ImportRequest, PictureRequest};
use ov_io::Sink;
use ov_lines::{FileKind, behind_mark};
use ov_reasons::{STANDARD_INPUT, bytes_of, opened, print_file_tip, tell_typing};
use ov_run_meaning::RunFault;
use std::io::{Read, Write};

/// Makes a graph file of the dump of a file, or of standard input.
pub fn import_asked(
    rt: &HostRuntime,
    file: Option<String>,
    dump: ImportRequest,
) -> Result<u8, CommandFault>
    ensures status { IfOk result (λ status. status ≡ 0) }
{
    tell_typing(rt, file.as_deref(), FileKind::Views);
    let mut sink = Sink::new(rt.stdout());
    let Some(path) = file.as_deref() else {
        return import_from(rt, rt.stdin(), None, dump, &mut sink);
    };
    match opened(rt, path) {
        Ok(reader) => import_from(rt, reader, Some(path), dump, &mut sink),
        Err(fault) => Err(CommandFault::Run(fault)),
    }
}

/// Makes a graph file of the dump of a reader, of the file of this name or of standard input. A byte order mark before
/// the dump is passed over.
fn import_from<R: Read + Drop, W: Write>(
    rt: &HostRuntime,
    reader: R,
    file: Option<&str>,
    dump: ImportRequest,
    sink: &mut Sink<W>,
) -> Result<u8, CommandFault>
    requires { sink.old.faults < most_faults }
    ensures imported { HasRead (R.remaining reader) sink.old.writer sink.new.writer (λ bytes. HasDone
        (WasDumpPrinted dump (behind_mark bytes) W.contents sink.old.writer sink.new.writer)) result }
    ensures status { IfOk result (λ status. status ≡ 0) }
{
    let bytes = bytes_of(rt, reader, file.unwrap_or(STANDARD_INPUT))?;
    let printed = print_dump(rt, behind_mark(&bytes), dump, sink);
    status_of(with_tip(rt, &bytes, file, FileKind::Views, printed))
}

/// Draws the graph of the certificate file of this name, or of standard input, with the names that another file gives.
pub fn picture_asked(
    rt: &HostRuntime,
    file: Option<String>,
    picture: PictureRequest,
) -> Result<u8, CommandFault>
    ensures status { IfOk result (λ status. status ≡ 0) }
{
    tell_typing(rt, file.as_deref(), FileKind::Certificate);
    let mut sink = Sink::new(rt.stdout());
    match file.as_deref() {
        None => {
            let names = names_asked(rt, picture.names.as_deref())?;
            picture_from(rt, rt.stdin(), None, names.as_deref(), &picture, &mut sink)
        }
        Some(path) => {
            let reader = opened(rt, path)?;
            let names = names_asked(rt, picture.names.as_deref())?;
            picture_from(
                rt,
                reader,
                Some(path),
                names.as_deref(),
                &picture,
                &mut sink,
            )
        }
    }
}

/// All bytes of the file with names, if there is one. The faults are those of `bytes_of`, and that it can't be opened
/// (71).
fn names_asked(rt: &HostRuntime, path: Option<&str>) -> Result<Option<Vec<u8>>, RunFault> {
    match path {
        None => Ok(None),
        Some(path) => names_from(rt, opened(rt, path)?, path),
    }
}

/// All bytes of a file with names, of which this is the reader and the name.
fn names_from<R: Read + Drop>(
    rt: &HostRuntime,
    reader: R,
    path: &str,
) -> Result<Option<Vec<u8>>, RunFault>
    ensures { IfOk result (λ names. IfSome (R.remaining reader)
        (λ xs. option_map (λ bytes. bytes.items) names ≡ Some xs)) }
{
    let bytes = bytes_of(rt, reader, path)?;
    Ok(Some(bytes))
}

/// Draws the graph of the certificate file of a reader, of the file of this name or of standard input, with the names
/// that the bytes of another file give.
fn picture_from<R: Read + Drop, W: Write>(
    rt: &HostRuntime,
    reader: R,
    file: Option<&str>,
    names: Option<&[u8]>,
    picture: &PictureRequest,
    sink: &mut Sink<W>,
) -> Result<u8, CommandFault>
    requires { sink.old.faults < most_faults }
    ensures drawn { HasRead (R.remaining reader) sink.old.writer sink.new.writer (λ bytes. HasDone
        (WasPicturePrinted bytes (option_map (λ file. file.now) names.entry) (chosen_entry picture.now.entry)
        picture.now.dot W.contents sink.old.writer sink.new.writer)) result }
    ensures status { IfOk result (λ status. status ≡ 0) }
{
    let bytes = bytes_of(rt, reader, file.unwrap_or(STANDARD_INPUT))?;
    let printed = print_picture(rt, &bytes, names, picture, sink);
    status_of(with_tip(rt, &bytes, file, FileKind::Certificate, printed))
}

/// Writes the graph of the certificate file of this name, or of standard input, as a graph file. A large one may be of
/// version 3.
pub fn graph_asked(rt: &HostRuntime, file: Option<String>, large: bool) -> Result<u8, CommandFault>
    ensures status { IfOk result (λ status. status ≡ 0) }
{
    tell_typing(rt, file.as_deref(), FileKind::Certificate);
    let mut sink = Sink::new(rt.stdout());
    let Some(path) = file.as_deref() else {
        return graph_from(rt, large, rt.stdin(), None, &mut sink);
    };
    match opened(rt, path) {
        Ok(reader) => graph_from(rt, large, reader, Some(path), &mut sink),
        Err(fault) => Err(CommandFault::Run(fault)),
    }
}

/// Writes the graph of the certificate file of a reader, of the file of this name or of standard input, as a graph
/// file.
fn graph_from<R: Read + Drop, W: Write>(
    rt: &HostRuntime,
    large: bool,
    reader: R,
    file: Option<&str>,
    sink: &mut Sink<W>,
) -> Result<u8, CommandFault>
    requires { sink.old.faults < most_faults }
    ensures written { HasRead (R.remaining reader) sink.old.writer sink.new.writer
        (λ bytes. HasDone
        (WasGraphPrinted (newest_of large) bytes W.contents sink.old.writer sink.new.writer)) result }
    ensures status { IfOk result (λ status. status ≡ 0) }
{
    let bytes = bytes_of(rt, reader, file.unwrap_or(STANDARD_INPUT))?;
    let printed = print_graph(rt, newest_of(large), &bytes, sink);
    status_of(with_tip(rt, &bytes, file, FileKind::Certificate, printed))
}

/// What the program returns after a command that did so: status 0, or the fault of the command.
pub(crate) fn status_of(done: Result<(), ConversionFault>) -> Result<u8, CommandFault>
    ensures returned { result ≡ command_status done }
    ensures status { IfOk result (λ status. status ≡ 0) }
{
    match done {
        Ok(()) => Ok(0),
        Err(fault) => Err(CommandFault::OfFile(fault)),
    }
}

/// The same answer. If these bytes are refused, and do not look like this kind of file, prints which command reads
/// them.
fn with_tip(
    rt: &HostRuntime,
    bytes: &[u8],
    file: Option<&str>,
    wanted: FileKind,
    printed: Result<(), ConversionFault>,
) -> Result<(), ConversionFault>
    ensures { result ≡ printed }
{
    if let Err(ConversionFault::Refused { .. }) = &printed {
        print_file_tip(rt, bytes, file, wanted);
    }
    printed
}
