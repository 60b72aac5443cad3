ghost use Rattle.std.specs.Prelude.{◌≡◌, ◌<◌, option_map, string_bytes, Some, MatchResult, IfOk, OnOk};
ghost use Rattle.ov_check.specs.Outcome.{SaysExactNumber, IsOutcome};
ghost use Rattle.ov_check.specs.declared.outcome_of_file_bytes.Outcome.TheVariants.{Holds};
ghost use Rattle.ov_graphfile.specs.Faults.{number_of as graph_file_number};
ghost use Rattle.ov_io.specs.Device.{most_faults};
ghost use Rattle.ov_commands.specs.Pictures.{WasPicturePrinted, EndsAsAsked, NamesGraph, chosen_entry};
ghost use Rattle.ov_commands.specs.Pictures.{outcome_number};
ghost use Rattle.ov_commands.specs.Code.Endings.{IsNotHeld, IsNotNamed};
ghost use Rattle.ov_commands.specs.declared.conversion_fault.ConversionFault.TheVariants as ended;

use crate::conversion_fault::ConversionFault;
use crate::graph_file_out_of_certificate_file::{told, written};
use crate::pairs_and_fans_tip::entries_of;
use ov_arguments::{AskedEntry, PictureRequest};
use ov_cert::Cert;
use ov_certfile::{Filed, Version};
use ov_check::{Outcome, outcome_of};
use ov_check_reasons::{is_newer, reasons};
use ov_drawing::{ChosenEntry, Drawing, PictureFault, draw};
use ov_graph::{Graph, SizeLimit};
use ov_graphfile::{GraphFileFault, Names, read_named_graph};
use ov_ids::OutOfMemory;
use ov_io::Sink;
use ov_lines::FileKind;
use ov_picture::{dot, svg};
use ov_reasons::print_file_tip;
use std::alloc::Global;
use std::io::Write;

/// The number of the fault that a graph file says another graph than the certificate. (Chosen here.)
const OTHER_GRAPH: u32 = 87;

/// What is said of a certificate file of version 3.
const LARGER: &str =
    "tip: pictures are drawn of versions 1 and 2, so of up to 1024 nodes; of a larger graph, `tagzirk \
                      report` of the Python package draws the cut and its two sides";

/// Draws the graph of the certificate file of these bytes, with its cut in the middle, and writes SVG, or DOT if that
/// is asked for. `names` are the bytes of a graph file that names the nodes. If nothing is written, standard error says
/// why.
///
/// `Refused` has the number of the first fault of the bytes as a certificate file (60 to 64, 31 to 33) or of its
/// certificate (40 to 49), that of an entry that the certificate does not have (86), or that of the graph file with the
/// names (70, 31 to 33, or 87 if it says another graph). `Write` (72): the writer failed. `OutOfMemory` (99): an
/// allocation was refused.
pub fn print_picture<W: Write>(
    rt: &HostRuntime,
    bytes: &[u8],
    names: Option<&[u8]>,
    request: &PictureRequest,
    sink: &mut Sink<W>,
) -> Result<(), ConversionFault>
    requires { sink.old.faults < most_faults }
    ensures holds { OnOk result (SaysExactNumber Version.Two bytes.now) }
    ensures printed { WasPicturePrinted bytes.now (option_map (λ file. file.now) names.entry)
        (chosen_entry request.now.entry) request.now.dot W.contents sink.old.writer sink.new.writer result }
{
    let filed = held(rt, bytes)?;
    let drawing = match draw(
        rt.alloc(),
        &filed.graph,
        filed.group.as_slice(),
        &filed.cert,
        chosen(&request.entry),
    ) {
        Ok(drawing) => drawing,
        Err(fault) => return Err(not_drawn(rt, &filed.cert, fault)),
    };
    match picture_text(rt, &filed.graph, &drawing, names, request) {
        Ok(text) => written(rt, text.as_bytes(), sink),
        Err(fault) => Err(fault),
    }
}

/// The certificate file in these bytes, if its certificate holds. Else prints why not.
fn held(rt: &HostRuntime, bytes: &[u8]) -> Result<Filed, ConversionFault>
    ensures held { MatchResult result (λ filed. IsOutcome Version.Two bytes.now (Holds filed)) (IsNotHeld bytes.now) }
    ensures exact { OnOk result (SaysExactNumber Version.Two bytes.now) }
{
    match outcome_of(rt.alloc(), Version::Two, bytes) {
        Ok(Outcome::Holds(filed)) => Ok(filed),
        Ok(outcome) => Err(not_held(rt, &outcome)),
        Err(_) => Err(told(rt, ConversionFault::OutOfMemory)),
    }
}

/// Ends since no certificate holds. Prints the line of the outcome, as `overlay-check` does, and why.
fn not_held(rt: &HostRuntime, outcome: &Outcome) -> ConversionFault
    ensures { result ≡ ended.Refused (outcome_number outcome.now) }
{
    let number = match outcome {
        Outcome::Holds(_) => 0,
        Outcome::Fails { fault, .. } => fault.number(),
        Outcome::Refused(refusal) => refusal.fault.number(),
    };
    let _ = eprintln!(rt; "{outcome}");
    if let Ok(reason) = reasons(rt.alloc(), outcome) {
        let _ = eprintln!(rt; "{reason}");
    }
    tell_newer(rt, outcome);
    ConversionFault::Refused { number }
}

/// If a certificate file is of version 3, prints what draws larger graphs.
fn tell_newer(rt: &HostRuntime, outcome: &Outcome) {
    match outcome {
        Outcome::Refused(refusal) if is_newer(refusal) => {
            let _ = eprintln!(rt; "{LARGER}");
        }
        _ => {}
    }
}

/// The entry whose paths are drawn.
fn chosen(entry: &Option<AskedEntry>) -> Option<ChosenEntry>
    ensures { result ≡ chosen_entry entry.now }
{
    match entry {
        None => None,
        Some(AskedEntry::Pair { i, j }) => Some(ChosenEntry::Pair { i: *i, j: *j }),
        Some(AskedEntry::Fan { j }) => Some(ChosenEntry::Fan { j: *j }),
    }
}

/// Ends since nothing is drawn of this certificate. Prints why, and which entries it has.
fn not_drawn(rt: &HostRuntime, cert: &Cert, fault: PictureFault) -> ConversionFault
    ensures memory { fault ≡ PictureFault.OutOfMemory → result ≡ ended.OutOfMemory }
    ensures entry { fault ≡ PictureFault.NoSuchEntry → result ≡ ended.Refused 86 }
{
    match fault {
        PictureFault::OutOfMemory => told(rt, ConversionFault::OutOfMemory),
        PictureFault::NoSuchEntry => {
            let ended = refused(rt, fault.number(), "the certificate has no such entry");
            if let Ok(entries) = entries_of(rt.alloc(), cert) {
                let _ = eprintln!(rt; "{entries}");
            }
            ended
        }
    }
}

/// Ends with this number. Prints it, and why.
fn refused(rt: &HostRuntime, number: u32, why: &str) -> ConversionFault
    ensures { result ≡ ended.Refused number }
{
    let ended = ConversionFault::Refused { number };
    let _ = eprintln!(rt; "{ended}\n{why}");
    ended
}

/// The text of the picture, with the names that a graph file gives the nodes, if there is one.
fn picture_text(
    rt: &HostRuntime,
    graph: &Graph,
    drawing: &Drawing,
    names: Option<&[u8]>,
    request: &PictureRequest,
) -> Result<String, ConversionFault>
    ensures named { MatchResult result (λ text. NamesGraph (option_map (λ file. file.now) names.entry) graph.now)
        (IsNotNamed (option_map (λ file. file.now) names.entry) graph.now) }
    ensures format { IfOk result (λ text. EndsAsAsked request.now.dot (string_bytes text)) }
{
    let text = match names {
        None => text_of(rt.alloc(), drawing, &[], request.dot),
        Some(file) => {
            let names = names_of(rt, graph, file, request.names.as_deref())?;
            named_text(rt.alloc(), &names, drawing, request.dot)
        }
    };
    match text {
        Ok(text) => Ok(text),
        Err(_) => Err(told(rt, ConversionFault::OutOfMemory)),
    }
}

/// The names that a file with names, of this name, gives the nodes of the graph. Ends if it is no graph file, or says
/// another graph. Prints why.
fn names_of<'a>(
    rt: &HostRuntime,
    graph: &'a Graph,
    file: &'a [u8],
    path: Option<&str>,
) -> Result<Names<'a>, ConversionFault>
    ensures { MatchResult result (λ _. NamesGraph (Some file.now) graph.now) (IsNotNamed (Some file.now) graph.now) }
{
    match read_named_graph(rt.alloc(), SizeLimit::Usual, file) {
        Ok((other, told)) => {
            if other.is_same(graph) {
                return Ok(Names::new(graph, told));
            }
            let why = "the graph file with the names says another graph than the certificate";
            Err(refused(rt, OTHER_GRAPH, why))
        }
        Err(GraphFileFault::OutOfMemory) => Err(told(rt, ConversionFault::OutOfMemory)),
        Err(fault) => Err(no_graph_file(rt, file, path, &fault)),
    }
}

/// Ends since the file with names, of these bytes and this name, is no graph file. Prints which line is at fault; and
/// if it can't be read, which command reads such a file.
fn no_graph_file(
    rt: &HostRuntime,
    bytes: &[u8],
    path: Option<&str>,
    fault: &GraphFileFault,
) -> ConversionFault
    ensures { result ≡ ended.Refused (graph_file_number fault.now) }
{
    let number = fault.number();
    let ended = ConversionFault::Refused { number };
    let _ = match line_at_fault(fault) {
        Some(line) => eprintln!(rt; "{ended}\nline {line} of the file with the names is at fault"),
        None => eprintln!(rt; "{ended}"),
    };
    if let GraphFileFault::Line(_) = fault {
        print_file_tip(rt, bytes, path, FileKind::Graph);
    }
    ended
}

/// The line of a graph file that is at fault.
fn line_at_fault(fault: &GraphFileFault) -> Option<usize> {
    match fault {
        GraphFileFault::Line(unread) => Some(unread.line),
        GraphFileFault::Graph { line, .. } => Some(*line),
        GraphFileFault::OutOfMemory => None,
    }
}

/// The picture, with these names of the nodes. A name that is no UTF-8 is left out.
fn named_text(
    alloc: Global,
    names: &Names<'_>,
    drawing: &Drawing,
    is_dot: bool,
) -> Result<String, OutOfMemory>
    ensures format { IfOk result (λ text. EndsAsAsked is_dot (string_bytes text)) }
{
    let mut labels = Vec::new(alloc);
    for node in names.graph().nodes() {
        labels.push(match names.name(*node) {
            Some(name) => str::from_utf8(name).ok(),
            None => None,
        })?;
    }
    text_of(alloc, drawing, &labels, is_dot)
}

/// The picture as SVG, or as DOT.
fn text_of(
    alloc: Global,
    drawing: &Drawing,
    labels: &[Option<&str>],
    is_dot: bool,
) -> Result<String, OutOfMemory>
    ensures format { IfOk result (λ text. EndsAsAsked is_dot (string_bytes text)) }
{
    if is_dot {
        dot(alloc, drawing, labels)
    } else {
        svg(alloc, drawing, labels)
    }
}
