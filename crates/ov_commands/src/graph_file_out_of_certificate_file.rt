ghost use Rattle.std.specs.Prelude.{◌≡◌, ◌≢◌, ◌<◌};
ghost use Rattle.ov_certfile.specs.Number.{number_of};
ghost use Rattle.ov_certfile.specs.declared.fault.FileFault.TheVariants.{OutOfMemory as no_memory};
ghost use Rattle.ov_io.specs.Device.{most_faults};
ghost use Rattle.ov_commands.specs.Printing.{WasGraphPrinted};
ghost use Rattle.ov_commands.specs.Code.Endings.{WasWritten};
ghost use Rattle.ov_commands.specs.declared.conversion_fault.ConversionFault.TheVariants.{OutOfMemory as no_room};
ghost use Rattle.ov_commands.specs.declared.conversion_fault.ConversionFault.TheVariants.{Refused};

use crate::conversion_fault::ConversionFault;
use ov_certfile::{FileFault, RefusedFile, Version};
use ov_check::{Outcome, filed_in};
use ov_check_reasons::{is_newer, reasons};
use ov_graphfile::graph_text;
use ov_io::Sink;
use ov_reasons::WRITING_FAILED;
use std::io::Write;

/// What is said of a certificate file of version 3, where older ones are read.
const LARGE: &str =
    "tip: `overlay graph --large` reads version 3, and `overlay-check-large` checks it";

/// Writes the graph of a certificate file of these bytes, of this version or an older one, as a graph file. Whether the
/// certificate holds is not asked. If nothing is written, standard error says why.
///
/// `Refused` has the number of the first fault of the bytes as a certificate file (60 to 64, 31 to 33). `Write` (72):
/// the writer failed. `OutOfMemory` (99): an allocation was refused.
pub fn print_graph<W: Write>(
    rt: &HostRuntime,
    newest: Version,
    bytes: &[u8],
    sink: &mut Sink<W>,
) -> Result<(), ConversionFault>
    requires { sink.old.faults < most_faults }
    ensures printed { WasGraphPrinted newest bytes.now W.contents sink.old.writer sink.new.writer result }
{
    match filed_in(rt.alloc(), newest, bytes) {
        Ok(filed) => match graph_text(rt.alloc(), &filed.graph) {
            Ok(text) => written(rt, &text, sink),
            Err(_) => Err(told(rt, ConversionFault::OutOfMemory)),
        },
        Err(refusal) => Err(no_certificate_file(rt, refusal)),
    }
}

/// Writes a text. If that fails, prints it.
pub(crate) fn written<W: Write>(
    rt: &HostRuntime,
    text: &[u8],
    sink: &mut Sink<W>,
) -> Result<(), ConversionFault>
    requires { sink.old.faults < most_faults }
    ensures { WasWritten text.now W.contents sink.old.writer sink.new.writer result }
{
    match sink.write_all(text) {
        Ok(()) => Ok(()),
        Err(_) => Err(told(rt, ConversionFault::Write)),
    }
}

/// Ends since bytes are no certificate file. Prints why.
fn no_certificate_file(rt: &HostRuntime, refusal: RefusedFile) -> ConversionFault
    ensures memory { refusal.fault ≡ no_memory → result ≡ no_room }
    ensures number { refusal.fault ≢ no_memory → result ≡ Refused (number_of refusal.fault) }
{
    let number = refusal.fault.number();
    match refusal.fault {
        FileFault::OutOfMemory => told(rt, ConversionFault::OutOfMemory),
        _ => {
            let ended = ConversionFault::Refused { number };
            let _ = eprintln!(rt; "{ended}");
            print_reason(rt, refusal, LARGE);
            ended
        }
    }
}

/// Prints why bytes are no certificate file, in words, and what reads them if they are of version 3. Prints nothing if
/// an allocation for it is refused.
fn print_reason(rt: &HostRuntime, refusal: RefusedFile, reads_newer: &str) {
    let is_newer = is_newer(&refusal);
    let outcome = Outcome::Refused(refusal);
    if let Ok(reason) = reasons(rt.alloc(), &outcome) {
        let _ = eprintln!(rt; "{reason}");
    }
    if is_newer {
        let _ = eprintln!(rt; "{reads_newer}");
    }
}

/// Prints where bytes are no JSON. False if this is not known, and nothing was printed.
pub(crate) fn tell_no_json(rt: &HostRuntime, bytes: &[u8]) -> bool {
    match filed_in(rt.alloc(), Version::Two, bytes) {
        Ok(_) => false,
        Err(refusal) => {
            if !matches!(&refusal.fault, FileFault::NotJson(_)) {
                return false;
            }
            print_reason(rt, refusal, LARGE);
            true
        }
    }
}

/// Prints the line of a fault, and what it means.
pub(crate) fn told(rt: &HostRuntime, fault: ConversionFault) -> ConversionFault
    ensures { result ≡ fault }
{
    let meaning = match fault {
        ConversionFault::Refused { .. } => "the file is refused\n",
        ConversionFault::Write => WRITING_FAILED,
        ConversionFault::OutOfMemory => "out of memory\n",
    };
    let _ = eprint!(rt; "{fault}\n{meaning}");
    fault
}
