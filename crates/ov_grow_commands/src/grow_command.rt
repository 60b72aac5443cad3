ghost use Rattle.std.specs.Prelude.{◌≡◌, ◌<◌, ◌+◌, IfErr, IfOk, OnOk, string_bytes};
ghost use Rattle.std.specs.Io.KnownBytes.{Appends};
ghost use Rattle.ov_io.specs.Device.{most_faults};
ghost use Rattle.ov_grow_commands.specs.Growing.{WasPrinted, certificate_lines};
ghost use Rattle.ov_grow_commands.specs.declared.grow_command_fault.GrowCommandFault.TheVariants.{Growing};
ghost use Rattle.ov_grow_commands.specs.declared.grow_command_fault.GrowCommandFault.TheVariants.{Write as write_failed};

use crate::grow_command_fault::GrowCommandFault;
use crate::row_files::options_of_row;
use ov_arguments::GrowRequest;
use ov_grow::{GrowFault, grow};
use ov_grow_options::GrowOptions;
use ov_ids::OutOfMemory;
use ov_io::Sink;
use std::alloc::Global;
use std::io::Write;

/// Grows an overlay, and prints its scenario, with the lines for its certificates if they are asked for. Prints nothing
/// if growing is refused, but why on standard error.
pub(crate) fn grow_asked(rt: &HostRuntime, request: &GrowRequest) -> Result<(), GrowCommandFault> {
    match &request.row {
        Some(row) => match options_of_row(rt, row.as_str()) {
            Ok(options) => print_grown(rt, &options, request.certificates),
            Err(fault) => Err(fault),
        },
        None => print_grown(rt, &request.options, request.certificates),
    }
}

/// Grows an overlay with these options, and prints its scenario, and the lines for its certificates if they are asked
/// for.
fn print_grown(
    rt: &HostRuntime,
    options: &GrowOptions,
    certificates: bool,
) -> Result<(), GrowCommandFault> {
    let mut sink = Sink::new(rt.stdout());
    let moments = print_scenario(rt, options, &mut sink)?;
    if !certificates {
        return Ok(());
    }
    let [settled, crashed, healed] = moments;
    let mut behind = Sink::new(rt.stdout());
    print_certificate_lines(rt, settled, crashed, healed, &mut behind)
}

/// Grows an overlay with these options, and writes its scenario. Writes nothing if growing is refused. The moments at
/// the end of its phases are returned. Prints why it ended before its end.
fn print_scenario<W: Write>(
    rt: &HostRuntime,
    options: &GrowOptions,
    sink: &mut Sink<W>,
) -> Result<[u32; 3], GrowCommandFault>
    requires { sink.old.faults < most_faults }
    ensures printed { WasPrinted options.now W.contents sink.old.writer sink.new.writer result }
    ensures failed { IfErr result (λ fault. fault ≡ write_failed → sink.new.faults ≡ sink.old.faults + 1) }
{
    match grow(rt.alloc(), options) {
        Ok(grown) => {
            let moments = [
                grown.settled.moment,
                grown.crashed.moment,
                grown.healed.moment,
            ];
            match grown.script.text(rt.alloc()) {
                Ok(text) => match sink.write_all(&text) {
                    Ok(()) => Ok(moments),
                    Err(_) => Err(told(rt, GrowCommandFault::Write)),
                },
                Err(OutOfMemory) => Err(not_grown(rt, GrowFault::OutOfMemory)),
            }
        }
        Err(fault) => Err(not_grown(rt, fault)),
    }
}

/// Prints the lines by which a scenario asks for the certificates of the reports of these moments. Prints why it ended
/// before its end.
fn print_certificate_lines<W: Write>(
    rt: &HostRuntime,
    settled: u32,
    crashed: u32,
    healed: u32,
    sink: &mut Sink<W>,
) -> Result<(), GrowCommandFault>
    requires { sink.old.faults < most_faults }
    ensures { OnOk result (Appends (W.contents sink.old.writer) (W.contents sink.new.writer)
        (certificate_lines settled crashed healed)) }
{
    match certificate_lines(rt.alloc(), settled, crashed, healed) {
        Ok(text) => match sink.write_all(text.as_bytes()) {
            Ok(()) => Ok(()),
            Err(_) => Err(told(rt, GrowCommandFault::Write)),
        },
        Err(_) => Err(told(rt, GrowCommandFault::OutOfMemory)),
    }
}

/// The lines by which a scenario asks for the certificates of the reports of these moments.
fn certificate_lines(
    alloc: Global,
    settled: u32,
    crashed: u32,
    healed: u32,
) -> Result<String, OutOfMemory>
    ensures { IfOk result (λ text. string_bytes text ≡ certificate_lines settled crashed healed) }
{
    Ok(format!(in alloc; "certificate {settled}\ncertificate {crashed}\ncertificate {healed}\n")?)
}

/// Ends if growing was refused. Prints why.
fn not_grown(rt: &HostRuntime, fault: GrowFault) -> GrowCommandFault
    ensures { result ≡ Growing fault }
{
    let ended = GrowCommandFault::Growing(fault);
    let _ = eprintln!(rt; "{ended}");
    print_refusal(rt, &fault);
    ended
}

/// Prints why growing was refused, in words.
pub(crate) fn print_refusal(rt: &HostRuntime, fault: &GrowFault) {
    let _ = match fault {
        GrowFault::Event(refusal) => eprintln!(rt; "growing ended: {refusal}"),
        GrowFault::Analysis(refusal) => eprintln!(rt; "growing ended: {refusal}"),
        GrowFault::OutOfMemory => eprintln!(rt; "out of memory"),
    };
}

/// Prints the line of a fault, and what it means. Nothing more is known of it.
pub(crate) fn told(rt: &HostRuntime, fault: GrowCommandFault) -> GrowCommandFault
    ensures { result ≡ fault }
{
    let meaning = match fault {
        GrowCommandFault::Arguments => "the words after the command can't be read",
        GrowCommandFault::Growing(_) => "growing was refused",
        GrowCommandFault::Row => "a line is no row",
        GrowCommandFault::Read => "reading failed",
        GrowCommandFault::Write => "writing failed",
        GrowCommandFault::OutOfMemory => "out of memory",
    };
    let _ = eprintln!(rt; "{fault}\n{meaning}");
    fault
}
