//! What programs do that judge certificate files: they read one, and say in one line whether it holds. A program is
//! its texts, and the newest version of these files that it reads.
#![tactic(auto)]

ghost use Rattle.std.specs.Prelude.{◌≡◌, ◌+◌, ◌<◌, Err, IfOk};
ghost use Rattle.ov_io.specs.Device.{most_faults, write_faults};
ghost use Rattle.ov_check.specs.Faults.{number_of};
ghost use Rattle.ov_check.specs.Outcome.{status_of};
ghost use Rattle.ov_check.specs.Run.{Prints};
ghost use Rattle.ov_check_program.specs.Status.{IsStatusOfRead, IsJudged, IsStatus};

use ov_certfile::Version;
use ov_check::{
    FaultLine, JudgeFault, Judged, Outcome, ProgramFault, exit_status, failure_text, input_named,
    judge_kept, why_no_input,
};
use ov_check_reasons::{form_tip, reasons};
use ov_io::{Sink, Source, unopened_text};
use ov_lines::{FileKind, file_tip, folder_tip, is_folder, looks_like};
use std::alloc::AllocError;
use std::env::FillError;
use std::fs::File;
use std::io;
use std::io::{Read, Write};
use std::rt::{Env, Files, Runtime};
use std::thread::Threads;

/// The name of what is read if no file is named.
const STANDARD_INPUT: &str = "standard input";

/// What is printed if that is a terminal.
const TYPED: &str = "reading a certificate file from standard input, to its end (Ctrl-D)";

/// The length in bytes of the longest path that the system opens, or more.
const LONGEST_PATH: usize = 4096;

/// A program that judges certificate files.
#[derive(Clone, Copy)]
pub struct Program {
    /// Its name.
    pub name: &'static str,
    /// The newest version of certificate files that it reads.
    pub newest: Version,
    /// What it prints if no file is called `--help`.
    pub help: &'static str,
    /// What it prints if no file is called `--version`.
    pub version: &'static str,
    /// What it prints if a file can't be opened whose name begins as an option.
    pub no_options: &'static str,
}

/// Runs a program: judges the input that the arguments name, and returns the program's status. It is 0 only if the
/// bytes that were read are a certificate file whose number is exact. If standard input is judged, and a person types
/// it at a terminal, standard error says so.
#[tactic(auto, using(crate::proofs::Told::ended))]
pub fn run<R: Runtime + AllocGlobal + Threads + Sync>(
    rt: &R,
    program: &Program,
    is_typed: bool,
) -> u8
    ensures { IsStatus R.Reader.remaining R.File.remaining program.now.newest result }
{
    exit_status(&judge_input(rt, program, is_typed))
}

/// Judges the input that the arguments name. Argument 0, the program's own path, is not looked at. Ok: the status of
/// the outcome.
fn judge_input<R: Runtime + AllocGlobal + Threads + Sync>(
    rt: &R,
    program: &Program,
    is_typed: bool,
) -> Result<u8, ProgramFault>
    ensures { IfOk result (IsJudged R.Reader.remaining R.File.remaining program.now.newest) }
{
    let mut room = [0u8; LONGEST_PATH];
    let length = rt.arg(1, &mut room);
    match input_named(length, &room, has_argument(rt, 2)) {
        Ok(None) => {
            if is_typed {
                let _ = eprintln!(rt; "{TYPED}");
            }
            let mut sink = Sink::new(io::writer(rt));
            Ok(judge_from(rt, program, rt.reader(), &mut sink, None)?)
        }
        Ok(Some(path)) => Ok(judge_named(rt, program, path)?),
        Err(fault) => {
            let why = why_no_input(&fault);
            let line = FaultLine {
                program: program.name,
                fault,
            };
            let _ = eprintln!(rt; "{line}\n{why}");
            Err(fault)
        }
    }
}

/// Whether there is an argument at a place, whatever bytes it has.
fn has_argument(rt: &impl Env, place: usize) -> bool {
    !matches!(rt.arg(place, &mut []), Err(FillError::NotPresent))
}

/// Prints the line of a fault of the judge.
fn print_fault(rt: &impl Runtime, program: &Program, fault: JudgeFault) {
    let line = FaultLine {
        program: program.name,
        fault: ProgramFault::Judge(fault),
    };
    let _ = eprintln!(rt; "{line}");
}

/// Judges what the file of this name has.
#[tactic(auto, using(crate::proofs::Told::printed))]
fn judge_named<R: Runtime + AllocGlobal + Threads + Sync>(
    rt: &R,
    program: &Program,
    path: &str,
) -> Result<u8, JudgeFault>
    ensures { IfOk result (IsStatusOfRead R.File.remaining program.now.newest) }
{
    match File::open(rt, path) {
        Ok(file) => {
            let mut sink = Sink::new(io::writer(rt));
            judge_from(rt, program, file, &mut sink, Some(path))
        }
        Err(error) => {
            print_fault(rt, program, JudgeFault::Read);
            if let Ok(text) = unopened_text(rt.alloc(), path, &error) {
                let _ = eprintln!(rt; "{text}");
            }
            if path.starts_with('-') {
                tell_program(rt, program, path);
            }
            Err(JudgeFault::Read)
        }
    }
}

/// Prints what a person may want who takes the name of a file that can't be opened for an option: help, or the version;
/// and that there are no options.
fn tell_program(rt: &impl Runtime, program: &Program, path: &str) {
    let no_options = program.no_options;
    match path {
        "--help" | "-h" => {
            let help = program.help;
            let _ = eprintln!(rt; "{help}");
        }
        "--version" | "-V" => {
            let version = program.version;
            let _ = eprintln!(rt; "{version}");
        }
        _ => {}
    }
    let _ = eprintln!(rt; "{no_options}");
}

/// Judges what a reader gives, the file of this name or standard input, and writes the line of the outcome. Ok: the
/// status of the outcome, which is 0 only if the bytes that were read say an exact number. Not Ok: the fault is
/// printed, and the name of what can't be read.
fn judge_from<R: Runtime + AllocGlobal + Threads + Sync, I: Read + Drop, W: Write>(
    rt: &R,
    program: &Program,
    reader: I,
    sink: &mut Sink<W>,
    file: Option<&str>,
) -> Result<u8, JudgeFault>
    requires { sink.old.faults < most_faults }
    ensures prints { IfOk result
        (Prints program.now.newest (I.remaining reader) (W.contents sink.old.writer) (W.contents sink.new.writer)) }
    ensures unread { result ≡ Err JudgeFault.Read → sink.new ≡ sink.old }
    ensures no_memory { result ≡ Err JudgeFault.OutOfMemory → sink.new ≡ sink.old }
    ensures sink { sink.new.faults ≡ sink.old.faults + write_faults number_of result }
{
    let mut source = Source::new(reader);
    match judge_kept(rt, program.newest, &mut source, sink) {
        Ok(judged) => Ok(explained(rt, &judged, file)),
        Err(fault) => {
            print_fault(rt, program, fault);
            explain_failure(rt, fault, file);
            Err(fault)
        }
    }
}

/// Prints what failed, and the name of what can't be read. If this is the name of a folder, it says so.
fn explain_failure<R: Runtime + AllocGlobal>(rt: &R, fault: JudgeFault, file: Option<&str>) {
    if let Ok(text) = failure_text(rt.alloc(), fault, file.unwrap_or(STANDARD_INPUT)) {
        let _ = eprintln!(rt; "{text}");
    }
    let Some(path) = file else {
        return;
    };
    if fault == JudgeFault::Read && is_folder(rt, path) {
        print_tip(rt, folder_tip(rt.alloc(), path));
    }
}

/// The status of the outcome. If it is not 0, standard error says why the certificate does not hold, or why the file is
/// refused.
fn explained<R: Runtime + AllocGlobal>(rt: &R, judged: &Judged, file: Option<&str>) -> u8
    ensures { result ≡ status_of judged.now.outcome }
{
    let status = judged.outcome.status();
    if status != 0 {
        explain(rt, judged, file);
    }
    status
}

/// Prints why the outcome is not that a certificate holds. Of a file that looks like one of another kind, it says which
/// command reads it; of one that is not in UTF-8, how to make it so.
fn explain<R: Runtime + AllocGlobal>(rt: &R, judged: &Judged, file: Option<&str>) {
    if let Ok(text) = reasons(rt.alloc(), &judged.outcome) {
        let _ = eprintln!(rt; "{text}");
    }
    if let Outcome::Refused(_) = &judged.outcome {
        print_tip(rt, form_tip(rt.alloc(), &judged.bytes, file));
        tell_kind(rt, &judged.bytes, file);
    }
}

/// Prints which command reads the file of this name, if its bytes do not look like a certificate file; and of it or
/// standard input, how to take the last line, if that is the certificate below what `overlay analyse` prints.
fn tell_kind<R: Runtime + AllocGlobal>(rt: &R, bytes: &[u8], file: Option<&str>) {
    let kind = if ends_in_certificate(bytes) {
        FileKind::Report
    } else {
        looks_like(bytes)
    };
    let is_told = file.is_some() && kind != FileKind::Certificate;
    if is_told || kind == FileKind::Report {
        print_tip(rt, file_tip(rt.alloc(), kind, file));
    }
}

/// Whether the last line looks like a certificate file, and the lines above it do not.
fn ends_in_certificate(bytes: &[u8]) -> bool {
    let text = bytes.trim_ascii_end();
    let Some(place) = text.iter().rposition(|byte| *byte == b'\n') else {
        return false;
    };
    match text.split_at_checked(place) {
        Some((above, last)) => is_certificate(last) && !is_certificate(above),
        None => false,
    }
}

/// Whether bytes look like a certificate file.
fn is_certificate(bytes: &[u8]) -> bool {
    looks_like(bytes) == FileKind::Certificate
}

/// Prints the line of a tip. Prints nothing if an allocation for it was refused.
fn print_tip(rt: &impl Runtime, tip: Result<String, AllocError>) {
    if let Ok(tip) = tip {
        let _ = eprint!(rt; "{tip}");
    }
}
