ghost use Rattle.std.specs.Prelude.{◌≡◌, ◌<◌, Some, IfOk};
ghost use Rattle.ov_io.specs.Device.{most_faults};
ghost use Rattle.ov_run_meaning.specs.Run.{IsRunOf};
ghost use Rattle.ov_run_meaning.specs.Strict.{strictness_of};

use crate::refusals_and_progress::RunNews;
use crate::run_with_buffered_output::run_in_output_blocks;
use ov_arguments::RunRequest;
use ov_io::Sink;
use ov_lines::FileKind;
use ov_reasons::{
    STANDARD_INPUT, bytes_of, opened, print_fault, print_reason, print_unread_tip, run_reason,
    tell_typing,
};
use ov_run::run_bytes;
use ov_run_meaning::{RunFault, Strictness};
use std::io::{IsTerminal, Read, Write};
use std::sync::Wait;
use std::thread::Threads;

/// Runs the scenario of a file, or of standard input. If it is to be explained, prints why lines are refused. What is
/// printed is written line by line then, and on a terminal, so that it stands beside these reasons; else in blocks.
pub fn run_asked<T: Threads + Wait + Sync>(
    rt: &HostRuntime,
    threads: &T,
    file: Option<String>,
    run: RunRequest,
) -> Result<u8, RunFault>
    ensures status { IfOk result (λ status. status ≡ 0) }
{
    tell_typing(rt, file.as_deref(), FileKind::Scenario);
    if run.explain || rt.stdout().is_terminal() {
        return run_line_by_line(rt, threads, file, run);
    }
    run_in_output_blocks(rt, threads, file, run)
}

/// Runs the scenario of a file, or of standard input, and prints on standard output as lines run.
fn run_line_by_line<T: Threads + Wait + Sync>(
    rt: &HostRuntime,
    threads: &T,
    file: Option<String>,
    run: RunRequest,
) -> Result<u8, RunFault>
    ensures status { IfOk result (λ status. status ≡ 0) }
{
    let mut sink = Sink::new(rt.stdout());
    match file.as_deref() {
        None => Ok(run_from(rt, threads, rt.stdin(), &mut sink, None, run)?),
        Some(path) => Ok(run_from(rt, threads, opened(rt, path)?, &mut sink, Some(path), run)?),
    }
}

/// Runs the scenario of a reader: of the file of this name, or of standard input.
fn run_from<T: Threads + Wait + Sync, R: Read + Drop, W: Write>(
    rt: &HostRuntime,
    threads: &T,
    reader: R,
    sink: &mut Sink<W>,
    file: Option<&str>,
    run: RunRequest,
) -> Result<u8, RunFault>
    requires { sink.old.faults < most_faults }
    ensures run { IsRunOf (strictness_of run.strict) (R.remaining reader) W.contents sink.old sink.new result }
{
    let bytes = bytes_of(rt, reader, file.unwrap_or(STANDARD_INPUT))?;
    run_told(rt, threads, &bytes, sink, file, run)
}

/// Runs the scenario of these bytes, of the file of this name or of standard input. Prints its fault, if there is one,
/// and why. Prints what else is asked for: how far the run has come; why lines are refused, and at the end how many
/// events happened and how many were refused. Why a line is refused at which a strict run ends is printed below its
/// fault.
fn run_told<T: Threads + Wait + Sync, W: Write>(
    rt: &HostRuntime,
    threads: &T,
    bytes: &[u8],
    sink: &mut Sink<W>,
    file: Option<&str>,
    run: RunRequest,
) -> Result<u8, RunFault>
    requires { sink.old.faults < most_faults }
    ensures run { IsRunOf (strictness_of run.strict) (Some bytes.now) W.contents sink.old sink.new result }
{
    let mut news = RunNews::new(rt, run, bytes);
    let strictness = Strictness::of(run.strict);
    let answer = run_bytes(threads, rt.alloc(), bytes, sink, strictness, &mut news);
    tell_run(rt, bytes, file, &news, &answer);
    answer
}

/// Prints the fault of a run of these bytes, if there is one, and why, and then what is to be told at the end.
pub(crate) fn tell_run(
    rt: &HostRuntime,
    bytes: &[u8],
    file: Option<&str>,
    news: &RunNews<'_>,
    answer: &Result<u8, RunFault>,
) {
    tell_fault(rt, bytes, file, answer);
    if has_run(answer) {
        news.tell_end();
    }
}

/// Whether lines of a scenario may have run: not if a line is at fault. Out of memory, perhaps none ran.
fn has_run(answer: &Result<u8, RunFault>) -> bool {
    !matches!(answer, Err(RunFault::Line(_) | RunFault::Params(_)))
}

/// Prints the line of the fault of a run of these bytes, if it has one, and why there is one.
fn tell_fault(rt: &HostRuntime, bytes: &[u8], file: Option<&str>, answer: &Result<u8, RunFault>) {
    if let Err(fault) = answer {
        print_fault(rt, *fault);
        print_reason(rt, run_reason(rt.alloc(), bytes, fault));
        print_unread_tip(rt, bytes, file, fault, FileKind::Scenario);
    }
}
