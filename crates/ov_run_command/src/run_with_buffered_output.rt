//! Runs whose lines are written in blocks.
ghost use Rattle.std.specs.Prelude.{◌≡◌, ◌<◌, [], Some, IfOk};
ghost use Rattle.std.specs.Io.Buffered.{writer_buffer};
ghost use Rattle.ov_io.specs.Device.{most_faults};
ghost use Rattle.ov_run_meaning.specs.Run.{IsRunInBlocks};
ghost use Rattle.ov_run_meaning.specs.Strict.{strictness_of};

use crate::refusals_and_progress::RunNews;
use crate::run_command::tell_run;
use ov_arguments::RunRequest;
use ov_io::Sink;
use ov_reasons::{STANDARD_INPUT, bytes_of, opened, without_memory};
use ov_run::run_in_blocks;
use ov_run_meaning::{RunFault, Strictness};
use std::io::{BufWriter, Read, Write};
use std::sync::Wait;
use std::thread::Threads;

/// How many bytes are kept back before they are written.
const BLOCK: usize = 64 * 1024;

/// Runs the scenario of a file, or of standard input, and prints on standard output in blocks. At the end nothing is
/// kept back, unless a write failed.
pub(crate) fn run_in_output_blocks<T: Threads + Wait + Sync>(
    rt: &HostRuntime,
    threads: &T,
    file: Option<String>,
    run: RunRequest,
) -> Result<u8, RunFault>
    ensures status { IfOk result (λ status. status ≡ 0) }
{
    let Ok(sink) = Sink::new(rt.stdout()).in_blocks(rt.alloc(), BLOCK) else {
        return Err(without_memory(rt));
    };
    let (_sink, answer) = match file.as_deref() {
        None => run_blocks_from(rt, threads, rt.stdin(), sink, None, run),
        Some(path) => run_blocks_from(rt, threads, opened(rt, path)?, sink, Some(path), run),
    };
    Ok(answer?)
}

/// Runs the scenario of a reader: of the file of this name, or of standard input.
fn run_blocks_from<T: Threads + Wait + Sync, R: Read + Drop, W: Write + Drop>(
    rt: &HostRuntime,
    threads: &T,
    reader: R,
    sink: Sink<BufWriter<W>>,
    file: Option<&str>,
    run: RunRequest,
) -> (Sink<W>, Result<u8, RunFault>)
    requires faults { sink.faults < most_faults }
    requires empty { writer_buffer sink.writer ≡ [] }
    ensures run { IsRunInBlocks (strictness_of run.strict) (R.remaining reader) W.contents sink result.0 result.1 }
{
    match bytes_of(rt, reader, file.unwrap_or(STANDARD_INPUT)) {
        Ok(bytes) => run_blocks_told(rt, threads, &bytes, sink, file, run),
        Err(fault) => (sink.give_up(), Err(fault)),
    }
}

/// Runs the scenario of these bytes, of the file of this name or of standard input. Prints what `run_told` prints.
fn run_blocks_told<T: Threads + Wait + Sync, W: Write + Drop>(
    rt: &HostRuntime,
    threads: &T,
    bytes: &[u8],
    sink: Sink<BufWriter<W>>,
    file: Option<&str>,
    run: RunRequest,
) -> (Sink<W>, Result<u8, RunFault>)
    requires faults { sink.faults < most_faults }
    requires empty { writer_buffer sink.writer ≡ [] }
    ensures run { IsRunInBlocks (strictness_of run.strict) (Some bytes.now) W.contents sink result.0 result.1 }
{
    let mut news = RunNews::new(rt, run, bytes);
    let strictness = Strictness::of(run.strict);
    let (sink, answer) = run_in_blocks(threads, rt.alloc(), bytes, sink, strictness, &mut news);
    tell_run(rt, bytes, file, &news, &answer);
    (sink, answer)
}
