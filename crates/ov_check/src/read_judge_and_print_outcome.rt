ghost use Rattle.std.specs.Prelude.{◌≡◌, ◌≢◌, ◌+◌, ◌<◌, Err, IfOk, IfSome, OnOk, IsErrOf};
ghost use Rattle.std.specs.Io.KnownBytes.{Appends};
ghost use Rattle.ov_io.specs.Device.{most_faults, write_faults, AppendsPrefixOf};
ghost use Rattle.ov_check.specs.Faults.{number_of};
ghost use Rattle.ov_check.specs.Line.{printed_of};
ghost use Rattle.ov_check.specs.Run.{IsRun, Judgement, status_in};

use crate::outcome_of_file_bytes::{Outcome, outcome_of, outcome_parallel};
use crate::read_or_write_fault::JudgeFault;
use ov_certfile::Version;
use ov_io::{Sink, Source};
use std::alloc::Global;
use std::io::{Read, Write};
use std::thread::Threads;

/// A certificate file that was judged.
#[derive(Drop)]
pub struct Judged {
    /// Its outcome, whose line was written.
    pub outcome: Outcome,
    /// The bytes that were read.
    pub bytes: Vec<u8>,
}

/// Reads a certificate file of version 1 or 2 to its end and judges it. Writes the line of its outcome, ended by a line
/// feed, and returns the program's status: 0 if the certificate holds, so that its number is exact for its group, and 1
/// if it fails or the file is refused.
///
/// `Read` (71): the reader failed in this call, and nothing was written. `Write` (72): the writer failed in this call,
/// and a prefix of the line was written. `OutOfMemory` (99): an allocation was refused, and nothing was written.
pub fn judge<R: Read, W: Write>(
    alloc: Global,
    source: &mut Source<R>,
    sink: &mut Sink<W>,
) -> Result<u8, JudgeFault>
    requires reads { source.old.faults < most_faults }
    requires writes { sink.old.faults < most_faults }
    ensures { IsRun Version.Two R.remaining W.contents source.old sink.old source.new sink.new result }
{
    let bytes = source.read_all(alloc)?;
    let outcome = outcome_of(alloc, Version::Two, &bytes)?;
    write_line(alloc, &outcome, sink)?;
    Ok(outcome.status())
}

/// Does what `judge` does, by as many threads as `rayon` uses.
pub fn judge_parallel<R: Read, W: Write>(
    rt: &(impl AllocGlobal + Threads + Sync),
    source: &mut Source<R>,
    sink: &mut Sink<W>,
) -> Result<u8, JudgeFault>
    requires reads { source.old.faults < most_faults }
    requires writes { sink.old.faults < most_faults }
    ensures { IsRun Version.Two R.remaining W.contents source.old sink.old source.new sink.new result }
{
    let judged = judge_kept(rt, Version::Two, source, sink)?;
    Ok(judged.outcome.status())
}

/// Does what `judge_parallel` does, but reads files of version 3 too, and returns the outcome, whose status is the
/// program's, and the bytes that were read.
pub fn judge_large<R: Read, W: Write>(
    rt: &(impl AllocGlobal + Threads + Sync),
    source: &mut Source<R>,
    sink: &mut Sink<W>,
) -> Result<Judged, JudgeFault>
    requires reads { source.old.faults < most_faults }
    requires writes { sink.old.faults < most_faults }
    ensures run { IsRun Version.Three R.remaining W.contents source.old sink.old source.new sink.new
        (status_in result) }
    ensures outcome { IfOk result (λ judged. Judgement Version.Three (R.remaining source.old.reader) judged.outcome) }
    ensures line { IfOk result (λ judged. Appends (W.contents sink.old.writer) (W.contents sink.new.writer)
        (printed_of judged.outcome)) }
    ensures bytes { IfOk result (λ judged. IfSome (R.remaining source.old.reader) (λ xs. judged.bytes.items ≡ xs)) }
{
    judge_kept(rt, Version::Three, source, sink)
}

/// Does what `judge_parallel` does, or with the newest version `Three` what `judge_large` does, and returns the outcome
/// and the bytes that were read.
pub fn judge_kept<R: Read, W: Write>(
    rt: &(impl AllocGlobal + Threads + Sync),
    newest: Version,
    source: &mut Source<R>,
    sink: &mut Sink<W>,
) -> Result<Judged, JudgeFault>
    requires reads { source.old.faults < most_faults }
    requires writes { sink.old.faults < most_faults }
    ensures run { IsRun newest R.remaining W.contents source.old sink.old source.new sink.new (status_in result) }
    ensures outcome { IfOk result (λ judged. Judgement newest (R.remaining source.old.reader) judged.outcome) }
    ensures line { IfOk result (λ judged. Appends (W.contents sink.old.writer) (W.contents sink.new.writer)
        (printed_of judged.outcome)) }
    ensures bytes { IfOk result (λ judged. IfSome (R.remaining source.old.reader) (λ xs. judged.bytes.items ≡ xs)) }
{
    let bytes = source.read_all(rt.alloc())?;
    let outcome = outcome_parallel(rt, newest, &bytes)?;
    write_line(rt.alloc(), &outcome, sink)?;
    Ok(Judged { outcome, bytes })
}

/// Writes the line of an outcome, ended by a line feed.
fn write_line<W: Write>(
    alloc: Global,
    outcome: &Outcome,
    sink: &mut Sink<W>,
) -> Result<(), JudgeFault>
    requires { sink.old.faults < most_faults }
    ensures line { OnOk result (Appends (W.contents sink.old.writer) (W.contents sink.new.writer)
        (printed_of outcome.now)) }
    ensures prefix { IsErrOf result JudgeFault.Write → AppendsPrefixOf (printed_of outcome.now)
        (W.contents sink.old.writer) (W.contents sink.new.writer) }
    ensures faults { sink.new.faults ≡ sink.old.faults + write_faults number_of result }
    ensures unread { result ≢ Err JudgeFault.Read }
    ensures no_memory { IsErrOf result JudgeFault.OutOfMemory → sink.new ≡ sink.old }
{
    let line = format!(in alloc; "{outcome}\n")?;
    sink.write_all(line.as_bytes())?;
    Ok(())
}
