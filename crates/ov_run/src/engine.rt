ghost use Rattle.std.specs.Prelude.{◌≡◌, ◌<◌, ◌≤◌, ◌≢◌, [], Some, Err, IfOk, IfErr, OnErr};
ghost use Rattle.std.specs.Io.Buffered.{writer_buffer};
ghost use Rattle.ov_io.specs.Device.{most_faults};
ghost use Rattle.ov_run.specs.Code.Outcomes.{RanLines};
ghost use Rattle.ov_run.specs.Code.Failing.{is_write, IsBeforeLines};
ghost use Rattle.ov_run_meaning.specs.Run.{IsRun, IsRunInBlocks, IsRunOf};
ghost use Rattle.ov_scenario.specs.RunLines.{drivers_for, lines_that_run};
ghost use Rattle.ov_scenario.specs.Scenarios.{IsScenario};
ghost use Rattle.ov_snap.specs.CoreState.{opening_core};
ghost use Rattle.ov_run_meaning.specs.declared.strictness.Strictness.TheVariants.{Lenient};

use crate::hall_outside_sections::RunHall;
use crate::line_running::run_lines;
use crate::run_watcher::{RunWatcher, Unwatched};
use ov_hall::{HallName, Opening};
use ov_ids::{OutOfMemory, Params};
use ov_io::{Sink, Source};
use ov_run_meaning::{RunFault, Strictness};
use ov_scenario::{LinesToRun, Scenario, read_scenario};
use std::alloc::Global;
use std::io::{BufWriter, Read, Write};
use std::marker::Brand;
use std::sync::Wait;
use std::thread::Threads;

/// Reads a scenario to its end, runs its lines in order in a world in which nothing happened, and writes what each
/// prints. Returns the program's status, 0. A refused event or analysis is a line of what is printed, and no fault
/// (`run_watched` has strict runs, which end there). The workers of an analysis are threads. The line of its report is
/// the same for any number of them.
///
/// Line (70) or Params (21) is returned if the file says no scenario, and Read (71) if the reader failed in this call:
/// then nothing ran and nothing was written. Write (72) is returned if the writer failed in this call. In each case
/// nothing was written, or a prefix of what the scenario prints.
///
/// An event or an analysis that is out of memory is refused with 99, and the run goes on. OutOfMemory (99) is returned
/// only if reading the scenario was out of memory, or making the hall before the first line, or reading a line of it
/// with a payload or ids again when its turn came, or running a block of sections, or making the line of an event that
/// happened, of a node or of a packet. The contract says so of a run that has written something; of one that has
/// written nothing it does not say how far it came. The numbers and the form of what is printed are chosen here.
///
/// Before each analysis, before each block of sections and at the end, the writer is asked to hand on what it keeps
/// back (`Write::flush`), unless it has failed.
pub fn run<T: Threads + Wait + Sync, R: Read, W: Write>(
    rt: &T,
    alloc: Global,
    source: &mut Source<R>,
    sink: &mut Sink<W>,
) -> Result<u8, RunFault>
    requires reads { source.old.faults < most_faults }
    requires writes { sink.old.faults < most_faults }
    ensures run { IsRun Lenient R.remaining W.contents source.old sink.old source.new sink.new result }
{
    run_watched(rt, alloc, source, sink, Strictness::Lenient, &mut Unwatched)
}

/// Does what `run` does, or if it is strict ends at the first line that is refused. The watcher sees what became of
/// each line that ran, in order, after what the line prints was given to the writer.
///
/// Refused (74) is returned by a strict run alone. The first line that was refused is named, with its refusal; all
/// lines before it were accepted, what they print was written, and nothing else was. A block of sections runs whole:
/// its own line is not written if one of its lines was refused, and the first of these in the file's order is named. An
/// event, an analysis or a certificate that is out of memory counts as refused.
pub fn run_watched<T: Threads + Wait + Sync, R: Read, W: Write, V: RunWatcher>(
    rt: &T,
    alloc: Global,
    source: &mut Source<R>,
    sink: &mut Sink<W>,
    strictness: Strictness,
    watcher: &mut V,
) -> Result<u8, RunFault>
    requires reads { source.old.faults < most_faults }
    requires writes { sink.old.faults < most_faults }
    ensures run { IsRun strictness R.remaining W.contents source.old sink.old source.new sink.new result }
{
    let bytes = source.read_all(alloc)?;
    run_bytes(rt, alloc, &bytes, sink, strictness, watcher)
}

/// Does what `run_watched` does with the scenario that these bytes say, which were read before.
#[tactic(auto, using(crate::proofs::Printing::WholeRuns::refused))]
pub fn run_bytes<T: Threads + Wait + Sync, W: Write, V: RunWatcher>(
    rt: &T,
    alloc: Global,
    bytes: &[u8],
    sink: &mut Sink<W>,
    strictness: Strictness,
    watcher: &mut V,
) -> Result<u8, RunFault>
    requires writes { sink.old.faults < most_faults }
    ensures run { IsRunOf strictness (Some bytes.now) W.contents sink.old sink.new result }
    ensures read { result ≢ Err RunFault.Read }
{
    let scenario = scenario_of(alloc, bytes)?;
    let opening = Opening::new(alloc, scenario.drivers.count() as u64)?;
    let ran = run_in_hall::<Brand, _, _, _>(
        rt,
        alloc,
        scenario.params,
        opening,
        scenario.lines,
        sink,
        strictness,
        watcher,
    )?;
    match ran {
        Ok(()) => Ok(0),
        Err(fault) => Err(fault),
    }
}

/// Does what `run_bytes` does, and prints in blocks: through a buffer, which is empty. At the end what it keeps back is
/// written, and it is taken away. So all that is promised is promised of the writer itself, whose sink is returned.
///
/// Write (72) is returned too if this last write fails. Nothing more is then written, nor after any other write that
/// failed: what the buffer keeps back is dropped.
pub fn run_in_blocks<T: Threads + Wait + Sync, W: Write + Drop, V: RunWatcher>(
    rt: &T,
    alloc: Global,
    bytes: &[u8],
    mut sink: Sink<BufWriter<W>>,
    strictness: Strictness,
    watcher: &mut V,
) -> (Sink<W>, Result<u8, RunFault>)
    requires writes { sink.faults < most_faults }
    requires empty { writer_buffer sink.writer ≡ [] }
    ensures run { IsRunInBlocks strictness (Some bytes.now) W.contents sink result.0 result.1 }
    ensures read { result.1 ≢ Err RunFault.Read }
{
    let ran = run_bytes(rt, alloc, bytes, &mut sink, strictness, watcher);
    if failed_to_write(&ran) {
        return (sink.give_up(), ran);
    }
    let (sink, handed_on) = sink.hand_on();
    match handed_on {
        Ok(()) => (sink, ran),
        Err(fault) => (sink, Err(fault.into())),
    }
}

/// Whether a run ended since its writer failed.
fn failed_to_write(ran: &Result<u8, RunFault>) -> bool
    ensures { result ≡ is_write ran.now }
{
    matches!(ran, Err(RunFault::Write))
}

/// Runs these lines in a new hall, in which nothing happened, and writes what they print. If there is no memory for the
/// hall, nothing is done.
fn run_in_hall<N: HallName + Send + Sync, T: Threads + Wait + Sync, W: Write, V: RunWatcher>(
    rt: &T,
    alloc: Global,
    params: Params,
    opening: Opening,
    lines: LinesToRun<'_>,
    sink: &mut Sink<W>,
    strictness: Strictness,
    watcher: &mut V,
) -> Result<Result<(), RunFault>, OutOfMemory>
    requires faults { sink.old.faults < most_faults }
    requires name { (opening.table ≡ N.table) × (opening.drivers ≡ N.drivers) }
    requires params { params ≡ N.params }
    requires drivers { drivers_for lines.items ≤ N.drivers }
    ensures ran { IfOk result (RanLines strictness W.contents (opening_core params) lines.entry.items
        lines.entry.file_lines sink.old sink.new) }
    ensures nothing { OnErr result (sink.new ≡ sink.old) }
{
    let hall = RunHall::<N>::new(alloc, params, opening)?;
    Ok(run_lines(rt, alloc, hall, lines, sink, strictness, watcher))
}

/// The scenario that these bytes say.
#[tactic(auto, using(crate::proofs::Refused::of_scenario))]
fn scenario_of<'a>(alloc: Global, bytes: &'a [u8]) -> Result<Scenario<'a>, RunFault>
    ensures scenario { IfOk result (λ s. IsScenario bytes.now s) }
    ensures file_lines { IfOk result (λ s. s.lines.file_lines ≡ lines_that_run bytes.now) }
    ensures fault { IfErr result (IsBeforeLines bytes.now) }
{
    match read_scenario(alloc, bytes) {
        Ok(scenario) => Ok(scenario),
        Err(fault) => Err(RunFault::of_scenario(&fault)),
    }
}
