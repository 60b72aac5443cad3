ghost use Rattle.std.specs.Prelude.{◌≡◌, ◌<◌, ◌≤◌, ◌+◌, ◌-◌, length, slice_get, None, Some, IfOk, IfErr, OnErr};
ghost use Rattle.std.specs.Prelude.{IsErrOf};
ghost use Rattle.ov_io.specs.Device.{AppendsPrefixOf, most_faults, write_faults as sink_faults, write_number};
ghost use Rattle.ov_net.specs.declared.journal_entry_and_changes.Entry.{Entry as EntryOf};
ghost use Rattle.ov_snap.specs.Run.{Happened};
ghost use Rattle.ov_run_meaning.specs.Accepting.{DoesEvent, FilesReport, RefusesAnalysis, RefusesEvent};
ghost use Rattle.ov_run_meaning.specs.Faults.{write_faults};
ghost use Rattle.ov_run_meaning.specs.Writing.{IsOfWriting, WritesOutcome, WritesPrefix};
ghost use Rattle.ov_run.specs.Code.Outcomes.{LineRan, RanAsBlock, RanLines, WritesRest, is_event_line, rest_of};
ghost use Rattle.ov_run.specs.Code.Outcomes.{stop_of};
ghost use Rattle.ov_run.specs.Code.Jobs.{HasDrivers};
ghost use Rattle.ov_scenario.specs.RunLines.{drivers_for};
ghost use Rattle.ov_scenario.specs.declared.scenario.Line.TheVariants as kind;

use crate::hall_outside_sections::RunHall;
use crate::line_outcome::{BlockTold, Came, ToldLine, write_rest};
use crate::recent_analyses_to_reuse::RecentReports;
use crate::report_making_and_filing::file_analysis;
use crate::run_watcher::{RanLine, RunWatcher};
use crate::sections_at_once::{BlockRan, run_together};
use ov_hall::HallName;
use ov_ids::{OutOfMemory, Seq, Workers};
use ov_io::{Sink, WriteFault};
use ov_net::{Entry, Event};
use ov_run_meaning::{
    LineOutcome, Refusal, RunFault, Strictness, write_done, write_entry, write_look,
};
use ov_scenario::{Line, LineToRun, LinesToRun, Look, SectionLine, Subject};
use ov_snap::Core;
use ov_words::{WORDS_PER_EVENT, Words};
use std::alloc::Global;
use std::io::Write;
use std::sync::Wait;
use std::thread::Threads;

/// Runs these lines in this hall, and writes what they print. The watcher sees what became of each, after that. A
/// strict run ends at the first line that is refused. The writer is then asked to hand on what it keeps back, unless it
/// has failed.
pub(crate) fn run_lines<
    N: HallName + Send + Sync,
    T: Threads + Wait + Sync,
    W: Write,
    V: RunWatcher,
>(
    rt: &T,
    alloc: Global,
    hall: RunHall<N>,
    lines: LinesToRun<'_>,
    sink: &mut Sink<W>,
    strictness: Strictness,
    watcher: &mut V,
) -> Result<(), RunFault>
    requires faults { sink.old.faults < most_faults }
    requires drivers { drivers_for lines.items ≤ N.drivers }
    ensures ran { RanLines strictness W.contents hall lines.entry.items lines.entry.file_lines sink.old sink.new
        result }
{
    let ran = run_each(rt, alloc, hall, lines, sink, strictness, watcher);
    if let Err(RunFault::Write) = ran {
        return ran;
    }
    sink.flush()?;
    ran
}

/// Runs these lines in this hall, and writes what they print. Each is read when its turn comes.
fn run_each<N: HallName + Send + Sync, T: Threads + Wait + Sync, W: Write, V: RunWatcher>(
    rt: &T,
    alloc: Global,
    mut hall: RunHall<N>,
    lines: LinesToRun<'_>,
    sink: &mut Sink<W>,
    strictness: Strictness,
    watcher: &mut V,
) -> Result<(), RunFault>
    requires faults { sink.old.faults < most_faults }
    requires drivers { drivers_for lines.items ≤ N.drivers }
    ensures ran { RanLines strictness W.contents hall lines.entry.items lines.entry.file_lines sink.old sink.new
        result }
{
    let mut recent = RecentReports::new(alloc);
    let mut words = Words::new([0; WORDS_PER_EVENT]);
    let mut left = lines;
    while let Some(next) = left.next_line(alloc)? {
        let ran = ran_line(&next);
        let (came, after) = run_line(rt, alloc, hall, &mut recent, &mut words, next.line, sink)?;
        hall = after;
        let stop = settle(strictness, ran.number, &came, sink)?;
        tell(watcher, hall.core(), &ran, came);
        if let Some((line, refusal)) = stop {
            return Err(RunFault::Refused { line, refusal });
        }
    }
    Ok(())
}

/// The line of the file that asks for a line to run.
fn ran_line<'a>(next: &LineToRun<'a>) -> RanLine<'a>
    ensures number { result.number ≡ next.now.number }
    ensures text { result.text.now ≡ next.now.text.now }
    ensures event { result.is_event ≡ is_event_line next.now.line }
{
    RanLine {
        number: next.number,
        text: next.text,
        is_event: matches!(&next.line, Line::Event { .. }),
    }
}

/// Writes what is still to be written of a line that ran and has this number. If a strict run ends at it, nothing is
/// written, and the number of the line that was refused is returned, with its refusal.
fn settle<W: Write>(
    strictness: Strictness,
    number: usize,
    came: &Came<'_>,
    sink: &mut Sink<W>,
) -> Result<Option<(usize, Refusal)>, WriteFault>
    requires faults { sink.old.faults < most_faults }
    ensures stop { IfOk result (λ stop. stop ≡ stop_of strictness number came.now) }
    ensures goes_on { OnErr result (stop_of strictness number came.now ≡ None) }
    ensures bytes { IfOk result (λ stop. WritesRest (W.contents sink.old.writer) (W.contents sink.new.writer) came.now
        stop) }
    ensures prefix { OnErr result
        (AppendsPrefixOf (rest_of came.now) (W.contents sink.old.writer) (W.contents sink.new.writer)) }
    ensures faults { sink.new.faults ≡ sink.old.faults + sink_faults write_number result }
{
    if let Strictness::Strict = strictness {
        if let Some(stop) = came.refused(number) {
            return Ok(Some(stop));
        }
    }
    write_rest(came, sink)?;
    Ok(None)
}

/// Shows a watcher what became of a line that ran.
fn tell<V: RunWatcher>(watcher: &mut V, core: &Core, line: &RanLine<'_>, came: Came<'_>) {
    match came {
        Came::Alone(LineOutcome::Accepted) => watcher.accepted(line),
        Came::Alone(LineOutcome::Refused(refusal)) => watcher.refused(core, line, refusal),
        Came::Block(block) => {
            watcher.accepted(line);
            tell_sections(watcher, block.told);
        }
    }
}

/// Shows a watcher what became of the lines of sections.
fn tell_sections<V: RunWatcher>(watcher: &mut V, told: Seq<Seq<ToldLine<'_>>>) {
    for section in told.into_vec() {
        tell_section(watcher, section.as_slice());
    }
}

/// Shows a watcher what became of the lines of one section.
fn tell_section<V: RunWatcher>(watcher: &mut V, told: &[ToldLine<'_>]) {
    for one in told {
        match one.outcome {
            LineOutcome::Accepted => watcher.accepted(&one.line),
            LineOutcome::Refused(refusal) => watcher.refused_in_section(&one.line, refusal),
        }
    }
}

/// What became of a line, and the hall after it.
type LineDone<'a, N> = (Came<'a>, RunHall<N>);

/// Runs one line, and returns what became of it. What an accepted line prints is written, unless it is a block. Before
/// an analysis or a block of sections, which may take long, the writer is asked to hand on what it keeps back. The
/// words become those of an event that runs.
fn run_line<'a, N: HallName + Send + Sync, T: Threads + Wait + Sync, W: Write>(
    rt: &T,
    alloc: Global,
    hall: RunHall<N>,
    recent: &mut RecentReports,
    words: &mut Words,
    line: Line<'a>,
    sink: &mut Sink<W>,
) -> Result<LineDone<'a, N>, RunFault>
    requires faults { sink.old.faults < most_faults }
    requires drivers { HasDrivers N.drivers line }
    ensures ran { LineRan W.contents hall line.entry (λ r. r.0) (λ r. r.1) sink.old sink.new result }
{
    match line {
        Line::Event { event, words: own } => {
            own.write_to(words);
            run_event_line(alloc, hall, event, words, sink)
        }
        Line::Look(look) => run_look_line(alloc, hall, look, sink),
        Line::Analyse { subject, workers } => {
            run_analysis_line(rt, alloc, hall, recent, &subject, workers, sink)
        }
        Line::Together(sections) => run_block_line(rt, alloc, hall, sections, sink),
    }
}

/// Runs the line of an event.
fn run_event_line<'a, N: HallName, W: Write>(
    alloc: Global,
    mut hall: RunHall<N>,
    event: Event,
    words: &Words,
    sink: &mut Sink<W>,
) -> Result<LineDone<'a, N>, RunFault>
    requires faults { sink.old.faults < most_faults }
    ensures ran { LineRan W.contents hall (kind.Event event words.now) (λ r. r.0) (λ r. r.1) sink.old sink.new
        result }
{
    let outcome = run_event(alloc, &mut hall, event, words, sink)?;
    Ok((Came::Alone(outcome), hall))
}

/// Runs the line of a look.
fn run_look_line<'a, N: HallName, W: Write>(
    alloc: Global,
    hall: RunHall<N>,
    look: Look,
    sink: &mut Sink<W>,
) -> Result<LineDone<'a, N>, RunFault>
    requires faults { sink.old.faults < most_faults }
    ensures ran { LineRan W.contents hall (kind.Look look) (λ r. r.0) (λ r. r.1) sink.old sink.new result }
{
    let outcome = write_look(alloc, hall.core(), look, sink)?;
    Ok((Came::Alone(outcome), hall))
}

/// Runs the line of an analysis, after what the writer keeps back was handed on.
fn run_analysis_line<'a, N: HallName, T: Threads + Sync, W: Write>(
    rt: &T,
    alloc: Global,
    mut hall: RunHall<N>,
    recent: &mut RecentReports,
    subject: &Subject,
    workers: Workers,
    sink: &mut Sink<W>,
) -> Result<LineDone<'a, N>, RunFault>
    requires faults { sink.old.faults < most_faults }
    ensures ran { LineRan W.contents hall (kind.Analyse subject.now workers) (λ r. r.0) (λ r. r.1) sink.old sink.new
        result }
{
    sink.flush()?;
    let outcome = run_analysis(rt, alloc, &mut hall, recent, subject, workers, sink)?;
    Ok((Came::Alone(outcome), hall))
}

/// Runs a block of sections, after what the writer keeps back was handed on.
fn run_block_line<'a, N: HallName + Send + Sync, T: Threads + Wait + Sync, W: Write>(
    rt: &T,
    alloc: Global,
    hall: RunHall<N>,
    sections: Seq<Seq<SectionLine<'a>>>,
    sink: &mut Sink<W>,
) -> Result<LineDone<'a, N>, RunFault>
    requires faults { sink.old.faults < most_faults }
    requires drivers { length sections ≤ N.drivers }
    ensures ran { LineRan W.contents hall (kind.Together sections.entry) (λ r. r.0) (λ r. r.1) sink.old sink.new
        result }
{
    sink.flush()?;
    let (block, hall) = run_block(rt, alloc, hall, sections)?;
    Ok((Came::Block(block), hall))
}

/// Runs the sections of a block at once, each by a driver of its own, and returns after all of them ended.
fn run_block<'a, N: HallName + Send + Sync, T: Threads + Wait + Sync>(
    rt: &T,
    alloc: Global,
    hall: RunHall<N>,
    sections: Seq<Seq<SectionLine<'a>>>,
) -> Result<(BlockTold<'a>, RunHall<N>), OutOfMemory>
    requires drivers { length sections ≤ N.drivers }
    ensures ran { IfOk result (λ r. RanAsBlock hall (kind.Together sections.entry) r.1 r.0) }
{
    let sections = sections.into_vec();
    let count = sections.len();
    let BlockRan {
        hall,
        told,
        accepted,
        refused,
    } = run_together(rt, alloc, hall, sections)?;
    let block = BlockTold {
        sections: count,
        told,
        accepted,
        refused,
    };
    Ok((block, hall))
}

/// Does an event, and writes its line, or refuses it. An event that is out of memory is refused as any other:
/// OutOfMemory is returned only if an event happened and its line can't be made.
fn run_event<N: HallName, W: Write>(
    alloc: Global,
    hall: &mut RunHall<N>,
    event: Event,
    words: &Words,
    sink: &mut Sink<W>,
) -> Result<LineOutcome, RunFault>
    requires faults { sink.old.faults < most_faults }
    ensures outcome { IfOk result (WritesOutcome (DoesEvent hall.old event words.now hall.new)
        (λ refusal. RefusesEvent hall.old event refusal × (hall.new ≡ hall.old))
        (W.contents sink.old.writer) (W.contents sink.new.writer)) }
    ensures begun { OnErr result (WritesPrefix (DoesEvent hall.old event words.now hall.new)
        (W.contents sink.old.writer) (W.contents sink.new.writer)) }
    ensures happened { IsErrOf result RunFault.OutOfMemory
        → (entry : EntryOf) × Happened hall.old event words.now entry hall.new }
    ensures nothing { IsErrOf result RunFault.OutOfMemory → sink.new ≡ sink.old }
    ensures faults { sink.new.faults ≡ sink.old.faults + write_faults result }
    ensures kind { IfErr result IsOfWriting }
{
    match hall.take_event(event, words) {
        Ok(_) => write_entry(alloc, last_entry(hall.core()), sink),
        Err(fault) => Ok(LineOutcome::Refused(Refusal::World(fault))),
    }
}

/// The last entry of the journal, which has one.
fn last_entry(core: &Core) -> &Entry
    requires { 0 < length core.now.world.journal }
    ensures { slice_get core.now.world.journal (length core.now.world.journal - 1) ≡ Some result.now }
{
    match core.world().journal().last() {
        Some(entry) => entry,
        None => unreachable!(),
    }
}

/// Analyses a subject by this number of workers, files the report and writes its line, or refuses. Out of memory is a
/// refusal, so that only the writer can fail.
fn run_analysis<N: HallName, T: Threads + Sync, W: Write>(
    rt: &T,
    alloc: Global,
    hall: &mut RunHall<N>,
    recent: &mut RecentReports,
    subject: &Subject,
    workers: Workers,
    sink: &mut Sink<W>,
) -> Result<LineOutcome, WriteFault>
    requires faults { sink.old.faults < most_faults }
    ensures outcome { IfOk result (WritesOutcome (FilesReport hall.old subject.now hall.new)
        (λ refusal. RefusesAnalysis hall.old subject.now refusal × (hall.new ≡ hall.old))
        (W.contents sink.old.writer) (W.contents sink.new.writer)) }
    ensures begun { OnErr result (WritesPrefix (FilesReport hall.old subject.now hall.new)
        (W.contents sink.old.writer) (W.contents sink.new.writer)) }
    ensures faults { sink.new.faults ≡ sink.old.faults + sink_faults write_number result }
{
    match file_analysis(rt, alloc, hall, recent, subject, workers) {
        Ok(line) => write_done(line.as_bytes(), sink),
        Err(fault) => Ok(LineOutcome::Refused(Refusal::Core(fault))),
    }
}
