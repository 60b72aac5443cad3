//! One section, whose lines a driver runs in order.
ghost use Rattle.std.specs.Prelude.{◌≡◌, ◌⊎◌, ◌↔◌, [], IfOk, IfErr, IsTrue, OnOk};
ghost use Rattle.ov_snap.specs.Logs.{core_made};
ghost use Rattle.ov_snap.specs.DriverSteps.{HasFiled, HasLooked};
ghost use Rattle.ov_ids.specs.FaultOrder.{IsRefusedBy};
ghost use Rattle.ov_snap.specs.Refusals.{FilingJudged};
ghost use Rattle.ov_snap.specs.ReportState.{ReportState};
ghost use Rattle.ov_snap.specs.declared.refused_core_call.CoreFault.TheVariants.{OutOfMemory as out_of_memory};
ghost use Rattle.ov_run_meaning.specs.Sections.{HasAnalysed, IsRefusedAnalysis, IsReportOn, RunsLine, is_event};
ghost use Rattle.ov_run_meaning.specs.Sections.{told_of};
ghost use Rattle.ov_run.specs.Code.Jobs.{HasRun};
ghost use Rattle.ov_run_meaning.specs.declared.line_run_outcome.LineOutcome.{LineOutcome as OutcomeOf};
ghost use Rattle.ov_scenario.specs.declared.line_of_section.Deed.TheVariants as deed;

use crate::line_outcome::ToldLine;
use crate::recent_analyses_to_reuse::RecentReports;
use crate::report_making_and_filing::report_about;
use crate::run_watcher::RanLine;
use ov_hall::{Hall, HallName, Pass};
use ov_ids::{OutOfMemory, Seq, Workers};
use ov_net::Event;
use ov_run_meaning::{LineOutcome, Refusal};
use ov_scenario::{Deed, SectionLine, Subject};
use ov_snap::{CoreFault, Snapshot};
use ov_words::{WORDS_PER_EVENT, Words};
use std::alloc::Global;
use std::marker::Model;
use std::sync::Wait;
use std::thread::Threads;

/// The lines of a section, with room for what is told of each. Contracts see the lines.
#[derive(Drop)]
pub(crate) struct Section<'a> {
    lines: Vec<SectionLine<'a>>,
    room: Vec<ToldLine<'a>>,
}

impl<'a> Model for Section<'a> {
    ghost use Rattle.std.specs.Prelude.{◌≡◌, ◌≤◌, List, [], length, vec_capacity};
    ghost use Rattle.ov_scenario.specs.Sections.{SectionLine};

    ghost Value = { List SectionLine };

    ghost view = { λ s. s.lines.items };

    ghost invariant = { λ s. (s.room.items ≡ []) × (length s.lines.items ≤ vec_capacity s.room) };
}

impl<'a> Section<'a> {
    /// A section of these lines. The room is made here, so that no line that runs can lack it.
    pub(crate) fn new(
        alloc: Global,
        lines: Seq<SectionLine<'a>>,
    ) -> Result<Section<'a>, OutOfMemory>
        ensures { IfOk result (λ section. section ≡ lines.entry) }
    {
        let lines = lines.into_vec();
        let room = Vec::with_capacity(alloc, lines.len())?;
        Ok(Section { lines, room })
    }

    /// Whether it has no line.
    pub(crate) fn is_empty(&self) -> bool
        ensures { IsTrue result ↔ self.now ≡ [] }
    {
        self.lines.is_empty()
    }
}

/// The pass of a driver, and the lines that it runs.
pub(crate) type Job<'a, N> = (Pass<N>, Section<'a>);

/// The pass of a driver after it ran its lines, and what came of each of them.
pub(crate) type Ran<'a, N> = (Pass<N>, Seq<ToldLine<'a>>);

/// Runs the lines of a section in order. Nothing is allocated for what is told of them. Its analyses share the
/// certificates of the section's own recent reports.
pub(crate) fn run_section<'a, N: HallName, T: Threads + Wait + Sync>(
    rt: &T,
    alloc: Global,
    hall: &Hall<N>,
    job: Job<'a, N>,
) -> Ran<'a, N>
    ensures { HasRun N.params job.entry result }
{
    let (mut pass, section) = job;
    let Section { lines, room } = section;
    let mut told = room;
    let mut recent = RecentReports::new(alloc);
    let mut words = Words::new([0; WORDS_PER_EVENT]);
    for line in lines {
        let (one, next) = run_line(rt, alloc, hall, pass, line, &mut recent, &mut words);
        pass = next;
        told.push_reserved(one);
    }
    (pass, Seq::new(told))
}

/// Runs one line, and returns what is told of it. The words become those of an event that runs.
fn run_line<'a, N: HallName, T: Threads + Wait + Sync>(
    rt: &T,
    alloc: Global,
    hall: &Hall<N>,
    pass: Pass<N>,
    line: SectionLine<'a>,
    recent: &mut RecentReports,
    words: &mut Words,
) -> (ToldLine<'a>, Pass<N>)
    ensures { (outcome : OutcomeOf) × RunsLine N.params pass line.entry.deed outcome result.1
        × (result.0 ≡ told_of line.entry outcome) }
{
    let SectionLine { number, text, deed } = line;
    let is_event = is_event(&deed);
    let (outcome, pass) = run_deed(rt, alloc, hall, pass, deed, recent, words);
    let line = RanLine {
        number,
        text,
        is_event,
    };
    (ToldLine { line, outcome }, pass)
}

/// Whether a line is an event.
fn is_event(deed: &Deed<'_>) -> bool
    ensures { result ≡ is_event deed.now }
{
    match deed {
        Deed::Event { .. } => true,
        Deed::Analyse { .. } => false,
    }
}

/// Does what a line says, or refuses it. The words become those of an event.
fn run_deed<N: HallName, T: Threads + Wait + Sync>(
    rt: &T,
    alloc: Global,
    hall: &Hall<N>,
    pass: Pass<N>,
    deed: Deed<'_>,
    recent: &mut RecentReports,
    words: &mut Words,
) -> (LineOutcome, Pass<N>)
    ensures { RunsLine N.params pass deed.entry result.0 result.1 }
{
    match deed {
        Deed::Event { event, words: own } => {
            own.write_to(words);
            run_event(rt, hall, pass, event, words)
        }
        Deed::Analyse { moment } => run_analysis(rt, alloc, hall, pass, moment, recent),
    }
}

/// Does an event, or refuses it.
fn run_event<N: HallName>(
    rt: &impl Wait,
    hall: &Hall<N>,
    pass: Pass<N>,
    event: Event,
    words: &Words,
) -> (LineOutcome, Pass<N>)
    ensures { RunsLine N.params pass (deed.Event event words.now) result.0 result.1 }
{
    let (answer, pass) = hall.take_event(rt, pass, event, words);
    match answer {
        Ok(()) => (LineOutcome::Accepted, pass),
        Err(fault) => (LineOutcome::Refused(Refusal::World(fault)), pass),
    }
}

/// Analyses all nodes of a moment and files the report, or refuses.
fn run_analysis<N: HallName, T: Threads + Wait + Sync>(
    rt: &T,
    alloc: Global,
    hall: &Hall<N>,
    pass: Pass<N>,
    moment: u32,
    recent: &mut RecentReports,
) -> (LineOutcome, Pass<N>)
    ensures { RunsLine N.params pass (deed.Analyse moment) result.0 result.1 }
{
    let (filed, pass) = analyse(rt, alloc, hall, pass, moment, recent);
    match filed {
        Ok(()) => (LineOutcome::Accepted, pass),
        Err(fault) => (LineOutcome::Refused(Refusal::Core(fault)), pass),
    }
}

/// Analyses all nodes of a moment and files the report. The analysis itself goes on without the lock.
fn analyse<N: HallName, T: Threads + Wait + Sync>(
    rt: &T,
    alloc: Global,
    hall: &Hall<N>,
    pass: Pass<N>,
    moment: u32,
    recent: &mut RecentReports,
) -> (Result<(), CoreFault>, Pass<N>)
    ensures filed { OnOk result.0 (HasAnalysed N.params pass moment result.1) }
    ensures refused { IfErr result.0 (λ fault. IsRefusedAnalysis N.params pass moment fault result.1) }
{
    let (begun, pass) = hall.begin(rt, pass, moment);
    match begun {
        Ok(snapshot) => file_report(rt, alloc, hall, pass, &snapshot, recent),
        Err(fault) => (Err(fault), pass),
    }
}

/// Makes the report on a snapshot, and files it. If there is no memory to make it, the pass has not changed.
fn file_report<N: HallName, T: Threads + Wait + Sync>(
    rt: &T,
    alloc: Global,
    hall: &Hall<N>,
    pass: Pass<N>,
    snapshot: &Snapshot,
    recent: &mut RecentReports,
) -> (Result<(), CoreFault>, Pass<N>)
    ensures filed { OnOk result.0
        ((r : ReportState) × IsReportOn snapshot.now r × HasFiled N.params pass r result.1) }
    ensures refused { IfErr result.0 (λ fault. ((fault ≡ out_of_memory) × (result.1 ≡ pass))
        ⊎ ((r : ReportState) × IsReportOn snapshot.now r
        × IsRefusedBy out_of_memory (FilingJudged (core_made N.params result.1.seen) r) fault
        × HasLooked pass result.1)) }
{
    let subject = Subject {
        moment: snapshot.moment,
        group: None,
    };
    match report_about(rt, alloc, snapshot, recent, &subject, Workers::ONE) {
        Ok(report) => hall.file(rt, pass, report),
        Err(fault) => (Err(fault), pass),
    }
}
