ghost use Rattle.std.specs.Prelude.{◌≡◌, None, IfOk, IfErr, OnErr, string_bytes};
ghost use Rattle.ov_even.specs.Answer.{IsAnswer};
ghost use Rattle.ov_net.specs.Journal.{AreLinks};
ghost use Rattle.ov_snap.specs.CoreState.{IsSound};
ghost use Rattle.ov_snap.specs.ReportState.{ReportState};
ghost use Rattle.ov_ids.specs.FaultOrder.{IsRefusedBy};
ghost use Rattle.ov_snap.specs.Refusals.{FilingJudged};
ghost use Rattle.ov_run.specs.Code.Recent.{HasAnswer};
ghost use Rattle.ov_run_meaning.specs.Printed.{report_line};
ghost use Rattle.ov_run_meaning.specs.Subjects.{members_of, IsReportOf, AnalysisJudged, WasAnalysed};
ghost use Rattle.ov_snap.specs.declared.refused_core_call.CoreFault.TheVariants.{OutOfMemory as out_of_memory};

use crate::hall_outside_sections::RunHall;
use crate::recent_analyses_to_reuse::RecentReports;
use ov_crew::{OpenGate, analyse_group_watched};
use ov_even::Unwatched;
use ov_hall::HallName;
use ov_ids::{NodeId, Seq, Workers};
use ov_net::LONGEST_JOURNAL;
use ov_run_meaning::{filed_report, members_of, report_line};
use ov_scenario::Subject;
use ov_snap::{Core, CoreFault, Report, Snapshot};
use std::alloc::Global;
use std::thread::Threads;

/// Analyses a subject by this number of workers and files the report; if a recent one is about the same graph and
/// group, its certificate is shared instead. Returns the line of the report, or the first applicable refusal, and then
/// nothing changed. The line is made before the report is filed, so that out of memory is a refusal too.
#[tactic(auto, using(ov_run_meaning::proofs::Reports::Filed::filing_refused))]
pub(crate) fn file_analysis<N: HallName, T: Threads + Sync>(
    rt: &T,
    alloc: Global,
    hall: &mut RunHall<N>,
    recent: &mut RecentReports,
    subject: &Subject,
    workers: Workers,
) -> Result<String, CoreFault>
    ensures analysed { IfOk result (λ line. (r : ReportState) × WasAnalysed hall.old subject.now r hall.new
        × (string_bytes line ≡ report_line r.moment r.cert r.graph r.members)) }
    ensures refused { IfErr result (IsRefusedBy out_of_memory (AnalysisJudged hall.old subject.now)) }
    ensures err { OnErr result (hall.new ≡ hall.old) }
{
    let report = report_for(rt, alloc, hall.core(), recent, subject, workers)?;
    let line = report_line(alloc, report.moment(), report.checked())?;
    hall.file(report)?;
    Ok(line)
}

/// Makes the report of a subject, or shares a recent one. The report is not filed yet.
#[tactic(auto, using(ov_run_meaning::proofs::Reports::Filed::filed_refused))]
fn report_for<T: Threads + Sync>(
    rt: &T,
    alloc: Global,
    core: &Core,
    recent: &mut RecentReports,
    subject: &Subject,
    workers: Workers,
) -> Result<Report, CoreFault>
    ensures judged { IfOk result (λ r. AnalysisJudged core.now subject.now None) }
    ensures filing { IfOk result (λ r. FilingJudged core.now r None) }
    ensures moment { IfOk result (λ r. r.moment ≡ subject.now.moment) }
    ensures members { IfOk result (λ r. r.members ≡ members_of subject.now.group r.graph) }
    ensures answer { IfOk result (λ r. IsAnswer r.graph r.members r.cert) }
    ensures refused { IfErr result (IsRefusedBy out_of_memory (AnalysisJudged core.now subject.now)) }
{
    if let Some(_) = filed_report(core, subject) {
        return Err(CoreFault::AlreadyFiled);
    }
    let snapshot = begin(core, subject)?;
    report_about(rt, alloc, &snapshot, recent, subject, workers)
}

/// Begins the analysis of a subject of which no report is filed.
fn begin(core: &Core, subject: &Subject) -> Result<Snapshot, CoreFault>
    requires free { (r : ReportState) → ¬ IsReportOf core.now subject.now r }
    ensures judged { IfOk result (λ snapshot. AnalysisJudged core.now subject.now None) }
    ensures moment { IfOk result (λ snapshot. snapshot.moment ≡ subject.now.moment) }
    ensures links { IfOk result (λ snapshot. AreLinks core.now.world.journal subject.now.moment snapshot.graph) }
    ensures sound { IsSound core.now }
    ensures refused { IfErr result (IsRefusedBy out_of_memory (AnalysisJudged core.now subject.now)) }
{
    prove!(core.world().journal().len() <= LONGEST_JOURNAL);
    match &subject.group {
        Some(ids) => core.begin_group(subject.moment, ids.as_slice()),
        None => core.begin(subject.moment),
    }
}

/// The report of a snapshot, which shares the certificate of a recent one that is about the same graph and group; if
/// there is none, it is made, and kept for later ones. The ids are a group of the snapshot's nodes, so that only memory
/// can be lacking.
pub(crate) fn report_about<T: Threads + Sync>(
    rt: &T,
    alloc: Global,
    snapshot: &Snapshot,
    recent: &mut RecentReports,
    subject: &Subject,
    workers: Workers,
) -> Result<Report, CoreFault>
    ensures moment { IfOk result (λ r. r.moment ≡ snapshot.now.moment) }
    ensures graph { IfOk result (λ r. r.graph ≡ snapshot.now.graph) }
    ensures members { IfOk result (λ r. r.members ≡ members_of subject.now.group snapshot.now.graph) }
    ensures answer { IfOk result (λ r. IsAnswer r.graph r.members r.cert) }
    ensures err { IfErr result (λ f. f ≡ out_of_memory) }
{
    let group = subject.group.as_ref().map(Seq::as_slice);
    let members = members_of(group, &snapshot.graph);
    if let Some(known) = recent.find(&snapshot.graph, members) {
        return Ok(known.again(snapshot.moment)?);
    }
    let report = make_report(rt, alloc, snapshot, members, workers)?;
    keep(recent, &report);
    Ok(report)
}

/// Keeps a report for later analyses, if there is memory for that.
fn keep(recent: &mut RecentReports, report: &Report)
    requires { HasAnswer report.now }
{
    if let Ok(shared) = report.again(report.moment()) {
        drop(recent.keep(shared));
    }
}

/// Makes the report of an analysis of these members of a snapshot. It shares the snapshot's graph.
fn make_report<T: Threads + Sync>(
    rt: &T,
    alloc: Global,
    snapshot: &Snapshot,
    members: &[NodeId],
    workers: Workers,
) -> Result<Report, CoreFault>
    ensures moment { IfOk result (λ r. r.moment ≡ snapshot.now.moment) }
    ensures graph { IfOk result (λ r. r.graph ≡ snapshot.now.graph) }
    ensures members { IfOk result (λ r. r.members ≡ members.now) }
    ensures answer { IfOk result (λ r. IsAnswer r.graph r.members r.cert) }
    ensures err { IfErr result (λ f. f ≡ out_of_memory) }
{
    let graph = snapshot.graph.share()?;
    match analyse_group_watched(
        rt,
        alloc,
        &graph,
        members,
        workers,
        &OpenGate,
        &mut Unwatched,
    ) {
        Ok(checked) => Ok(Report::new(alloc, snapshot.moment, checked.sharing(graph))?),
        Err(_) => Err(CoreFault::OutOfMemory),
    }
}
