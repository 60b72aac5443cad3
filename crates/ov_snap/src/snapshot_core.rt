ghost use Rattle.std.specs.Prelude.{◌≡◌, ◌↔◌, length, None, Some, IfOk, IfErr, IfSome, IfNone, OnOk, OnErr, IsTrue};
ghost use Rattle.ov_ids.specs.FaultOrder.{IsRefusedBy};
ghost use Rattle.ov_graph.specs.Links.{IsGroup};
ghost use Rattle.ov_cert.specs.Valid.{IsValidForGroup};
ghost use Rattle.ov_net.specs.Journal.{AreLinks};
ghost use Rattle.ov_net.specs.Refusals.{IsRefusal};
ghost use Rattle.ov_net.specs.declared.event.Event.TheVariants as told;
ghost use Rattle.ov_net.specs.declared.journal_entry_and_changes.Entry.{Entry as EntryOf};
ghost use Rattle.ov_snap.specs.CoreState.{HasReport, HasReportOfAll, IsSound, opening_core};
ghost use Rattle.ov_snap.specs.ReportState.{IsTrueReport, ReportState};
ghost use Rattle.ov_snap.specs.Filing.{WasFiled};
ghost use Rattle.ov_snap.specs.Refusals.{BeginJudged, FilingJudged, GroupBeginJudged};
ghost use Rattle.ov_snap.specs.Run.{Happened, TookSnapshot};
ghost use Rattle.ov_snap.specs.Snapshots.{AreSnapshots, IsMoment};
ghost use Rattle.ov_snap.specs.declared.refused_core_call.CoreFault.TheVariants.{NoSuchMoment};
ghost use Rattle.ov_snap.specs.declared.refused_core_call.CoreFault.TheVariants.{OutOfMemory as out_of_memory};

use crate::analysis_report::Report;
use crate::kept_snapshots::{Snapshot, find, make_room};
use crate::refused_core_call::CoreFault;
use crate::reports_by_moment_and_group::Reports;
use ov_cert::SharedGraph;
use ov_even::GroupDesk;
use ov_ids::{NodeId, OutOfMemory, Params};
use ov_net::{Entry, Event, NetFault, World};
use ov_words::{WORDS_PER_EVENT, Words};
use std::alloc::Global;
use std::marker::Model;

/// A world, the snapshots of its links, the desks at which they are analysed, and the reports that are filed of them.
/// In every core each desk is sound for the links of its moment, and what each report says is true.
pub struct Core {
    pub(crate) world: World,
    pub(crate) snapshots: Vec<Snapshot>,
    pub(crate) desks: Vec<GroupDesk>,
    pub(crate) reports: Reports,
}

impl Drop for Core {
    /// Drops the parts. It is written by hand since a call is proved faster than the same drops at each exit.
    fn drop(self) {
        let Core {
            world: _,
            snapshots: _,
            desks: _,
            reports: _,
        } = self;
    }
}

impl Model for Core {
    ghost use Rattle.ov_snap.specs.CoreState.{CoreState, IsSound};
    ghost use Rattle.ov_snap.specs.Code.Codes.{core_code};

    ghost Value = { CoreState };

    ghost coded = { core_code };

    ghost use Rattle.ov_snap.specs.Code.Kept.{core_of};

    ghost view = { core_of };

    ghost invariant = { λ a. IsSound (core_of a) };
}

impl Core {
    /// A core in which nothing happened. Nothing is allocated.
    pub fn new(alloc: Global, params: Params) -> Core
        ensures { result ≡ opening_core params }
    {
        Core {
            world: World::new(alloc, params),
            snapshots: Vec::new(alloc),
            desks: Vec::new(alloc),
            reports: Reports::new(alloc),
        }
    }

    /// The world. The snapshots of the core are those of its journal, each desk is sound for the links of its moment,
    /// and what each report says is true.
    pub fn world(&self) -> &World
        ensures value { result.now ≡ self.now.world }
        ensures sound { IsSound self.now }
    {
        &self.world
    }

    /// The snapshots, in the order of their moments: each moment has one, with the links of that moment.
    pub fn snapshots(&self) -> &[Snapshot]
        ensures value { result.now ≡ self.now.snapshots }
        ensures kept { AreSnapshots self.now.world.journal result.now }
    {
        &self.snapshots
    }

    /// Takes one event, as the world does, with the random words by which it makes its choices. The links of a snapshot
    /// are kept. Returns the event's entry, or why it is refused: the first applicable refusal of the world (10 to 20,
    /// see `NetFault`), or out of memory (99) if none applies. What is refused changes nothing.
    pub fn step(&mut self, event: Event, words: &Words) -> Result<Entry, NetFault>
        ensures happened { IfOk result (λ e. Happened self.old event words.now e self.new) }
        ensures refused { IfErr result (λ f. IsRefusal self.old.world.net (length self.old.world.journal) event f) }
        ensures err { OnErr result (self.new ≡ self.old) }
    {
        if is_snapshot(&event) {
            return self.take_snapshot(words);
        }
        self.world.step(event, words)
    }

    /// Takes one event as `step` does, with the same faults, and copies nothing of its entry, which is the last of the
    /// journal then.
    pub fn take_event(&mut self, event: Event, words: &Words) -> Result<(), NetFault>
        ensures happened { OnOk result ((e : EntryOf) × Happened self.old event words.now e self.new) }
        ensures refused { IfErr result (λ f. IsRefusal self.old.world.net (length self.old.world.journal) event f) }
        ensures err { OnErr result (self.new ≡ self.old) }
    {
        if is_snapshot(&event) {
            self.take_snapshot(words)?;
            return Ok(());
        }
        self.world.take_event(event, words)
    }

    /// Takes a snapshot: the event of that name, with random words that are all zero. Returns the snapshot's moment,
    /// which is the number of its entry, or why it is refused: the journal is full (16), or out of memory (99). What is
    /// refused changes nothing.
    pub fn snapshot(&mut self) -> Result<u32, NetFault>
        ensures happened { IfOk result (λ m. TookSnapshot self.old m self.new) }
        ensures refused { IfErr result
            (λ f. IsRefusal self.old.world.net (length self.old.world.journal) told.Snapshot f) }
        ensures err { OnErr result (self.new ≡ self.old) }
    {
        let entry = self.take_snapshot(&Words::new([0; WORDS_PER_EVENT]))?;
        Ok(entry.number)
    }

    /// Takes a snapshot event. It changes no view, so its links are those of the moment before. They are made, and room
    /// for them, before anything changes.
    fn take_snapshot(&mut self, words: &Words) -> Result<Entry, NetFault>
        ensures happened { IfOk result (λ e. Happened self.old told.Snapshot words.now e self.new) }
        ensures refused { IfErr result
            (λ f. IsRefusal self.old.world.net (length self.old.world.journal) told.Snapshot f) }
        ensures err { OnErr result (self.new ≡ self.old) }
    {
        if self.world.journal().len() >= self.world.params().scale().most_entries() {
            return Err(NetFault::TooManyEntries);
        }
        let graph = self.links_now()?;
        make_room(&mut self.snapshots)?;
        let entry = self.world.step(Event::Snapshot, words)?;
        let moment = entry.number;
        self.snapshots.push_reserved(Snapshot { moment, graph });
        Ok(entry)
    }

    /// The links that both ends hold now. If they are those of the last snapshot, its graph is shared, and otherwise
    /// they are made. If no change was told since that snapshot, the graphs need not be compared.
    fn links_now(&self) -> Result<SharedGraph, OutOfMemory>
        ensures { IfOk result (λ g. AreLinks self.now.world.journal (length self.now.world.journal) g) }
    {
        if let Some(last) = self.snapshots.last() {
            if last.moment >= self.world.links_since() {
                return last.graph.share();
            }
            if let Some(graph) = self.world.kept_graph() {
                if last.graph.is_same(graph) {
                    return last.graph.share();
                }
            }
        }
        SharedGraph::new(*self.snapshots.allocator(), self.world.links()?)
    }

    /// What an analysis of all nodes of this moment is given. Its graph is that of the snapshot, shared and not copied.
    /// It is refused if no snapshot was taken at this moment (50), and then if nobody lived (30); if neither applies,
    /// it may be out of memory (99).
    pub fn begin(&self, moment: u32) -> Result<Snapshot, CoreFault>
        ensures judged { IfOk result (λ snapshot. BeginJudged self.now moment None) }
        ensures moment { IfOk result (λ snapshot. snapshot.moment ≡ moment) }
        ensures links { IfOk result (λ snapshot. AreLinks self.now.world.journal moment snapshot.graph) }
        ensures refused { IfErr result (IsRefusedBy out_of_memory (BeginJudged self.now moment)) }
    {
        let snapshot = self.lived(moment)?;
        Ok(snapshot.copy()?)
    }

    /// What an analysis of a group of the nodes of this moment is given. Its graph is that of the snapshot, shared and
    /// not copied. It is refused if no snapshot was taken at this moment (50), then if nobody lived (30), and then if
    /// these ids are no group of the moment's graph (34); if none of these applies, it may be out of memory (99).
    pub fn begin_group(&self, moment: u32, group: &[NodeId]) -> Result<Snapshot, CoreFault>
        ensures judged { IfOk result (λ snapshot. GroupBeginJudged self.now moment group.now None) }
        ensures moment { IfOk result (λ snapshot. snapshot.moment ≡ moment) }
        ensures links { IfOk result (λ snapshot. AreLinks self.now.world.journal moment snapshot.graph) }
        ensures group { IfOk result (λ snapshot. IsGroup snapshot.graph group.now) }
        ensures refused { IfErr result (IsRefusedBy out_of_memory (GroupBeginJudged self.now moment group.now)) }
    {
        let snapshot = self.lived(moment)?;
        if !snapshot.graph.is_group(group) {
            return Err(CoreFault::BadGroup);
        }
        Ok(snapshot.copy()?)
    }

    /// Files a report for its moment and group, for good: no call takes it away. It is refused if no snapshot was taken
    /// at this moment (50), then if the graph is another one than that of the moment (51), and then if a report is
    /// filed for this moment and group (52); if none of these applies, it may be out of memory (99). What is refused
    /// changes nothing.
    pub fn file(&mut self, report: Report) -> Result<(), CoreFault>
        ensures filed { OnOk result (WasFiled self.old report self.new) }
        ensures refused { IfErr result (IsRefusedBy out_of_memory (FilingJudged self.old report)) }
        ensures err { OnErr result (self.new ≡ self.old) }
    {
        self.judge_report(&report)?;
        self.reports.push(report)?;
        Ok(())
    }

    /// The first applicable refusal of filing a report (50, 51, 52, as `file` has them), but out of memory. Nothing
    /// changes. If none applies, filing the report next may end in out of memory (99) only.
    pub fn judge_report(&self, report: &Report) -> Result<(), CoreFault>
        ensures ok { OnOk result (FilingJudged self.now report.now None) }
        ensures valid { OnOk result (IsValidForGroup report.now.graph report.now.members report.now.cert) }
        ensures err { IfErr result (λ f. FilingJudged self.now report.now (Some f)) }
    {
        let snapshot = self.kept(report.moment())?;
        let checked = report.checked();
        if !checked.graph().is_same(&snapshot.graph) {
            return Err(CoreFault::OtherGraph);
        }
        if self
            .group_report(report.moment(), checked.members())
            .is_some()
        {
            return Err(CoreFault::AlreadyFiled);
        }
        Ok(())
    }

    /// The snapshot of this moment, or that there is none.
    pub(crate) fn kept(&self, moment: u32) -> Result<&Snapshot, CoreFault>
        ensures ok { IfOk result (λ s. IsMoment self.now.world.journal moment
            × AreLinks self.now.world.journal moment s.now.graph) }
        ensures moment { IfOk result (λ s. s.now.moment ≡ moment) }
        ensures err { IfErr result (λ f. (f ≡ NoSuchMoment) × ¬ IsMoment self.now.world.journal moment) }
        ensures sound { IsSound self.now }
    {
        match find(&self.snapshots, moment) {
            Some(snapshot) => Ok(snapshot),
            None => Err(CoreFault::NoSuchMoment),
        }
    }

    /// The snapshot of this moment, at which somebody lived, or the first applicable refusal.
    pub(crate) fn lived(&self, moment: u32) -> Result<&Snapshot, CoreFault>
        ensures ok { IfOk result (λ s. BeginJudged self.now moment None) }
        ensures links { IfOk result (λ s. AreLinks self.now.world.journal moment s.now.graph) }
        ensures moment { IfOk result (λ s. s.now.moment ≡ moment) }
        ensures err { IfErr result (λ f. BeginJudged self.now moment (Some f)) }
    {
        let snapshot = self.kept(moment)?;
        if snapshot.graph.nodes().is_empty() {
            return Err(CoreFault::NoNodes);
        }
        Ok(snapshot)
    }

    /// The report that is filed for this moment and group, if there is one. What it says is true.
    pub fn group_report(&self, moment: u32, group: &[NodeId]) -> Option<&Report>
        ensures some { IfSome result (λ r. HasReport self.now moment group.now r.now) }
        ensures none { IfNone result ((r : ReportState) → ¬ HasReport self.now moment group.now r) }
        ensures is_true { IfSome result (λ r. IsTrueReport self.now.world.journal r.now) }
    {
        self.reports.find(moment, group)
    }

    /// The report that is filed for this moment and the group of all its nodes, if there is one. What it says is true.
    pub fn report(&self, moment: u32) -> Option<&Report>
        ensures some { IfSome result (λ r. HasReportOfAll self.now moment r.now) }
        ensures none { IfNone result ((r : ReportState) → ¬ HasReportOfAll self.now moment r) }
        ensures is_true { IfSome result (λ r. IsTrueReport self.now.world.journal r.now) }
    {
        match self.kept(moment) {
            Ok(snapshot) => self.group_report(moment, snapshot.graph.nodes()),
            Err(_) => None,
        }
    }
}

/// Whether an event is a snapshot.
fn is_snapshot(what: &Event) -> bool
    ensures { IsTrue result ↔ what.now ≡ told.Snapshot }
{
    matches!(what, Event::Snapshot)
}
