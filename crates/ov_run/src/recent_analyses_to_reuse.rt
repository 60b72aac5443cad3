//! Reports of the last analyses of a run, whose certificates later analyses of the same graph and group share.
ghost use Rattle.std.specs.Prelude.{◌≡◌, [], ◌∷◌, ◌↔◌, IfSome, IfNone, OnOk, OnErr, IsTrue};
ghost use Rattle.ov_ids.specs.Members.{Has};
ghost use Rattle.ov_run.specs.Code.Recent.{HasAnswer, IsReportAbout, newest_reports};
ghost use Rattle.ov_snap.specs.ReportState.{ReportState};

use ov_graph::Graph;
use ov_ids::{NodeId, OutOfMemory};
use ov_snap::Report;
use std::alloc::Global;
use std::marker::Model;

/// How many reports are kept. Chosen here.
const MOST_RECENT: usize = 64;

/// Reports of the last analyses, the newest first. Contracts see the list of them. Each has the answer of an analysis.
pub(crate) struct RecentReports {
    reports: Vec<Report>,
}

impl Drop for RecentReports {
    /// Drops the parts. It is written by hand since a call is proved faster than the same drops at each exit.
    fn drop(self) {
        let RecentReports { reports: _ } = self;
    }
}

impl Model for RecentReports {
    ghost use Rattle.std.specs.Prelude.{All, List};
    ghost use Rattle.std.specs.Coded.{coded_list};
    ghost use Rattle.ov_run.specs.Code.Recent.{HasAnswer};
    ghost use Rattle.ov_snap.specs.ReportState.{ReportState};
    ghost use Rattle.ov_snap.specs.contracts.analysis_report.Report as report;

    ghost Value = { List ReportState };

    ghost coded = { coded_list report.the_row.coded };

    ghost view = { λ a. a.reports.items };

    ghost invariant = { λ a. All HasAnswer a.reports.items };
}

impl RecentReports {
    /// No report is kept. Nothing is allocated.
    pub(crate) fn new(alloc: Global) -> RecentReports
        ensures { result ≡ [] }
    {
        RecentReports {
            reports: Vec::new(alloc),
        }
    }

    /// A kept report about this graph and this group, if there is one.
    pub(crate) fn find(&self, graph: &Graph, group: &[NodeId]) -> Option<&Report>
        ensures about { IfSome result (λ r. IsReportAbout graph.now group.now r.now) }
        ensures answer { IfSome result (λ r. HasAnswer r.now) }
        ensures none { IfNone result ((r : ReportState) → Has self.now r → ¬ IsReportAbout graph.now group.now r) }
    {
        let mut left = self.reports.as_slice();
        while let Some((first, rest)) = left.split_first() {
            if is_about(first, graph, group) {
                return Some(first);
            }
            left = rest;
        }
        None
    }

    /// Keeps one more report. If 64 were kept, the oldest goes. Out of memory (99), nothing changes.
    pub(crate) fn keep(&mut self, report: Report) -> Result<(), OutOfMemory>
        requires { HasAnswer report }
        ensures kept { OnOk result (self.new ≡ newest_reports (report ∷ self.old)) }
        ensures err { OnErr result (self.new ≡ self.old) }
    {
        self.reports.insert(0, report)?;
        self.reports.truncate(MOST_RECENT);
        Ok(())
    }
}

/// Whether a report is about this graph and this group.
fn is_about(report: &Report, graph: &Graph, group: &[NodeId]) -> bool
    ensures { IsTrue result ↔ IsReportAbout graph.now group.now report.now }
{
    has_group(report, group) && report.checked().graph().is_same(graph)
}

/// Whether a report is about this group.
fn has_group(report: &Report, group: &[NodeId]) -> bool
    ensures { IsTrue result ↔ report.now.members ≡ group.now }
{
    report.checked().members() == group
}
