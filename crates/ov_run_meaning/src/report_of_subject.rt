//! What a scenario analyses: the group that is asked for, and the report that is filed of it.
ghost use Rattle.std.specs.Prelude.{◌≡◌, IfSome, IfNone, option_map};
ghost use Rattle.ov_run_meaning.specs.Subjects.{IsReportOf, members_of};
ghost use Rattle.ov_snap.specs.ReportState.{IsTrueReport, ReportState};

use ov_graph::Graph;
use ov_ids::NodeId;
use ov_scenario::Subject;
use ov_snap::{Core, Report};

/// The group that is asked for, or all nodes of the graph.
pub fn members_of<'a>(group: Option<&'a [NodeId]>, graph: &'a Graph) -> &'a [NodeId]
    ensures { result.now ≡ members_of (option_map (λ ids. ids.now) group.entry) graph.now }
{
    match group {
        Some(ids) => ids,
        None => graph.nodes(),
    }
}

/// The report that is filed for a subject, if there is one. What it says is true.
pub fn filed_report<'a>(core: &'a Core, subject: &Subject) -> Option<&'a Report>
    ensures some { IfSome result (λ r. IsReportOf core.now subject.now r.now) }
    ensures none { IfNone result ((r : ReportState) → ¬ IsReportOf core.now subject.now r) }
    ensures exact { IfSome result (λ r. IsTrueReport core.now.world.journal r.now) }
{
    match &subject.group {
        Some(ids) => core.group_report(subject.moment, ids.as_slice()),
        None => core.report(subject.moment),
    }
}
