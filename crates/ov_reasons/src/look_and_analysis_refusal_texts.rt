use crate::bad_group_texts::{first_stranger, push_unordered};
use crate::event_texts::push_node;
use crate::snapshot_moment_texts::push_no_snapshot;
use ov_ids::{NodeId, OutOfMemory};
use ov_net::NetFault;
use ov_scenario::Subject;
use ov_snap::{Core, CoreFault};
use std::alloc::AllocError;
use std::fmt::Write;

/// Appends why the analysis of a subject is refused for this fault. The core is as the analysis found it.
pub(crate) fn push_analysis_reason(
    text: &mut String,
    core: &Core,
    subject: &Subject,
    fault: CoreFault,
) -> Result<(), OutOfMemory> {
    let moment = subject.moment;
    match fault {
        CoreFault::BadGroup => push_bad_group(text, core, subject)?,
        CoreFault::NoNodes => write!(text, "nobody lived at moment {moment}")?,
        CoreFault::NoSuchMoment => push_no_snapshot(text, core.snapshots(), "", moment)?,
        CoreFault::AlreadyFiled => push_report(text, "a report", subject)?,
        _ => write!(text, "{fault}")?,
    }
    Ok(())
}

/// Appends why the group of a subject is refused.
fn push_bad_group(text: &mut String, core: &Core, subject: &Subject) -> Result<(), OutOfMemory> {
    match &subject.group {
        Some(ids) => push_bad_ids(text, core, subject.moment, ids.as_slice()),
        None => Ok(text.push_str("all nodes are no group")?),
    }
}

/// Appends why a node is not shown.
pub(crate) fn push_show_reason(
    text: &mut String,
    node: NodeId,
    fault: NetFault,
) -> Result<(), AllocError> {
    match fault {
        NetFault::UnknownNode => push_node(text, "no node ", node, " was born"),
        NetFault::CrashedNode => push_node(text, "node ", node, " crashed"),
        _ => write!(text, "{fault}"),
    }
}

/// Appends why the certificate of a subject is not printed. The core is as the look found it.
pub(crate) fn push_certificate_reason(
    text: &mut String,
    core: &Core,
    subject: &Subject,
    fault: CoreFault,
) -> Result<(), AllocError> {
    match fault {
        CoreFault::NoSuchMoment => {
            push_report(text, "no report", subject)?;
            push_no_snapshot(text, core.snapshots(), "; ", subject.moment)
        }
        _ => write!(text, "{fault}"),
    }
}

/// Appends that a report, or none, is filed of a subject.
fn push_report(text: &mut String, report: &str, subject: &Subject) -> Result<(), AllocError> {
    let moment = subject.moment;
    let group = match &subject.group {
        Some(_) => "this group",
        None => "all nodes",
    };
    write!(text, "{report} is filed of moment {moment} and {group}")
}

/// Appends why ids are refused as a group of the nodes that lived at a moment.
fn push_bad_ids(
    text: &mut String,
    core: &Core,
    moment: u32,
    ids: &[NodeId],
) -> Result<(), OutOfMemory> {
    if push_unordered(text, ids)? {
        return Ok(());
    }
    let Some(id) = first_absent(core, moment, ids)? else {
        return Ok(text.push_str("the analysis is refused")?);
    };
    push_node(text, "node ", id, " did not live at moment ")?;
    Ok(write!(text, "{moment}")?)
}

/// The first of these ids that did not live at a moment. None also if it is not known which nodes lived then.
fn first_absent(core: &Core, moment: u32, ids: &[NodeId]) -> Result<Option<NodeId>, OutOfMemory> {
    match core.begin(moment) {
        Ok(snapshot) => Ok(first_stranger(&snapshot.graph, ids)),
        Err(CoreFault::OutOfMemory) => Err(OutOfMemory),
        Err(_) => Ok(None),
    }
}
