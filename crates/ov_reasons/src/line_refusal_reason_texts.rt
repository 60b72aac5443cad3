use crate::event_texts::push_event_reason;
use crate::look_and_analysis_refusal_texts::{
    push_analysis_reason, push_certificate_reason, push_show_reason,
};
use ov_ids::OutOfMemory;
use ov_net::NetFault;
use ov_scenario::{Line, Look, line_asked_by};
use ov_snap::{Core, CoreFault};
use std::alloc::Global;
use std::fmt::Write;

/// Why the world refused a line of this text for this fault as it ran, as a sentence without a full stop. The core is
/// as the line found it. OutOfMemory (99) if an allocation is refused.
pub fn world_refusal_reason(
    alloc: Global,
    core: &Core,
    line: &[u8],
    fault: NetFault,
) -> Result<String, OutOfMemory> {
    let mut text = String::new(alloc);
    let asked = line_asked_by(alloc, line)?;
    match &asked {
        Some(Line::Event { event, .. }) => {
            push_event_reason(&mut text, core.world(), event, fault)?
        }
        Some(Line::Look(Look::Show(node))) => push_show_reason(&mut text, *node, fault)?,
        _ => write!(text, "{fault}")?,
    }
    Ok(text)
}

/// Why the core refused a line of this text for this fault as it ran, as a sentence without a full stop. The core is as
/// the line found it. OutOfMemory (99) if an allocation is refused.
pub fn core_refusal_reason(
    alloc: Global,
    core: &Core,
    line: &[u8],
    fault: CoreFault,
) -> Result<String, OutOfMemory> {
    let mut text = String::new(alloc);
    let asked = line_asked_by(alloc, line)?;
    match &asked {
        Some(Line::Analyse { subject, .. }) => {
            push_analysis_reason(&mut text, core, subject, fault)?
        }
        Some(Line::Look(Look::Certificate(subject))) => {
            push_certificate_reason(&mut text, core, subject, fault)?
        }
        _ => write!(text, "{fault}")?,
    }
    Ok(text)
}

/// The line that names a refused line of a file by its number, and says why it was refused. It ends with a line feed.
/// OutOfMemory (99) if an allocation is refused.
pub fn refusal_line(alloc: Global, number: usize, reason: &str) -> Result<String, OutOfMemory> {
    Ok(format!(in alloc; "line {number}: {reason}\n")?)
}

/// The line that says how many events were accepted and refused. It ends with a line feed. OutOfMemory (99) if an
/// allocation is refused.
pub fn count_line(alloc: Global, accepted: u64, refused: u64) -> Result<String, OutOfMemory> {
    let events = if accepted == 1 { "event" } else { "events" };
    Ok(format!(in alloc; "{accepted} {events} accepted, {refused} refused\n")?)
}
