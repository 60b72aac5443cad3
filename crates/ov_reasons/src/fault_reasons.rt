use crate::device_texts::{OUT_OF_MEMORY, READING_FAILED, WRITING_FAILED};
use crate::graph_file_texts::{graph_fault_reasons, unread_line_reasons};
use crate::scenario_file_texts::scenario_reasons;
use ov_check_reasons::has_other_form;
use ov_ids::OutOfMemory;
use ov_run_meaning::RunFault;
use std::alloc::Global;

/// Why the run of a scenario file of these bytes ended with this fault, in words. The text ends with a line feed. It is
/// empty if the run ended at a refused line: why that was refused is told by the watcher of the run. It is empty too if
/// the file is not in UTF-8, of which `print_file_tip` tells.
///
/// `OutOfMemory` (99): an allocation was refused.
pub fn run_reason(alloc: Global, bytes: &[u8], fault: &RunFault) -> Result<String, OutOfMemory> {
    match fault {
        RunFault::Line(_) if has_other_form(bytes) => Ok(String::new(alloc)),
        RunFault::Line(_) | RunFault::Params(_) => scenario_reasons(alloc, bytes),
        _ => Ok(String::from_str(alloc, device_reason(fault))?),
    }
}

/// Why the analysis of a graph file of these bytes ended with this fault, in words. The text ends with a line feed. It
/// is empty if the file is not in UTF-8, of which `print_file_tip` tells.
///
/// `OutOfMemory` (99): an allocation was refused.
pub fn analysis_reason(
    alloc: Global,
    bytes: &[u8],
    fault: &RunFault,
) -> Result<String, OutOfMemory> {
    match fault {
        RunFault::Line(_) if has_other_form(bytes) => Ok(String::new(alloc)),
        RunFault::Line(_) => unread_line_reasons(alloc, bytes),
        RunFault::Graph { fault, line } => graph_fault_reasons(alloc, bytes, fault, *line),
        _ => Ok(String::from_str(alloc, device_reason(fault))?),
    }
}

/// What is said of a fault that is no line's and no graph's.
fn device_reason(fault: &RunFault) -> &'static str {
    match fault {
        RunFault::Line(_)
        | RunFault::Params(_)
        | RunFault::Graph { .. }
        | RunFault::Refused { .. } => "",
        RunFault::Read => READING_FAILED,
        RunFault::Write => WRITING_FAILED,
        RunFault::OutOfMemory => OUT_OF_MEMORY,
    }
}
