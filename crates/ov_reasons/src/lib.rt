//! What a person is told on standard error: why a line of a scenario file or of a graph file was refused, or the graph
//! that a file says; which command reads a file; how far something has come; and that the file that is named, which is
//! read here, can't be read. Reasons and tips are told after the verdict, and decide nothing: what is at fault comes
//! from the code that judged it, but for the ids of a group, which are looked through once more. No contract says their
//! texts; examples and tests do.
#![tactic(auto)]

mod bad_group_texts;
mod device_texts;
mod event_texts;
mod fault_printing;
mod fault_reasons;
mod graph_file_texts;
mod input_reading;
mod line_and_mark;
mod line_number_and_remaining_count;
mod line_refusal_reason_texts;
mod look_and_analysis_refusal_texts;
mod paced_clock;
mod pacing;
mod parameter_limit_texts;
mod scenario_file_texts;
mod snapshot_moment_texts;
mod unknown_line_name_texts;
mod unread_line_texts;
mod which_command_tips;

pub use bad_group_texts::group_reason;
pub use device_texts::WRITING_FAILED;
pub use fault_printing::{print_fault, print_reason, without_memory};
pub use fault_reasons::{analysis_reason, run_reason};
pub use graph_file_texts::graph_reasons;
pub use input_reading::{STANDARD_INPUT, bytes_of, opened, tell_typing};
pub use line_refusal_reason_texts::{
    core_refusal_reason, count_line, refusal_line, world_refusal_reason,
};
pub use paced_clock::PacedClock;
pub use scenario_file_texts::scenario_reasons;
pub use which_command_tips::{print_file_tip, print_folder_tip, print_tip, print_unread_tip};
