//! What a run of a scenario prints, and why it ends: by definition, as texts, and as it goes to a writer.
#![tactic(auto)]

mod entry_part_writing;
mod event_block_node_and_packet_lines;
mod line_output_writing;
mod line_run_outcome;
mod refusal;
mod report_and_refusal_lines;
mod report_of_subject;
mod run_fault;
mod strictness;
mod true_printed_reports_theorem;

pub use event_block_node_and_packet_lines::{entry_line, node_line, packet_line, together_line};
pub use line_output_writing::{write_done, write_entry, write_look};
pub use line_run_outcome::LineOutcome;
pub use refusal::Refusal;
pub use report_and_refusal_lines::{cert_line, refused_line, report_line};
pub use report_of_subject::{filed_report, members_of};
pub use run_fault::RunFault;
pub use strictness::Strictness;
pub use true_printed_reports_theorem::every_printed_report_is_true;
