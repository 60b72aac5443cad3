//! The commands `overlay grow` and `overlay sweep`, which grow overlays and print their scenario, or the rows of many.
#![tactic(auto)]

mod grow_command;
mod grow_command_fault;
mod grow_or_sweep_dispatch;
mod message_row_printing;
mod picture_file;
mod row_files;
mod row_printing;
mod sweep_command;
mod sweep_progress;
mod sweep_report;

pub use grow_command_fault::GrowCommandFault;
pub use grow_or_sweep_dispatch::grow_or_sweep;
