//! The command `overlay run`: how a scenario is opened, run and printed, in blocks or as it comes, and what a person is
//! told of it.
#![tactic(auto)]

mod line_progress;
mod refusals_and_progress;
mod refused_line_explaining;
mod run_command;
mod run_with_buffered_output;

pub use run_command::run_asked;
