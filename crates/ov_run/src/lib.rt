//! Scenarios of overlay nodes: how their lines run, one after another and in sections at once.
#![tactic(auto)]

mod engine;
mod hall_outside_sections;
mod line_outcome;
mod line_running;
mod recent_analyses_to_reuse;
mod report_making_and_filing;
mod run_watcher;
mod section_jobs_by_thread;
mod section_running;
mod sections_at_once;

pub use engine::{run, run_bytes, run_in_blocks, run_watched};
pub use ov_run_meaning::{Refusal, RunFault, Strictness};
pub use run_watcher::{RanLine, RunWatcher};
