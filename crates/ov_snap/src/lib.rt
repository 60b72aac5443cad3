//! A core: a world with the snapshots of its links, the desks at which workers analyse them, and the reports that are
//! filed of them. What each report says is true.
#![tactic(auto)]

mod analysis_report;
mod core_steps;
mod ghost_log_of_drivers;
mod kept_snapshots;
mod refused_core_call;
mod reports_by_moment_and_group;
mod snapshot_core;
mod true_filed_reports_theorems;
mod worker_desk_calls;

pub use analysis_report::Report;
pub use core_steps::{CoreStep, run_core};
pub use ghost_log_of_drivers::{Mark, Ticket};
pub use kept_snapshots::Snapshot;
pub use ov_cert::SharedGraph;
pub use refused_core_call::CoreFault;
pub use snapshot_core::Core;
pub use true_filed_reports_theorems::{every_report_is_true, every_report_stays};
