//! Overlays are grown: nodes join, settle, crash and heal. Each step of the core is recorded as a line of a scenario
//! that, run, does the same.
#![tactic(auto)]

mod broadcast_log;
mod broadcasts;
mod core_recorded_as_script;
mod fault;
mod growing_with_broadcast_log;
mod growth_in_progress;
mod healing_phase;
mod joining_phase;
mod message_cost;
mod message_costs;
mod message_counts;
mod options_determine_growth;
mod overlay_growing;
mod packet_turns;
mod phase_end_analysis_and_broadcasts;
mod phase_moment_and_deliveries;
mod phase_rules;
mod random_choices;
mod replay_theorem;
mod report_making;
mod settling_and_crash_phases;
mod shuffle_rounds;

pub use core_recorded_as_script::{Recorded, Recording};
pub use fault::GrowFault;
pub use growing_with_broadcast_log::{LoggedGrowth, grow_logged};
pub use message_cost::{CountedKind, MessageCost};
pub use options_determine_growth::{log_changes_nothing, one_growth};
pub use overlay_growing::{Grown, grow};
pub use phase_moment_and_deliveries::PhaseEnd;
pub use replay_theorem::every_run_refuses_nothing;
