//! A hall: several drivers step one core, each by a pass of its own, and analyses run beside them.
#![tactic(auto)]

mod core_shared_by_drivers;
mod driver_pass_gathering;
mod driver_passes;
mod exact_log_theorems;
mod ghost_knowledge_of_driver_seat;
mod ghost_log_rule;
mod hall_at_rest;
mod hall_opening;
mod journal_entry_reading;
mod locked_state;
mod snapshot_for_analysis;

pub use core_shared_by_drivers::{Gathered, Hall};
pub use driver_pass_gathering::{GatherFault, NotGathered};
pub use driver_passes::Pass;
pub use exact_log_theorems::{every_log_is_exact, what_is_seen_stays};
pub use ghost_log_rule::HallName;
pub use hall_at_rest::Whole;
pub use hall_opening::Opening;
