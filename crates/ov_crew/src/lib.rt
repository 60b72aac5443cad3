//! Workers in threads, which settle the pieces of Even's test together.
#![tactic(auto)]

mod analysis_by_threads;
mod ascending_piece_lookup;
mod group_number_by_copy;
mod hook_after_claim;
mod memory_set_aside;
mod outline_by_threads;
mod outline_search;
mod parallel_paths_by_ids;
mod threads_by_amount_of_work;
mod worker;

pub use analysis_by_threads::{
    analyse, analyse_group, analyse_group_watched, settle_group_watched,
};
pub use hook_after_claim::{Gate, OpenGate};
pub use outline_by_threads::outline_group_watched;
pub use worker::{work, work_group, work_range};
