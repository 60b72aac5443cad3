//! Copies of graphs with other ids: nodes that are near each other get ids far apart.
#![tactic(auto)]

mod copy_with_other_ids;
mod ids_in_copy;
mod links_in_copy;
mod renaming_theorem;
mod scattering;
mod search_order;

pub use copy_with_other_ids::Scattered;
pub use renaming_theorem::renaming_keeps_number;
pub use scattering::scattered;
