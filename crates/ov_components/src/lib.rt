//! The connected components of a graph that a crash of nodes leaves.
#![tactic(auto)]

mod bits_of_nodes_outside_cut;
mod component_list;
mod components_after_crash;
mod flood_fill;
mod unique_components_theorem;

pub use component_list::Components;
pub use components_after_crash::components_without;
pub use unique_components_theorem::one_division;
