//! The articulation points of a graph: the nodes whose single crash splits its largest component.
#![tactic(auto)]

mod articulation_count;
mod largest_of_components;

pub use articulation_count::articulation_points;
