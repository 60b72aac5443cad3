//! The shape of a graph: its largest component, its clustering, the lengths of its shortest paths, and its degrees.
#![tactic(auto)]

mod clustering_coefficient;
mod component_search;
mod degree_quartiles;
mod graph_shape;
mod layered_search;
mod place_sets;

pub use graph_shape::{Shape, shape_of};
