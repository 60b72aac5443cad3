//! Nets: paths from one node of a graph to some others, which share only that node.
#![tactic(auto)]

mod menger_and_nearest_cut_theorems;
mod place_set;
mod source_and_targets_net;

pub use menger_and_nearest_cut_theorems::{menger, one_nearest_cut};
pub use place_set::PlaceSet;
pub use source_and_targets_net::SplitNet;
