//! Paths from one node that share only this node, found one after another.
#![tactic(auto)]

mod augmenting_paths;
mod backward_paths;
mod flat_paths;
mod flow;
mod flow_room;
mod layered_walks;
mod layers;
mod one_link_paths;
mod path_search;
mod path_table;
mod paths_out_of_flat_list;
mod place_table;
mod search_result;
mod search_tree;
mod two_link_paths;
mod walk_augmentation;

pub use backward_paths::PathsBackwards;
pub use flat_paths::PlacePaths;
pub use flow::Flow;
pub use flow_room::FlowRoom;
pub use search_result::{Augmentation, CutRows};
