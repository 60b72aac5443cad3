//! Graphs: nodes, which are ids, and the links between them.
#![tactic(auto)]

pub mod bit_rows;
mod bit_rows_from_links;
mod changing;
mod even_test_and_unique_number;
mod fault;
mod graph;
mod graph_judging;
mod id_and_row_equality;
mod link_iterators;
mod list_graph;
mod listed_link_iterators;
mod listed_neighbour_places;
mod neighbour_places;
mod node_places_by_id;
mod place_list;
mod place_lists_from_links;
mod row_graph;
mod row_link_iterators;
mod row_place_shifting;
mod size_limit;

pub use even_test_and_unique_number::{even_suffices, one_number};
pub use fault::{GraphFault, LinkFlaw};
pub use graph::Graph;
pub use link_iterators::{Links, Neighbours};
pub use node_places_by_id::is_member;
pub use size_limit::SizeLimit;
