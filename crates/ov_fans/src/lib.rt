//! The pieces of Even's test. For each piece its paths are found, or its nearest minimum cut.
#![tactic(auto)]

mod bit_row_nodes;
mod group_by_places_in_graph;
mod member_beyond_cut;
mod piece;
mod piece_net;
mod piece_paths_by_ids;
mod piece_result;
mod piece_result_theorems;
mod piece_solver;
mod settler_of_width;
mod shared_bit_count;
mod short_paths;

pub use piece::{Piece, member};
pub use piece_paths_by_ids::asked_paths;
pub use piece_result::{Found, Parting, Settled};
pub use piece_result_theorems::{right_decides, same_cut};
pub use piece_solver::{Settler, settle, settle_group};
pub use shared_bit_count::shared_bits;
