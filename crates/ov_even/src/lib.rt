//! Even's test of a graph and a group: its pieces in order, the first that is not good, and the certificate that
//! follows; and a desk at which workers share out the pieces by turns, until one decides.
#![tactic(auto)]

mod analysis;
mod assembly;
mod certificate_entries;
mod even_test_theorems;
mod failing_level_by_degree;
mod fault;
mod first_piece_with_cut;
mod group_desk;
mod level_bounds;
mod level_path_slots;
mod level_pieces;
mod level_search;
mod level_trying;
mod outline_of_settled_pieces;
mod paths_by_ids;
mod paths_wanted_by_certificate;
mod piece_in_hand;
mod piece_numbers;
mod piece_order;
mod progress_watcher;
mod sound_desk_theorems;
mod worker_haul;

pub use analysis::{
    analyse_alone, analyse_group_alone, analyse_group_watched, judge_group, outline_of_search,
    settle_group_watched,
};
pub use assembly::{assemble, assemble_group, assemble_named};
pub use even_test_theorems::{
    first_exists, first_gives_number, good_or_cut, one_answer, one_first,
};
pub use fault::AnalyseFault;
pub use group_desk::GroupDesk;
pub use level_search::{LevelSearch, Searched};
pub use outline_of_settled_pieces::outline_of_hauls;
pub use ov_fans::Piece;
pub use paths_by_ids::{FoundPaths, NamedPaths, name_paths};
pub use paths_wanted_by_certificate::wanted_paths;
pub use piece_in_hand::Hand;
pub use piece_numbers::{
    LevelNumbers, group_piece_at, group_total, level_numbers, piece_at, total,
};
pub use progress_watcher::{Unwatched, Watcher};
pub use sound_desk_theorems::{ended_decides, stays_sound};
pub use worker_haul::{Haul, Keeping, settle_keeping};
