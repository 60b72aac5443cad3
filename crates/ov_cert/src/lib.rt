//! Certificates of node connectivity, and their checker.
#![tactic(auto)]

mod cert;
mod checker;
mod checks_apart_from_paths;
mod entry_judging;
mod expected_entry_listing_and_judging;
mod expected_entry_with_place_and_fault;
mod fault;
mod first_and_later_members;
mod flaw_types_apart_from_paths;
mod graph_with_valid_certificate;
mod linked_members;
mod node_set;
mod own_or_shared_graph;
mod path_and_entry_flaws;
mod path_judging;
mod shared_graph;
mod side_judging;
mod valid_certificate_theorems;

pub use cert::{Cert, FanPaths, PairPaths, Split};
pub use checker::{check, check_group};
pub use checks_apart_from_paths::{check_frame, check_group_frame, frame_flaw};
pub use expected_entry_listing_and_judging::{
    entry_flaw, expected, expected_group, judge_entry, judge_group_entry,
};
pub use expected_entry_with_place_and_fault::Expected;
pub use fault::CheckFault;
pub use flaw_types_apart_from_paths::{EndFlaw, FrameFlaw, SetFlaw, SideFlaw};
pub use graph_with_valid_certificate::Checked;
pub use linked_members::are_all_linked;
pub use ov_lists::Paths;
pub use path_and_entry_flaws::{EntryFlaw, PathFlaw};
pub use shared_graph::SharedGraph;
pub use valid_certificate_theorems::{one_verdict, valid_means};
