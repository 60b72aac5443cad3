//! Lists that are laid out in memory for what is done with them: lists of paths, in which the ids of all paths stand
//! one after another; and a list in blocks, from which an item at any place is taken out without moving all items
//! behind it.
#![tactic(auto)]

mod block;
mod block_list_with_fast_removal;
mod block_sequence;
mod ids_of_one_path;
mod item_iter;
mod path_ends;
mod path_iter;
mod path_list;
mod paths_builder;

pub use block::BLOCK;
pub use block_list_with_fast_removal::BlockList;
pub use item_iter::Items;
pub use path_iter::PathIter;
pub use path_list::Paths;
pub use paths_builder::PathsBuilder;
