//! Dumps: what hosts list, read from a JSON object of lists of peers or from lines of two names; the graph that
//! follows from it, as a graph file; and what an operator should know of the dump.
#![tactic(auto)]

mod dump_and_graph_types;
mod dump_determines_graph;
mod dump_importing;
mod edge_line;
mod edges_reading;
mod entry_and_listing_soundness;
mod graph_making;
mod graph_making_fault;
mod links_of_pairs;
mod listing_pairs;
mod name;
mod name_making;
mod names_in_graph_file_theorems;
mod names_listing_themselves;
mod names_shown_on_one_line;
mod names_without_entry;
mod node_names_by_choice;
mod node_numbering;
mod operator_notes;
mod pair_set;
mod reading_fault;
mod refusal_or_write_fault;
mod sorted_set_of_names;
mod unanswered_listings;
mod unread_edge_line_reason;
mod views_reading;

pub use dump_and_graph_types::{Choice, Dump, HostEntry, Listing, NamedGraph};
pub use dump_determines_graph::one_graph;
pub use dump_importing::import_dump;
pub use edges_reading::read_edges;
pub use graph_making::named_graph;
pub use graph_making_fault::DumpFault;
pub use name::Name;
pub use names_in_graph_file_theorems::{
    names_are_read, names_come_back, names_differ, one_shown_name,
};
pub use operator_notes::{import_notes, line_notes};
pub use reading_fault::DumpReadFault;
pub use refusal_or_write_fault::ImportFault;
pub use unread_edge_line_reason::Why;
pub use views_reading::read_views;
