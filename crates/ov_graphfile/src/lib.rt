//! Graph files: what their lines say, the graph of a file, and which of its lines are at fault; the names of nodes that
//! comments keep, and groups by names; and the text of a file that says a graph.
#![tactic(auto)]

mod fault;
mod graph_line;
mod graph_reading;
mod group_from_names_or_ids;
mod group_names_fault;
mod line_finding;
mod line_writing;
mod name_comment_reading;
mod name_reading;
mod name_table;
mod nodes_by_name;
mod one_name_per_node_theorem;
mod text_writing;
mod unread_lines_with_count;

pub use fault::{GraphFileFault, UnreadLine};
pub use graph_line::LINE_NAMES;
pub use graph_reading::{read_graph, read_named_graph};
pub use group_from_names_or_ids::ids_of_group;
pub use group_names_fault::GroupFault;
pub use line_finding::{line_of_link, line_of_node};
pub use name_reading::read_names;
pub use name_table::Names;
pub use one_name_per_node_theorem::one_name;
pub use text_writing::{graph_text, named_graph_text};
pub use unread_lines_with_count::{UnreadLines, unread_lines};
