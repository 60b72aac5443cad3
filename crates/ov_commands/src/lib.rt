//! The commands that read a file about one graph, `overlay analyse`, `overlay import`, `overlay picture` and
//! `overlay graph`.
#![tactic(auto)]

mod analyse_command;
mod analyse_in_names_or_words;
mod analysis_progress;
mod command_fault;
mod conversion_fault;
mod file_conversion_commands;
mod file_instead_of_command_tip;
mod graph_file_out_of_certificate_file;
mod help_command;
mod import_command;
mod large_certificate_note;
mod least_number_alarm;
mod listed_ids;
mod node_list_texts;
mod pairs_and_fans_tip;
mod picture_printing;
mod sizes_asked;

pub use analyse_command::{analyse_asked, analyse_from, analyse_given};
pub use command_fault::CommandFault;
pub use conversion_fault::ConversionFault;
pub use file_conversion_commands::{graph_asked, import_asked, picture_asked};
pub use file_instead_of_command_tip::print_command_tip;
pub use graph_file_out_of_certificate_file::print_graph;
pub use help_command::tell_asked;
pub use import_command::print_dump;
pub use node_list_texts::NodeLists;
pub use picture_printing::print_picture;
