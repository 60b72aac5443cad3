//! Analyses of graph files by themselves: the answer, also with the names of nodes and in sentences, and without some
//! of the nodes.
#![tactic(auto)]

mod answer_making;
mod answer_watcher;
mod answer_writing;
mod component_texts;
mod graph_file_analysis;
mod graph_file_analysis_with_names;
mod graph_without_nodes;
mod name_lines;
mod report_or_refusal;
mod request;
mod sentences;
mod survivors_and_least_linked_members;

pub use answer_watcher::AnswerWatcher;
pub use graph_file_analysis::{analyse_bytes, analyse_file};
pub use graph_file_analysis_with_names::analyse_told;
pub use graph_without_nodes::{graph_without, members_left};
pub use ov_run_meaning::RunFault;
pub use report_or_refusal::ReportOrRefusal;
pub use request::{Request, ToldAnalysis};
pub use sentences::explanation;
