//! Why a certificate file does not hold, in plain words for a person. The readers and the judges below tell what is
//! wrong and where; here it is put into words. Of a file in UTF-16, or a packed one, a tip says how to make UTF-8 of
//! it.
#![tactic(auto)]

mod bad_values;
mod count_cut_and_side_words;
mod explain;
mod fault_phrases;
mod found_values;
mod graph_words;
mod near_keys;
mod packed_and_utf_16_files;
mod path_words;
mod refused_file_words;
mod sentence_parts;
mod wrong_entries;

pub use explain::reasons;
pub use packed_and_utf_16_files::{form_tip, has_other_form};
pub use refused_file_words::is_newer;
