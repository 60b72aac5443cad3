//! Certificate files: a graph, a group of its nodes and their certificate as one JSON object; and the text that is
//! printed of a certificate.
#![tactic(auto)]

mod cert_writing;
mod entry_fields;
mod fault;
mod field_reading_and_writing;
mod file_keys;
mod json_member_writing;
mod link_list_writing;
mod linked_or_split;
mod missing_and_unknown_keys;
mod no_json;
mod one_line_certificate;
mod paths_field;
mod reading;
mod token_entries;
mod token_fields;
mod token_keys;
mod token_reading;
mod token_stop;
mod value_fault;
mod value_writing;
mod version;
mod version_and_verdict_reading;
mod writing;

pub use entry_fields::{FAN_KEYS, PAIR_KEYS};
pub use fault::{BadValue, FileFault};
pub use file_keys::{Key, keys_of};
pub use linked_or_split::Verdict;
pub use missing_and_unknown_keys::is_among;
pub use no_json::NoJson;
pub use one_line_certificate::CertText;
pub use reading::{Filed, RefusedFile, filed_or_refusal, from_large_text, from_text};
pub use token_reading::in_form;
pub use value_fault::{Misfit, Step, Steps, Wanted};
pub use version::{LAST_MOMENT, Version};
pub use writing::{to_large_text, to_text, to_text_group};
