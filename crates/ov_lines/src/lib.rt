//! Text that people write: which lines of a file count, the words of a line, and the numbers that words spell; where a
//! line can't be read, with what may be there; and what may help where something was typed in the wrong place: what the
//! bytes of a file look like, which command reads such a file, and which comma of a list is one too many. What helps is
//! said below an explanation, and decides nothing: no contract says these texts; examples do.
#![tactic(auto)]

mod comma_hints;
mod file_kinds;
mod file_tips;
mod id_list_reading;
mod kind_of_named_file;
mod line_and_word_splitting;
mod numeral;
mod text_start;
mod unexpected_word;
mod unskipped_lines;
mod word_cursor;
mod worker_count_reading;

pub use comma_hints::comma_hint;
pub use file_kinds::{FileKind, looks_like};
pub use file_tips::{command_tip, file_tip, folder_tip};
pub use id_list_reading::read_ids;
pub use kind_of_named_file::{is_folder, kind_of_file};
pub use line_and_word_splitting::split_line;
pub use numeral::read_number;
pub use text_start::behind_mark;
pub use unexpected_word::{END, ID, Kind, Unread};
pub use unskipped_lines::{KeptLine, KeptLines};
pub use word_cursor::{LineCursor, is_word};
pub use worker_count_reading::read_workers;
