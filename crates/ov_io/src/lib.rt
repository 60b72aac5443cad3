//! A reader and a writer whose failures are counted. A program reads its whole input by the one, and writes its output
//! by the other.
#![tactic(auto)]

mod counted_reader_and_writer;
mod fault;
mod file_name_texts;
mod input_reading_to_end;
mod sink;

pub use fault::{ReadFault, WriteFault};
pub use file_name_texts::{shown_name, unopened_text, unread_text};
pub use input_reading_to_end::Source;
pub use sink::Sink;
