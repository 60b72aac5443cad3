//! Certificate files that are written as they are made, by several workers, from paths that are lists of places in the
//! graph. Of the texts of the entries, nearly all of a file, no more is held than a few blocks; and all memory is there
//! before the first byte is written.
#![tactic(auto)]

mod answer_by_places;
mod byte_putting;
mod certificate_writing;
mod entries_by_places;
mod entry_blocks;
mod entry_lengths;
mod entry_rooms;
mod entry_texts;
mod path_texts;
mod text_around_entries;
mod writing_fault;

pub use answer_by_places::{PlacedAnswer, place_answer};
pub use certificate_writing::{write_certificate, write_large_certificate};
pub use writing_fault::CertificateWriteFault;
