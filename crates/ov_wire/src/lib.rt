//! The messages of HyParView and Plumtree between nodes, and their bytes on the wire.
#![tactic(auto)]

mod fault;
mod message;
mod reading;
mod unique_encoding_theorems;
mod writing;

pub use fault::WireFault;
pub use message::{Body, MOST_IDS, MOST_PAYLOAD, MOST_TTL, Message};
pub use reading::decode;
pub use unique_encoding_theorems::{
    none_begins_another, one_first_fault, one_message, one_spelling, spelled_or_at_fault,
};
pub use writing::encode;
