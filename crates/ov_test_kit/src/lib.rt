//! What the tests of several crates share: ids, words and payloads from numbers, ids and bytes as text, a device of
//! which one call fails, and a known graph.
#![tactic(auto)]

mod devices;
mod known_graphs;
mod spelt;
mod told;
mod values;

pub use devices::FailsOnce;
pub use known_graphs::PETERSEN;
pub use spelt::{bytes_of, is_spelt};
pub use told::{put_hex, put_ids};
pub use values::{ids, message_id, payload, sized, words};
