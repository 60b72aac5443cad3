//! The random words of an event, and random choices drawn from them.
#![tactic(auto)]

mod draws;
mod event_random_word_list;
mod generated_words;
mod kept_words;

pub use draws::Draws;
pub use event_random_word_list::{WORDS_PER_EVENT, Words};
pub use generated_words::GeneratedWords;
pub use kept_words::KeptWords;
