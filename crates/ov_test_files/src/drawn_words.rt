//! The random words that a seed gives.
use ov_scenario::draw;
use ov_words::Draws;
use std::alloc::Global;

/// Whether this is the first word of the first event.
fn is_first_word(alloc: Global, seed: u64, word: u64) -> bool {
    match draw(alloc, seed, 1) {
        Ok(draws) => match draws.first() {
            Some(words) => Draws::new(words).next() == word,
            None => false,
        },
        Err(_) => false,
    }
}

#[test]
fn a_seed_gives_the_words_of_the_reference(rt: HostRuntime) {
    assert!(rt; is_first_word(rt.alloc(), 0, 2_354_861_276_966_075_475));
}
