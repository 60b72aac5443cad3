ghost use Rattle.std.specs.Prelude.{◌≡◌, length};
ghost use Rattle.rand_core.specs.Steps.{stream_of, steps_u64_low};
ghost use Rattle.rand_pcg.specs.Pcg.{pcg64};
ghost use Rattle.ov_words.specs.Stream.{AreOutputs, words_per_event};

use crate::event_random_word_list::{WORDS_PER_EVENT, Words, copied};
use rand_pcg::Pcg64;
use std::marker::Model;

/// The 64 random words that a generator gives to an event, kept as its state before them, so that they are small to
/// hand on. Contracts see the words in order.
#[derive(Drop)]
pub struct GeneratedWords {
    generator: Pcg64,
}

impl Model for GeneratedWords {
    ghost use Rattle.std.specs.Prelude.{List, [], ℕ};
    ghost use Rattle.ov_words.specs.Code.Making.{all_words};

    ghost Value = { List ℕ };

    ghost view = { λ a. all_words [] a.generator };
}

impl GeneratedWords {
    /// The next 64 outputs of this generator, each as by one call of `next_u64`. The generator is moved on at once.
    #[tactic(auto, using(crate::proofs::Made::outputs_made, crate::proofs::Made::all_made))]
    pub fn next(rng: &mut Pcg64) -> GeneratedWords
        ensures outputs { AreOutputs (stream_of (steps_u64_low pcg64) rng.old) result
            (stream_of (steps_u64_low pcg64) rng.new) }
        ensures count { length result ≡ words_per_event }
    {
        let generator = copied(rng);
        rng.advance(WORDS_PER_EVENT as u128);
        GeneratedWords { generator }
    }

    /// Makes other words these. Only the generator's state is written, and the words that were listed go.
    pub fn write_to(&self, words: &mut Words)
        ensures { words.new ≡ self.now }
    {
        words.make_with(&self.generator);
    }
}
