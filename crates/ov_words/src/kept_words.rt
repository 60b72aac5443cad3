ghost use Rattle.std.specs.Prelude.{◌≡◌, length, IfOk};
ghost use Rattle.ov_words.specs.Stream.{words_per_event};
ghost use Rattle.ov_words.specs.Code.Making.{all_words};

use crate::event_random_word_list::copied;
use ov_ids::OutOfMemory;
use rand_pcg::Pcg64;
use std::alloc::Global;
use std::marker::Model;

/// The 64 random words of an event that is past. Words that a generator makes are kept as its state, which takes less
/// room and no allocation. Contracts see the words in order.
#[derive(Debug, Drop)]
pub struct KeptWords {
    /// The first words.
    listed: Vec<u64>,
    /// What makes the others.
    generator: Pcg64,
}

impl Model for KeptWords {
    ghost use Rattle.std.specs.Prelude.{◌≡◌, List, ℕ, length};
    ghost use Rattle.ov_words.specs.Stream.{words_per_event};
    ghost use Rattle.ov_words.specs.Code.Making.{all_words};

    ghost Value = { List ℕ };

    ghost view = { λ a. all_words a.listed.items a.generator };

    ghost invariant = { λ a. length (all_words a.listed.items a.generator) ≡ words_per_event };
}

impl KeptWords {
    /// The words that are listed, and then as many as are missing, which the generator makes.
    pub(crate) fn new(
        alloc: Global,
        listed: &[u64],
        generator: &Pcg64,
    ) -> Result<KeptWords, OutOfMemory>
        requires { length (all_words listed.now generator.now) ≡ words_per_event }
        ensures { IfOk result (λ kept. kept ≡ all_words listed.now generator.now) }
    {
        Ok(KeptWords {
            listed: Vec::from_slice(alloc, listed)?,
            generator: copied(generator),
        })
    }

    /// The same words. OutOfMemory (99) if an allocation is refused.
    pub fn copy(&self, alloc: Global) -> Result<KeptWords, OutOfMemory>
        ensures { IfOk result (λ kept. kept ≡ self.now) }
    {
        KeptWords::new(alloc, &self.listed, &self.generator)
    }
}
