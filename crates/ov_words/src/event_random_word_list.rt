ghost use Rattle.std.specs.Prelude.{◌≡◌, [], length, IfOk};
ghost use Rattle.rand_core.specs.Steps.{stream_of, steps_u64_low};
ghost use Rattle.rand_pcg.specs.Pcg.{pcg64};
ghost use Rattle.ov_words.specs.Stream.{AreOutputs, words_per_event};
ghost use Rattle.ov_words.specs.Code.Making.{all_words};

use crate::draws::Draws;
use crate::generated_words::GeneratedWords;
use crate::kept_words::KeptWords;
use arrayvec::ArrayVec;
use ov_ids::OutOfMemory;
use rand_core::Rng;
use rand_pcg::Pcg64;
use std::alloc::Global;
use std::marker::Model;

/// How many random words come with an event. (Chosen here.)
pub const WORDS_PER_EVENT: usize = 64;

/// The 64 random words that come with an event. Its random choices are drawn from them. They are listed, or a generator
/// makes each one when it is drawn. Contracts see them in order.
#[derive(Debug, Drop)]
pub struct Words {
    /// The first words.
    listed: ArrayVec<u64, WORDS_PER_EVENT>,
    /// What makes the others.
    generator: Pcg64,
}

impl Model for Words {
    ghost use Rattle.std.specs.Prelude.{◌≡◌, List, ℕ, length};
    ghost use Rattle.ov_words.specs.Stream.{words_per_event};
    ghost use Rattle.ov_words.specs.Code.Making.{all_words};

    ghost Value = { List ℕ };

    ghost view = { λ a. all_words a.listed.items a.generator };

    ghost invariant = { λ a. length (all_words a.listed.items a.generator) ≡ words_per_event };
}

impl Words {
    /// These words, in this order.
    #[tactic(auto, using(crate::proofs::Made::all_listed))]
    pub fn new(words: [u64; WORDS_PER_EVENT]) -> Words
        ensures value { result ≡ words }
        ensures count { length result ≡ words_per_event }
    {
        match ArrayVec::try_from(words.as_slice()) {
            Ok(listed) => Words {
                listed,
                generator: Pcg64::from_state(0, 0),
            },
            Err(_) => unreachable!(),
        }
    }

    /// The next 64 outputs of a generator, each by one call of `next_u64`. No other call is made.
    #[tactic(auto, using(crate::proofs::Outputs::outputs_written))]
    pub fn from_rng<R: Rng>(rng: &mut R) -> Words
        ensures outputs { AreOutputs (R.stream rng.old) result (R.stream rng.new) }
        ensures count { length result ≡ words_per_event }
    {
        let mut outputs = [0; WORDS_PER_EVENT];
        for word in outputs.iter_mut() {
            *word = rng.next_u64();
        }
        Words::new(outputs)
    }

    /// The next 64 outputs of this generator, as by `from_rng`. The generator is moved on at once, and each word is
    /// made when it is drawn.
    #[tactic(auto, using(crate::proofs::Made::all_made))]
    pub fn from_pcg(rng: &mut Pcg64) -> Words
        ensures outputs { AreOutputs (stream_of (steps_u64_low pcg64) rng.old) result
            (stream_of (steps_u64_low pcg64) rng.new) }
        ensures count { length result ≡ words_per_event }
    {
        let mut words = Words {
            listed: ArrayVec::new(),
            generator: Pcg64::from_state(0, 0),
        };
        words.refill(rng);
        words
    }

    /// Becomes the next 64 outputs of this generator, as `from_pcg` makes them. Only the generator's state is written,
    /// and the words that were listed go.
    pub fn refill(&mut self, rng: &mut Pcg64)
        ensures outputs { AreOutputs (stream_of (steps_u64_low pcg64) rng.old) self.new
            (stream_of (steps_u64_low pcg64) rng.new) }
        ensures count { length self.new ≡ words_per_event }
    {
        GeneratedWords::next(rng).write_to(self);
    }

    /// Becomes the words that this generator makes next. The words that were listed go.
    #[tactic(auto, using(crate::proofs::Made::all_made))]
    pub(crate) fn make_with(&mut self, generator: &Pcg64)
        ensures { self.new ≡ all_words [] generator.now }
    {
        self.listed.clear();
        self.generator = copied(generator);
    }

    /// The same words in little room: if a generator makes them, nothing is allocated. OutOfMemory (99) if an
    /// allocation is refused.
    pub fn keep(&self, alloc: Global) -> Result<KeptWords, OutOfMemory>
        ensures { IfOk result (λ kept. kept ≡ self.now) }
    {
        KeptWords::new(alloc, self.listed.as_slice(), &self.generator)
    }

    /// The words, none of them drawn yet.
    pub(crate) fn draws(&self) -> Draws<'_>
        ensures value { result ≡ self.now }
        ensures count { length result ≡ words_per_event }
    {
        let listed = self.listed.as_slice();
        Draws::of_parts(listed, WORDS_PER_EVENT - listed.len(), &self.generator)
    }
}

/// A generator in the same state.
pub(crate) fn copied(generator: &Pcg64) -> Pcg64
    ensures { result ≡ generator.now }
{
    match generator.clone() {
        Ok(copy) => copy,
        Err(_) => unreachable!(),
    }
}
