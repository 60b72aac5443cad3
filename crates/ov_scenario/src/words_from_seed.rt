ghost use Rattle.std.specs.Prelude.{◌≡◌, IfOk, length, vec_len};
ghost use Rattle.rand_core.specs.Stream.{Stream};
ghost use Rattle.ov_words.specs.Stream.{AreOutputs};
ghost use Rattle.ov_scenario.specs.Code.RunnableLines.{AreEventWords, stream_now};
ghost use Rattle.ov_scenario.specs.Draws.{AreDraws, seeded};
ghost use Rattle.ov_words.specs.Stream.{words_per_event};

use crate::event_words::EventWords;
use crate::given_random_words_reading::GivenWords;
use ov_ids::OutOfMemory;
use ov_words::{GeneratedWords, WORDS_PER_EVENT, Words};
use rand_core::SeedableRng;
use rand_pcg::Pcg64;
use std::alloc::Global;

/// The random words that a seed gives to events, event after event.
#[derive(Drop)]
pub(crate) struct SeedWords {
    generator: Pcg64,
}

impl SeedWords {
    /// All random words that the seed gives.
    #[tactic(auto, unfolding(crate::specs::Draws::seeded, crate::specs::Code::RunnableLines::stream_now))]
    pub(crate) fn new(seed: u64) -> SeedWords
        ensures { stream_now result ≡ seeded seed }
    {
        SeedWords {
            generator: Pcg64::seed_from_u64(seed),
        }
    }

    /// The same random words anew. OutOfMemory (99) is returned if an allocation was refused.
    pub(crate) fn copy(&self) -> Result<SeedWords, OutOfMemory>
        ensures { IfOk result (λ draws. draws ≡ self.now) }
    {
        let generator = self.generator.clone()?;
        Ok(SeedWords { generator })
    }

    /// The random words of the next event.
    #[tactic(auto, unfolding(crate::specs::Code::RunnableLines::stream_now))]
    pub(crate) fn next_words(&mut self) -> GeneratedWords
        ensures count { length result ≡ words_per_event }
        ensures outputs { AreOutputs (stream_now self.old) result (stream_now self.new) }
    {
        GeneratedWords::next(&mut self.generator)
    }

    /// The random words of an event: these, if they were given, or else the next.
    #[tactic(auto, using(crate::proofs::Scenarios::Outputs::outputs_drawn))]
    pub(crate) fn event_words<'a>(&mut self, given: Option<GivenWords<'a>>) -> EventWords<'a>
        ensures { AreEventWords (stream_now self.old) given.entry result (stream_now self.new) }
    {
        match given {
            Some(given) => EventWords::given(given),
            None => EventWords::generated(self.next_words()),
        }
    }
}

/// The random words that a seed gives to `n` events: for each event the next 64 outputs of `next_u64` of the generator
/// `Pcg64` that `seed_from_u64` makes of the seed. That they are drawn in this way is chosen here. OutOfMemory (99) is
/// returned if an allocation was refused.
#[tactic(auto, using(crate::proofs::Scenarios::Drawn::draws_more))]
pub fn draw(alloc: Global, seed: u64, n: usize) -> Result<Vec<Words>, OutOfMemory>
    ensures count { IfOk result (λ draws. vec_len draws ≡ n) }
    ensures draws { IfOk result (λ draws. (left : Stream) × AreDraws (seeded seed) draws.items left) }
{
    let mut left = SeedWords::new(seed);
    let mut draws = Vec::with_capacity(alloc, n)?;
    for _ in 0..n {
        let mut words = Words::new([0; WORDS_PER_EVENT]);
        left.next_words().write_to(&mut words);
        draws.push(words)?;
    }
    Ok(draws)
}
