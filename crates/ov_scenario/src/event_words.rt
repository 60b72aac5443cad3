ghost use Rattle.std.specs.Prelude.{◌≡◌, replicate};
ghost use Rattle.ov_words.specs.Stream.{words_per_event};

use crate::given_random_words_reading::GivenWords;
use ov_words::{GeneratedWords, WORDS_PER_EVENT, Words};
use std::marker::Model;

/// Where the random words of an event come from.
#[derive(Drop)]
pub(crate) enum WordSource<'a> {
    /// The line right before the event gives them.
    Line(GivenWords<'a>),
    /// The seed gives them.
    Seed(GeneratedWords),
    /// They are zeros.
    Zeros,
}

/// The random words of an event: those that the line right before it gives, or else the next that the seed gives, or
/// zeros where a line is read outside a run (`line_asked_by`). They are small to hand on. Contracts see the 64 words in
/// order.
#[derive(Drop)]
pub struct EventWords<'a> {
    source: WordSource<'a>,
}

impl<'a> Model for EventWords<'a> {
    ghost use Rattle.std.specs.Prelude.{List, ℕ};
    ghost use Rattle.ov_scenario.specs.Code.WordSources.{words_from};

    ghost Value = { List ℕ };

    ghost view = { λ words. words_from words.source };
}

impl<'a> EventWords<'a> {
    /// The words that a line gives.
    pub(crate) fn given(given: GivenWords<'a>) -> EventWords<'a>
        ensures { result ≡ given.entry }
    {
        EventWords {
            source: WordSource::Line(given),
        }
    }

    /// The words that the seed gives.
    pub(crate) fn generated(generated: GeneratedWords) -> EventWords<'a>
        ensures { result ≡ generated }
    {
        EventWords {
            source: WordSource::Seed(generated),
        }
    }

    /// Zeros, for a line that is read outside a run.
    pub(crate) fn zeros() -> EventWords<'a>
        ensures { result ≡ replicate words_per_event 0 }
    {
        EventWords {
            source: WordSource::Zeros,
        }
    }

    /// Makes other words these, so that an event can draw from them.
    pub fn write_to(&self, words: &mut Words)
        ensures { words.new ≡ self.now }
    {
        match &self.source {
            WordSource::Line(given) => write_given(given, words),
            WordSource::Seed(generated) => generated.write_to(words),
            WordSource::Zeros => write_zeros(words),
        }
    }
}

/// Makes other words those that a line gives. It is a call of its own since its room on the stack is cleared, which
/// words of the seed are spared so.
fn write_given(given: &GivenWords<'_>, words: &mut Words)
    ensures { words.new ≡ given.now }
{
    *words = given.words();
}

/// Makes other words zeros. It is a call of its own likewise.
fn write_zeros(words: &mut Words)
    ensures { words.new ≡ replicate words_per_event 0 }
{
    *words = Words::new([0; WORDS_PER_EVENT]);
}
