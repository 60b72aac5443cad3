ghost use Rattle.std.specs.Prelude.{◌≡◌, ◌≢◌, ◌<◌, ◌≤◌, ◌+◌, ◌++◌, ◌%◌, ◌↔◌, ℕ, [], ◌∷◌, length, None};
ghost use Rattle.std.specs.Prelude.{IfNone, IfSome};
ghost use Rattle.rand_core.specs.Steps.{first_words};
ghost use Rattle.rand_pcg.specs.Pcg.{pcg64};
ghost use Rattle.ov_words.specs.Pick.{AreDrawn};
ghost use Rattle.ov_words.specs.Stream.{words_per_event};

use crate::Words;
use crate::event_random_word_list::copied;
use ov_ids::NodeId;
use rand_core::utils::NextWord;
use rand_pcg::Pcg64;
use std::marker::Model;

/// Draws random choices from an event's words, each word once and in order. Contracts see the words that are left.
#[derive(Debug, Drop)]
pub struct Draws<'a> {
    /// The next words.
    listed: &'a [u64],
    /// How many words come after them.
    more: usize,
    /// What makes these.
    generator: Pcg64,
}

impl<'a> Model for Draws<'a> {
    ghost use Rattle.std.specs.Prelude.{◌+◌, ◌++◌, ◌≤◌, List, ℕ, length};
    ghost use Rattle.rand_core.specs.Steps.{first_words};
    ghost use Rattle.rand_pcg.specs.Pcg.{pcg64};
    ghost use Rattle.ov_words.specs.Stream.{words_per_event};

    ghost Value = { List ℕ };

    ghost view = { λ d. d.listed.now ++ first_words pcg64 d.more d.generator };

    ghost invariant = { λ d. length d.listed.now + d.more ≤ words_per_event };
}

impl<'a> Draws<'a> {
    /// All words of an event, none drawn yet.
    pub fn new(words: &'a Words) -> Draws<'a>
        ensures value { result ≡ words.now }
        ensures count { length result ≡ words_per_event }
    {
        words.draws()
    }

    /// Words that are listed, and then so many more that a generator makes. None is drawn yet.
    pub(crate) fn of_parts(listed: &'a [u64], more: usize, generator: &Pcg64) -> Draws<'a>
        requires { length listed.now + more ≤ words_per_event }
        ensures { result ≡ listed.now ++ first_words pcg64 more generator.now }
    {
        Draws {
            listed,
            more,
            generator: copied(generator),
        }
    }

    /// Draws with the same words left. A step that is given up puts its draws back by a copy made before.
    pub fn copy(&self) -> Draws<'a>
        ensures { result ≡ self.now }
    {
        Draws::of_parts(self.listed, self.more, &self.generator)
    }

    /// The number of words that are left.
    #[tactic(auto, using(crate::proofs::Made::length_left))]
    pub fn left(&self) -> usize
        ensures { result ≡ length self.now }
    {
        self.listed.len() + self.more
    }

    /// The next word. It is then used up.
    #[tactic(auto, using(crate::proofs::Made::next_listed, crate::proofs::Made::next_made))]
    pub fn next(&mut self) -> u64
        requires { 0 < length self.old }
        ensures { self.old ≡ result ∷ self.new }
    {
        match self.listed.split_first() {
            Some((word, rest)) => {
                self.listed = rest;
                *word
            }
            None => {
                self.more -= 1;
                self.generator.next_word()
            }
        }
    }

    /// Picks one of so many places by the next word, which is then used up: place `word % count`, counted from 0.
    pub fn place(&mut self, count: usize) -> usize
        requires some { 0 < count }
        requires word { 0 < length self.old }
        ensures within { result < count }
        ensures drawn { (word : ℕ) × (self.old ≡ word ∷ self.new) × (result ≡ word % count) }
    {
        let word = self.next();
        (word % count as u64) as usize
    }

    /// Picks a member of a set by the next word, which is then used up: member number `word % size`, counted from 0, in
    /// the order of the slice. None if the set is empty, and then no word is used, and none has to be left. (Chosen
    /// here.)
    pub fn pick(&mut self, set: &[NodeId]) -> Option<NodeId>
        requires { set.now ≢ [] → 0 < length self.old }
        ensures drawn { IfSome result (λ d. AreDrawn (record { from = set.now; member = d } ∷ []) self.old self.new) }
        ensures empty { result ≡ None ↔ set.now ≡ [] }
        ensures no_word { IfNone result (self.new ≡ self.old) }
    {
        if set.is_empty() {
            return None;
        }
        Some(set[self.place(set.len())])
    }
}
