ghost use Rattle.std.specs.Prelude.{◌≡◌, ◌<◌, IfOk};
ghost use Rattle.ov_grow.specs.Choices.{IsRandomOrder, after_chance, choices_of, comes_true, later, next_number};
ghost use Rattle.ov_grow.specs.Choices.{one_of};

use ov_ids::{NodeId, OutOfMemory};
use rand_core::SeedableRng;
use rand_core::utils::NextWord;
use rand_pcg::Pcg64;
use std::alloc::Global;
use std::marker::Model;

/// The choices of growing that are left. They are drawn from a generator of their own. Contracts see its state.
#[derive(Drop)]
pub(crate) struct Choices {
    generator: Pcg64,
}

impl Model for Choices {
    ghost use Rattle.rand_pcg.specs.Lcg.{Lcg};

    ghost Value = { Lcg };

    ghost view = { λ c. c.generator };
}

impl Choices {
    /// All choices of growing with this seed.
    #[tactic(auto, unfolding(crate::specs::Choices::choices_of))]
    pub(crate) fn new(seed: u64) -> Choices
        ensures { result ≡ choices_of seed }
    {
        Choices {
            generator: Pcg64::seed_from_u64(u64::MAX - seed),
        }
    }

    /// The next number.
    #[tactic(auto, unfolding(crate::specs::Choices::next_number, crate::specs::Choices::later))]
    fn next(&mut self) -> u64
        ensures number { result ≡ next_number self.old }
        ensures left { self.new ≡ later self.old }
    {
        self.generator.next_word()
    }

    /// One of `count`, counted from 0.
    pub(crate) fn one_of(&mut self, count: usize) -> usize
        requires { 0 < count }
        ensures value { result ≡ one_of count self.old }
        ensures below { result < count }
        ensures left { self.new ≡ later self.old }
    {
        (self.next() % count as u64) as usize
    }

    /// Whether a chance of so many in 100 comes true. If it is none, no number is drawn.
    pub(crate) fn comes_true(&mut self, of_hundred: u32) -> bool
        ensures value { result ≡ comes_true of_hundred self.old }
        ensures left { self.new ≡ after_chance of_hundred self.old }
    {
        if of_hundred == 0 {
            return false;
        }
        self.next() % 100 < of_hundred as u64
    }

    /// These ids in a random order. OutOfMemory (99) is returned if an allocation was refused.
    pub(crate) fn order(
        &mut self,
        alloc: Global,
        ids: &[NodeId],
    ) -> Result<Vec<NodeId>, OutOfMemory>
        ensures { IfOk result (λ order. IsRandomOrder ids.now order.items self.old self.new) }
    {
        let mut left = ids.to_vec(alloc)?;
        let mut ordered = Vec::with_capacity(alloc, ids.len())?;
        while !left.is_empty() {
            let place = self.one_of(left.len());
            ordered.push(left.remove(place))?;
        }
        Ok(ordered)
    }
}
