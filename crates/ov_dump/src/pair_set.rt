ghost use Rattle.std.specs.Prelude.{◌≡◌, ◌↔◌, ◌⊎◌, ℕ, List, [], IfOk, IsTrue, OnOk};
ghost use Rattle.ov_ids.specs.Members.{Has};

use crate::name::Name;
use ov_ids::OutOfMemory;
use std::alloc::Global;
use std::collections::HashSet;
use std::marker::Model;

/// A set of pairs of names. Contracts see its members in some order.
#[derive(Drop)]
pub(crate) struct PairSet<'a> {
    pairs: HashSet<(&'a str, &'a str)>,
}

impl<'a> Model for PairSet<'a> {
    ghost use Rattle.std.specs.Prelude.{List, ℕ, map};

    ghost Value = { List (List ℕ × List ℕ) };

    ghost view = { λ s. map (λ p. (p.0.now, p.1.now)) s.pairs.keys };
}

impl<'a> PairSet<'a> {
    /// The empty set. Nothing is allocated.
    pub(crate) fn new(alloc: Global) -> PairSet<'a>
        ensures { result ≡ [] }
    {
        PairSet {
            pairs: HashSet::new(alloc),
        }
    }

    /// Whether the pair is a member.
    pub(crate) fn contains(&self, from: &'a Name, to: &'a Name) -> bool
        ensures { IsTrue result ↔ Has self.now (from.now, to.now) }
    {
        self.pairs.contains(&(from.as_str(), to.as_str()))
    }

    /// Inserts a pair, and says whether it was no member.
    pub(crate) fn insert(&mut self, from: &'a Name, to: &'a Name) -> Result<bool, OutOfMemory>
        ensures fresh { IfOk result (λ fresh. IsTrue fresh ↔ ¬ Has self.old (from.now, to.now)) }
        ensures pairs { OnOk result ((p : List ℕ × List ℕ) → Has self.new p
            ↔ (((from.now, to.now) ≡ p) ⊎ Has self.old p)) }
    {
        Ok(self.pairs.insert((from.as_str(), to.as_str()))?)
    }
}
