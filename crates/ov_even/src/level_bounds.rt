//! The bounds between which the level of the deciding piece is looked for: a good level, and one that is not good.
//! Levels are about doubled first, and then those between the two are halved.
ghost use Rattle.std.specs.Prelude.{◌≡◌, ◌≢◌, ◌↔◌, ◌<◌, ◌≤◌, ◌+◌, length, IsTrue};
ghost use Rattle.ov_graph.specs.Links.{IsGraph, IsGroup, IsWithinLimit, AreAllLinked, most_of_any_graph};
ghost use Rattle.ov_even.specs.Levels.{IsLevelGood};
ghost use Rattle.ov_even.specs.Searching.{AreFewTries, HasNumber, SearchGoesOn, last_search};
ghost use Rattle.ov_even.specs.Code.Narrowing.{HasDeciding, AreBounds, IsNext, SplitsWith, tries_left};

use crate::failing_level_by_degree::failing_level;
use ov_graph::Graph;
use ov_ids::NodeId;
use std::marker::Model;

/// The bounds of a search in a graph and a group, in which two members are not linked. Contracts see the graph, the
/// members, the level to try next, a bound on how many levels are still tried, and the good level `low`.
#[derive(Drop)]
pub(crate) struct LevelBounds<'a> {
    graph: &'a Graph,
    group: &'a [NodeId],
    /// This level is good.
    low: usize,
    /// The level to try next.
    level: usize,
    /// This level is not good.
    high: usize,
    /// No level just below `high` has been tried in vain.
    guesses: bool,
}

impl<'a> Model for LevelBounds<'a> {
    ghost use Rattle.ov_even.specs.Code.Narrowing.{BoundsState, HasDeciding, AreBounds, IsNext, tries_left};

    ghost Value = { BoundsState };

    ghost view = { λ s. record {
      search = record {
        graph = s.graph.now;
        members = s.group.now;
        level = s.level;
        left = tries_left s.low s.high s.guesses;
      };
      low = s.low;
    } };

    ghost invariant = { λ s. HasDeciding s.graph.now s.group.now
        × AreBounds s.graph.now s.group.now s.low s.high × IsNext s.low s.high s.guesses s.level };
}

impl<'a> LevelBounds<'a> {
    /// The bounds before any level was tried: level 0, which has no pieces, and a level that the links show not to be
    /// good.
    pub(crate) fn new(graph: &'a Graph, group: &'a [NodeId]) -> LevelBounds<'a>
        requires group { IsGroup graph.now group.now }
        requires apart { ¬ AreAllLinked graph.now group.now }
        ensures graph { result.search.graph ≡ graph.now }
        ensures members { result.search.members ≡ group.now }
        ensures low { result.low ≡ 0 }
        ensures few { AreFewTries (length graph.now.nodes) result.search.left }
    {
        let high = failing_level(graph, group);
        LevelBounds::between(graph, group, 0, high, true)
    }

    /// The bounds of a group that `fewest` nodes split, and fewer do not: level `fewest` is good, the one above it is
    /// not.
    pub(crate) fn known(graph: &'a Graph, group: &'a [NodeId], fewest: usize) -> LevelBounds<'a>
        requires number { HasNumber graph.now group.now fewest }
        ensures search { result.search ≡ last_search graph.now group.now fewest }
        ensures low { result.low ≡ fewest }
        ensures good { IsLevelGood graph.now group.now fewest }
    {
        prove!(graph.nodes().len() <= Graph::MOST_OF_ANY);
        LevelBounds::between(graph, group, fewest, fewest + 1, false)
    }

    /// These bounds, with the level to try next.
    fn between(
        graph: &'a Graph,
        group: &'a [NodeId],
        low: usize,
        high: usize,
        guesses: bool,
    ) -> LevelBounds<'a>
        requires deciding { HasDeciding graph.now group.now }
        requires bounds { AreBounds graph.now group.now low high }
        ensures graph { result.search.graph ≡ graph.now }
        ensures members { result.search.members ≡ group.now }
        ensures low { result.low ≡ low }
        ensures next { IsNext low high guesses result.search.level }
        ensures left { result.search.left ≡ tries_left low high guesses }
    {
        LevelBounds {
            graph,
            group,
            low,
            level: next_level(low, high, guesses),
            high,
            guesses,
        }
    }

    /// The level to try next.
    pub(crate) fn level(&self) -> usize
        ensures level { result ≡ self.now.search.level }
        ensures low { 1 ≤ result }
        ensures below { result < length self.now.search.graph.nodes }
        ensures left { 1 ≤ self.now.search.left }
        ensures graph { IsGraph self.now.search.graph }
        ensures within { IsWithinLimit self.now.search.graph }
        ensures group { IsGroup self.now.search.graph self.now.search.members }
    {
        self.level
    }

    /// Whether the level to try next is the one above the good level `low`. If it is not good, it is the level of the
    /// deciding piece.
    pub(crate) fn is_just_above_low(&self) -> bool
        ensures lowest { IsTrue result ↔ (self.now.search.level ≡ self.now.low + 1) }
        ensures good { IsLevelGood self.now.search.graph self.now.search.members self.now.low }
    {
        self.low + 1 == self.level
    }

    /// The bounds after the level turned out to be good.
    pub(crate) fn raised(self) -> LevelBounds<'a>
        requires { IsLevelGood self.search.graph self.search.members self.search.level }
        ensures low { result.low ≡ self.entry.search.level }
        ensures on { SearchGoesOn self.entry.search result.search }
    {
        LevelBounds::between(self.graph, self.group, self.level, self.high, self.guesses)
    }

    /// The bounds after a cut of this size turned out to split the group. The level is not the one above `low`.
    pub(crate) fn lowered(self, size: usize) -> LevelBounds<'a>
        requires between { self.search.level ≢ self.low + 1 }
        requires split { SplitsWith self.search.graph self.search.members self.search.level size }
        ensures low { result.low ≡ self.entry.low }
        ensures on { SearchGoesOn self.entry.search result.search }
    {
        let guesses = self.guesses && self.level + 1 < self.high;
        LevelBounds::between(self.graph, self.group, self.low, size + 1, guesses)
    }
}

/// The level to try next: `high` if it is just above `low`. Otherwise it is between the two. As long as levels are
/// guessed, it is 2 * low + 1 if that is less than half of `high`, and else just below `high`. Then it is in the
/// middle.
fn next_level(low: usize, high: usize, guesses: bool) -> usize
    requires rises { low < high }
    requires fits { high < most_of_any_graph }
    ensures { IsNext low high guesses result }
{
    if low + 1 == high {
        return high;
    }
    if !guesses {
        return (low + high) / 2;
    }
    let double = 2 * low + 1;
    if 2 * double < high { double } else { high - 1 }
}
