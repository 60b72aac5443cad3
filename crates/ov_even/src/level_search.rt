//! The search for the level of the deciding piece, with what is kept of that level and the one below it: a certificate
//! needs no more. Other levels are tried only to find it.
ghost use Rattle.std.specs.Prelude.{◌≡◌, ◌<◌, ◌≤◌, ◌+◌, ◌++◌, length, take, IfOk, IfSome, IfNone};
ghost use Rattle.ov_graph.specs.Links.{IsGraph, IsWithinLimit, IsGroup, AreAllLinked};
ghost use Rattle.ov_graph.specs.Joined.{NoFewerSplit};
ghost use Rattle.ov_even.specs.Hauls.{AreRight, SufficeKeeping};
ghost use Rattle.ov_even.specs.Levels.{AreFirstDone, IsTried};
ghost use Rattle.ov_even.specs.Searching.{AreFewTries, HasNumber, IsSearched, last_search};
ghost use Rattle.ov_even.specs.Code.Narrowing.{HasCutWithin, HasCutOf};
ghost use Rattle.ov_even.specs.declared.worker_haul.Keeping.TheVariants.{CutsAlone};

use crate::first_piece_with_cut::{cut_size, first_cut};
use crate::level_bounds::LevelBounds;
use crate::level_trying::try_level;
use crate::progress_watcher::Watcher;
use crate::worker_haul::{Haul, Keeping};
use ov_fans::Settler;
use ov_graph::Graph;
use ov_ids::{NodeId, OutOfMemory};
use std::alloc::Global;
use std::marker::Model;

/// The search for the level of the deciding piece of a graph and a group, in which two members are not linked. It says
/// which level to try next, and takes the hauls of it, until they suffice. Contracts see the graph, the members, the
/// level to try next, a bound on how many levels are still tried, and what the hauls keep.
#[derive(Drop)]
pub struct LevelSearch<'a> {
    bounds: LevelBounds<'a>,
    keeping: Keeping,
    /// The hauls of the good level `low` of the bounds.
    kept: Vec<Haul>,
    /// Of the level to try next the pieces for the first so many members are done with.
    done: usize,
}

impl<'a> Model for LevelSearch<'a> {
    ghost use Rattle.ov_even.specs.Levels.{KeepingSearch, AreFirstDone};
    ghost use Rattle.ov_even.specs.Code.Narrowing.{AreKept};

    ghost Value = { KeepingSearch };

    ghost view = { λ s. record { search = s.bounds.search; keeping = s.keeping } };

    ghost invariant = { λ s. AreKept s.keeping s.bounds s.kept.items
        × AreFirstDone s.keeping s.bounds.search.graph s.bounds.search.members s.bounds.search.level s.done };
}

/// The search after a level was tried.
#[derive(Drop)]
pub enum Searched<'a> {
    /// These hauls suffice.
    Enough(Vec<Haul>),
    /// The search goes on.
    Again(LevelSearch<'a>),
}

impl<'a> LevelSearch<'a> {
    /// Begins a search for a group in which two members are not linked. It tries at most 2 log2 n + 3 levels of a graph
    /// of n nodes.
    pub fn new(
        alloc: Global,
        graph: &'a Graph,
        group: &'a [NodeId],
        keeping: Keeping,
    ) -> LevelSearch<'a>
        requires group { IsGroup graph.now group.now }
        requires apart { ¬ AreAllLinked graph.now group.now }
        ensures graph { result.search.graph ≡ graph.now }
        ensures members { result.search.members ≡ group.now }
        ensures keeping { result.keeping ≡ keeping }
        ensures few { AreFewTries (length graph.now.nodes) result.search.left }
    {
        LevelSearch {
            bounds: LevelBounds::new(graph, group),
            keeping,
            kept: Vec::new(alloc),
            done: 0,
        }
    }

    /// Begins a search for a group that `fewest` nodes split, and fewer do not. No `fewest` nodes split its first
    /// members, `unsplit` of them; that may be 0. The search tries one level, the one above `fewest`, and of that the
    /// pieces behind those for the first members. Its hauls keep cuts alone: those of lower levels would be needed for
    /// paths.
    pub fn known(
        alloc: Global,
        graph: &'a Graph,
        group: &'a [NodeId],
        fewest: usize,
        unsplit: usize,
    ) -> LevelSearch<'a>
        requires number { HasNumber graph.now group.now fewest }
        requires within { unsplit ≤ length group.now }
        requires unsplit { NoFewerSplit graph.now (take unsplit group.now) (fewest + 1) }
        ensures search { result.search ≡ last_search graph.now group.now fewest }
        ensures keeping { result.keeping ≡ CutsAlone }
    {
        prove!(graph.nodes().len() <= Graph::MOST_OF_ANY);
        LevelSearch {
            bounds: LevelBounds::known(graph, group, fewest),
            keeping: Keeping::CutsAlone,
            kept: Vec::new(alloc),
            done: unsplit,
        }
    }

    /// The level to try next.
    pub fn level(&self) -> usize
        ensures level { result ≡ self.now.search.level }
        ensures low { 1 ≤ result }
        ensures below { result < length self.now.search.graph.nodes }
        ensures left { 1 ≤ self.now.search.left }
        ensures graph { IsGraph self.now.search.graph }
        ensures within { IsWithinLimit self.now.search.graph }
        ensures group { IsGroup self.now.search.graph self.now.search.members }
    {
        self.bounds.level()
    }

    /// How many of the first members have no piece left to settle at the level to try next.
    pub fn done(&self) -> usize
        ensures { AreFirstDone self.now.keeping self.now.search.graph self.now.search.members self.now.search.level
            result }
    {
        self.done
    }

    /// What the hauls keep.
    pub fn keeping(&self) -> Keeping
        ensures { result ≡ self.now.keeping }
    {
        self.keeping
    }

    /// Takes the hauls of the level to try next: what is kept of each of its pieces, or of each up to one that has a
    /// cut. The order of the hauls does not matter, and linked pairs need not be in them. Faults: out of memory.
    pub fn take(self, hauls: Vec<Haul>) -> Result<Searched<'a>, OutOfMemory>
        requires right { AreRight self.search.graph self.search.members hauls.items }
        requires tried { IsTried self.keeping self.search.graph self.search.members hauls.items self.search.level }
        ensures { IfOk result (IsSearched self.entry) }
    {
        let LevelSearch {
            bounds,
            keeping,
            kept,
            ..
        } = self;
        match cut_within(&hauls, bounds.level()) {
            None => Ok(Searched::Again(LevelSearch {
                bounds: bounds.raised(),
                keeping,
                kept: hauls,
                done: 0,
            })),
            Some(_) if bounds.is_just_above_low() => Ok(Searched::Enough(joined(kept, hauls)?)),
            Some(size) => Ok(Searched::Again(LevelSearch {
                bounds: bounds.lowered(size),
                keeping,
                kept,
                done: 0,
            })),
        }
    }
}

/// Settles pieces of the levels that this search tries, until what is kept of them suffices.
pub(crate) fn search<'a, W: Watcher>(
    alloc: Global,
    graph: &'a Graph,
    group: &'a [NodeId],
    begun: LevelSearch<'a>,
    watcher: &mut W,
) -> Result<Vec<Haul>, OutOfMemory>
    requires group { IsGroup graph.now group.now }
    requires graph { begun.search.graph ≡ graph.now }
    requires members { begun.search.members ≡ group.now }
    ensures { IfOk result (λ hauls. SufficeKeeping begun.entry.keeping graph.now group.now hauls.items) }
{
    let mut settler = Settler::new(alloc, graph, group)?;
    let keeping = begun.keeping();
    let mut levels = begun;
    loop {
        let level = levels.level();
        let haul = try_level(
            alloc,
            &mut settler,
            group.len(),
            level,
            levels.done(),
            keeping,
            watcher,
        )?;
        match levels.take(vec![in alloc; haul]?)? {
            Searched::Enough(hauls) => return Ok(hauls),
            Searched::Again(next) => levels = next,
        }
    }
}

/// The size of the first cut in the hauls, if it belongs to a piece of the level or of a lower one.
fn cut_within(hauls: &[Haul], level: usize) -> Option<usize>
    ensures some { IfSome result (HasCutOf hauls.now level) }
    ensures none { IfNone result (¬ HasCutWithin hauls.now level) }
{
    let first = first_cut(hauls)?;
    if first.piece.level() as usize > level {
        return None;
    }
    cut_size(first)
}

/// The hauls of both lists.
fn joined(mut kept: Vec<Haul>, mut hauls: Vec<Haul>) -> Result<Vec<Haul>, OutOfMemory>
    ensures { IfOk result (λ all. all.items ≡ kept.items ++ hauls.items) }
{
    kept.append(&mut hauls)?;
    Ok(kept)
}
