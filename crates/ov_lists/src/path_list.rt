ghost use Rattle.std.specs.Prelude.{◌≡◌, ◌==◌, ◌<◌, ◌^◌, [], ◌∷◌, ◌++◌, length, slice_get, Some, None, MatchOption};
ghost use Rattle.std.specs.Prelude.{OnErr, OnOk};
ghost use Rattle.ov_lists.specs.Code.Cut.{paths_from, AreEnds};

use crate::ids_of_one_path::{id_range, start_of};
use crate::path_ends::Ends;
use crate::path_iter::PathIter;
use ov_ids::{NodeId, OutOfMemory};
use std::alloc::Global;
use std::marker::Model;

/// A list of paths, each a list of ids. Contracts see a list of lists.
///
/// The ids of all paths stand one after another, so that many short paths take little memory.
#[derive(Debug, Drop)]
pub struct Paths {
    ids: Vec<NodeId>,
    ends: Ends,
}

impl Model for Paths {
    ghost use Rattle.std.specs.Prelude.{List, ℕ, length};
    ghost use Rattle.ov_lists.specs.Code.Cut.{paths_from, AreEnds};

    ghost Value = { List (List ℕ) };

    ghost view = { λ p. paths_from 0 p.ends p.ids.items };

    ghost invariant = { λ p. AreEnds 0 p.ends (length p.ids.items) };
}

impl Paths {
    /// No paths. Nothing is allocated.
    pub fn new(alloc: Global) -> Paths
        ensures { result ≡ [] }
    {
        Paths {
            ids: Vec::new(alloc),
            ends: Ends::new(alloc),
        }
    }

    /// The paths that are written in `ids`, each up to one of the ends. Nothing is allocated.
    pub(crate) fn of_parts(ids: Vec<NodeId>, ends: Ends) -> Paths
        requires { AreEnds 0 ends (length ids.items) }
        ensures { result ≡ paths_from 0 ends ids.items }
    {
        Paths { ids, ends }
    }

    /// Appends a path. OutOfMemory (99) if an allocation is refused; the list is unchanged then.
    pub fn push(&mut self, path: &[NodeId]) -> Result<(), OutOfMemory>
        ensures pushed { OnOk result (self.new ≡ self.old ++ path.now ∷ []) }
        ensures unchanged { OnErr result (self.new ≡ self.old) }
    {
        self.ids.reserve(path.len())?;
        self.ends.push(self.ids.len() + path.len())?;
        match self.ids.extend_from_slice(path) {
            Ok(()) => Ok(()),
            Err(_) => unreachable!(),
        }
    }

    /// How many paths there are.
    #[tactic(auto, using(crate::proofs::Cutting::count))]
    pub fn len(&self) -> usize
        ensures { result ≡ length self.now }
    {
        self.ends.len()
    }

    /// Whether there are no paths.
    pub fn is_empty(&self) -> bool
        ensures { result ≡ (length self.now == 0) }
    {
        self.len() == 0
    }

    /// The path at a place, counted from 0. None behind the last one.
    pub fn get(&self, place: usize) -> Option<&[NodeId]>
        ensures { MatchOption result (slice_get self.now place ≡ None)
            (λ path. slice_get self.now place ≡ Some path.now) }
    {
        if place >= self.ends.len() {
            return None;
        }
        let start = start_of(&self.ends, place);
        Some(id_range(&self.ids, start, self.ends.get(place)))
    }

    /// The paths in order.
    #[tactic(auto, using(crate::proofs::Cutting::count))]
    pub fn iter(&self) -> PathIter<'_>
        ensures paths { result ≡ self.now }
        ensures few { length self.now < 2 ^ 64 }
    {
        PathIter::new(&self.ids, &self.ends)
    }
}
