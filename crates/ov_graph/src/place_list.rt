ghost use Rattle.std.specs.Prelude.{◌≡◌, ◌↔◌, ℕ, ◌<◌, ◌++◌, ◌∷◌, [], IsTrue, OnOk};
ghost use Rattle.ov_ids.specs.Members.{Has, Ascends};
ghost use Rattle.ov_graph.specs.Links.{most_of_any_graph};
ghost use Rattle.ov_graph.specs.Code.Listed.{AreFrom};

use crate::graph::Graph;
use ov_ids::OutOfMemory;
use std::alloc::Global;
use std::marker::Model;

/// How many places are looked at one after another. Among more of them, one is found by binary search.
const FEW: usize = 16;

/// Places of nodes. Contracts see them in order.
#[derive(Drop)]
pub(crate) struct PlaceList {
    places: Vec<u16>,
}

impl Model for PlaceList {
    ghost use Rattle.std.specs.Prelude.{List, ℕ};

    ghost Value = { List ℕ };

    ghost view = { λ l. l.places.items };
}

impl PlaceList {
    /// The list without places. Nothing is allocated.
    pub(crate) fn new(alloc: Global) -> PlaceList
        ensures { result ≡ [] }
    {
        PlaceList {
            places: Vec::new(alloc),
        }
    }

    /// Adds a place at the end.
    pub(crate) fn push(&mut self, place: usize) -> Result<(), OutOfMemory>
        requires { place < most_of_any_graph }
        ensures { OnOk result (self.new ≡ self.old ++ place ∷ []) }
    {
        self.places.push(place as u16)?;
        Ok(())
    }

    /// Whether a place is in the list, by binary search.
    pub(crate) fn has(&self, place: usize) -> bool
        requires ascend { Ascends self.now }
        requires place { place < most_of_any_graph }
        ensures { IsTrue result ↔ Has self.now place }
    {
        self.places.binary_search(&(place as u16)).is_ok()
    }

    /// The places from `after` on, in order.
    pub(crate) fn from(&self, after: usize) -> &[u16]
        requires ascend { Ascends self.now }
        requires fit { (p : ℕ) → Has self.now p → p < most_of_any_graph }
        ensures { AreFrom self.now after result.now }
    {
        if self.places.len() <= FEW {
            return from_one_by_one(&self.places, after);
        }
        self.searched(after)
    }

    /// The same, by binary search.
    fn searched(&self, after: usize) -> &[u16]
        requires ascend { Ascends self.now }
        requires fit { (p : ℕ) → Has self.now p → p < most_of_any_graph }
        ensures { AreFrom self.now after result.now }
    {
        if after >= Graph::MOST_OF_ANY {
            return &self.places[self.places.len()..];
        }
        let start = match self.places.binary_search(&(after as u16)) {
            Ok(place) => place,
            Err(place) => place,
        };
        &self.places[start..]
    }

    /// The places in order.
    pub(crate) fn as_slice(&self) -> &[u16]
        ensures { result.now ≡ self.now }
    {
        &self.places
    }
}

/// The places from `after` on of these, which ascend.
fn from_one_by_one(places: &[u16], after: usize) -> &[u16]
    requires { Ascends places.now }
    ensures { AreFrom places.now after result.now }
{
    let mut left = places;
    while let Some((first, rest)) = left.split_first() {
        if *first as usize >= after {
            return left;
        }
        left = rest;
    }
    left
}
