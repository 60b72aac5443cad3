ghost use Rattle.std.specs.Prelude.{◌≡◌, ◌<◌, ◌^◌, length};
ghost use Rattle.std.specs.Iterator.{YieldsFirstRef, item_count};
ghost use Rattle.ov_lists.specs.Code.Cut.{paths_from, AreEnds};

use crate::ids_of_one_path::id_range;
use crate::path_ends::{EndIter, Ends};
use ov_ids::NodeId;
use std::marker::Model;

/// The paths of a list, in order. Contracts see those that are still to come.
#[derive(Drop)]
pub struct PathIter<'a> {
    ids: &'a [NodeId],
    ends: EndIter<'a>,
    start: usize,
}

impl<'a> Model for PathIter<'a> {
    ghost use Rattle.std.specs.Prelude.{List, ℕ, length};
    ghost use Rattle.ov_lists.specs.Code.Cut.{paths_from, AreEnds};

    ghost Value = { List (List ℕ) };

    ghost view = { λ i. paths_from i.start i.ends i.ids.now };

    ghost invariant = { λ i. AreEnds i.start i.ends (length i.ids.now) };
}

impl<'a> PathIter<'a> {
    /// The paths that are written in `ids`, each up to one of the ends.
    pub(crate) fn new(ids: &'a [NodeId], ends: &'a Ends) -> PathIter<'a>
        requires { AreEnds 0 ends.now (length ids.now) }
        ensures paths { result ≡ paths_from 0 ends.now ids.now }
        ensures few { length ends.now < 2 ^ 64 }
    {
        PathIter {
            ids,
            ends: ends.iter(),
            start: 0,
        }
    }
}

impl<'a> Iterator for PathIter<'a> {
    type Item = &'a [NodeId];

    ghost next_gives = { YieldsFirstRef (λ i. i) };

    ghost remaining = { item_count (λ i. i) };

    fn next(&mut self) -> Option<&'a [NodeId]> {
        let end = self.ends.next_end()?;
        let path = id_range(self.ids, self.start, end);
        self.start = end;
        Some(path)
    }
}
