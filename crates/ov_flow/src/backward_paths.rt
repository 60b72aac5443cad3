ghost use Rattle.std.specs.Prelude.{◌≡◌, map, reverse};
ghost use Rattle.std.specs.Iterator.{YieldsFirstRef, item_count};
ghost use Rattle.ov_flow.specs.Code.Flat.{paths_after, paths_in};

use crate::paths_out_of_flat_list::{source_in, split_path};
use std::marker::Model;

/// Paths one after another, each as its places from its end back to the source. Contracts see those that are still to
/// come.
#[derive(Drop)]
pub struct PathsBackwards<'a> {
    left: &'a [u16],
    source: u16,
}

impl<'a> Model for PathsBackwards<'a> {
    ghost use Rattle.std.specs.Prelude.{List, ℕ, [], map, reverse};
    ghost use Rattle.ov_flow.specs.Code.Flat.{paths_after};

    ghost Value = { List (List ℕ) };

    ghost view = { λ i. map reverse (paths_after i.source [] i.left.now) };
}

impl<'a> PathsBackwards<'a> {
    /// The paths of a flat list.
    pub(crate) fn new(flat: &'a [u16]) -> PathsBackwards<'a>
        ensures { result ≡ map reverse (paths_in flat.now) }
    {
        PathsBackwards {
            left: flat,
            source: source_in(flat),
        }
    }
}

impl<'a> Iterator for PathsBackwards<'a> {
    type Item = &'a [u16];

    ghost next_gives = { YieldsFirstRef (λ i. i) };

    ghost remaining = { item_count (λ i. i) };

    #[inline(always)]
    fn next(&mut self) -> Option<&'a [u16]> {
        let (path, rest) = split_path(self.left, self.source)?;
        self.left = rest;
        Some(path)
    }
}
