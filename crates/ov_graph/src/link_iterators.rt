ghost use Rattle.std.specs.Prelude.{◌≡◌};
ghost use Rattle.std.specs.Iterator.{YieldsFirst, item_count};

use crate::listed_link_iterators::{ListedLinks, ListedNeighbours};
use crate::row_link_iterators::{RowLinks, RowNeighbours};
use ov_ids::NodeId;
use std::marker::Model;

/// The neighbours of a node, ascending. Contracts see those that are still to come.
#[derive(Drop)]
pub struct Neighbours<'a> {
    left: NeighboursLeft<'a>,
}

/// Neighbours still to come, by how a graph is kept.
#[derive(Drop)]
enum NeighboursLeft<'a> {
    Rows(RowNeighbours<'a>),
    Lists(ListedNeighbours<'a>),
}

impl<'a> Model for Neighbours<'a> {
    ghost use Rattle.std.specs.Prelude.{List, ℕ};

    ghost Value = { List ℕ };

    ghost use Rattle.ov_graph.specs.Code.Dispatched.{neighbours_left};

    ghost view = { λ n. neighbours_left n.left };
}

impl<'a> Neighbours<'a> {
    pub(crate) fn of_rows(rows: RowNeighbours<'a>) -> Neighbours<'a>
        ensures { result ≡ rows.entry }
    {
        Neighbours {
            left: NeighboursLeft::Rows(rows),
        }
    }

    pub(crate) fn of_lists(lists: ListedNeighbours<'a>) -> Neighbours<'a>
        ensures { result ≡ lists.entry }
    {
        Neighbours {
            left: NeighboursLeft::Lists(lists),
        }
    }
}

impl Iterator for Neighbours<'_> {
    type Item = NodeId;

    ghost next_gives = { YieldsFirst (λ n. n) };

    ghost remaining = { item_count (λ n. n) };

    fn next(&mut self) -> Option<NodeId> {
        match &mut self.left {
            NeighboursLeft::Rows(rows) => rows.next(),
            NeighboursLeft::Lists(lists) => lists.next(),
        }
    }
}

/// The links of a graph, ascending. Contracts see those that are still to come.
#[derive(Drop)]
pub struct Links<'a> {
    left: LinksLeft<'a>,
}

/// Links still to come, by how a graph is kept.
#[derive(Drop)]
enum LinksLeft<'a> {
    Rows(RowLinks<'a>),
    Lists(ListedLinks<'a>),
}

impl<'a> Model for Links<'a> {
    ghost use Rattle.std.specs.Prelude.{List, ℕ};

    ghost Value = { List (ℕ × ℕ) };

    ghost use Rattle.ov_graph.specs.Code.Dispatched.{links_left};

    ghost view = { λ l. links_left l.left };
}

impl<'a> Links<'a> {
    pub(crate) fn of_rows(rows: RowLinks<'a>) -> Links<'a>
        ensures { result ≡ rows.entry }
    {
        Links {
            left: LinksLeft::Rows(rows),
        }
    }

    pub(crate) fn of_lists(lists: ListedLinks<'a>) -> Links<'a>
        ensures { result ≡ lists.entry }
    {
        Links {
            left: LinksLeft::Lists(lists),
        }
    }
}

impl Iterator for Links<'_> {
    type Item = (NodeId, NodeId);

    ghost next_gives = { YieldsFirst (λ l. l) };

    ghost remaining = { item_count (λ l. l) };

    fn next(&mut self) -> Option<(NodeId, NodeId)> {
        match &mut self.left {
            LinksLeft::Rows(rows) => rows.next(),
            LinksLeft::Lists(lists) => lists.next(),
        }
    }
}
