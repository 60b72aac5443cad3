ghost use Rattle.std.specs.Prelude.{◌≡◌};
ghost use Rattle.std.specs.Iterator.{YieldsFirst, item_count};
ghost use Rattle.ov_graph.specs.Row.{picked};
ghost use Rattle.ov_graph.specs.Code.Kept.{links_read, IsRowOf, IsKept};

use crate::bit_rows::{Row, WORDS, first_from, words_for};
use ov_ids::NodeId;
use std::marker::Model;

/// The neighbours of a node, ascending. Contracts see those that are still to come.
#[derive(Drop)]
pub(crate) struct RowNeighbours<'a> {
    nodes: &'a [NodeId],
    row: &'a Row,
    words: usize,
    next: usize,
}

impl<'a> Model for RowNeighbours<'a> {
    ghost use Rattle.std.specs.Prelude.{List, ℕ, length, drop};
    ghost use Rattle.ov_graph.specs.Row.{AreWordsFor};
    ghost use Rattle.ov_graph.specs.Row.{picked};
    ghost use Rattle.ov_graph.specs.Code.Kept.{IsRowOf};

    ghost Value = { List ℕ };

    ghost view = { λ n. picked n.row.now n.next (drop n.next n.nodes.now) };

    ghost invariant = { λ n. IsRowOf n.nodes.now n.row.now × AreWordsFor (length n.nodes.now) n.words };
}

impl<'a> RowNeighbours<'a> {
    pub(crate) fn new(nodes: &'a [NodeId], row: &'a Row) -> RowNeighbours<'a>
        requires { IsRowOf nodes.now row.now }
        ensures { result ≡ picked row.now 0 nodes.now }
    {
        RowNeighbours {
            nodes,
            row,
            words: words_for::<WORDS>(nodes.len()),
            next: 0,
        }
    }
}

impl Iterator for RowNeighbours<'_> {
    type Item = NodeId;

    ghost next_gives = { YieldsFirst (λ n. n) };

    ghost remaining = { item_count (λ n. n) };

    fn next(&mut self) -> Option<NodeId> {
        let place = first_from(self.row, self.next, self.words)?;
        self.next = place + 1;
        Some(self.nodes[place])
    }
}

/// The links of a graph, ascending. Contracts see those that are still to come.
#[derive(Drop)]
pub(crate) struct RowLinks<'a> {
    nodes: &'a [NodeId],
    rows: &'a [Row],
    words: usize,
    lower: usize,
    next: usize,
}

impl<'a> Model for RowLinks<'a> {
    ghost use Rattle.std.specs.Prelude.{List, ℕ, length};
    ghost use Rattle.ov_graph.specs.Row.{AreWordsFor};
    ghost use Rattle.ov_graph.specs.Code.Kept.{links_from, IsKept};

    ghost Value = { List (ℕ × ℕ) };

    ghost view = { λ l. links_from l.nodes.now l.rows.now l.lower l.next };

    ghost invariant = { λ l. IsKept l.nodes.now l.rows.now × AreWordsFor (length l.nodes.now) l.words };
}

impl<'a> RowLinks<'a> {
    pub(crate) fn new(nodes: &'a [NodeId], rows: &'a [Row]) -> RowLinks<'a>
        requires { IsKept nodes.now rows.now }
        ensures { result ≡ links_read 0 nodes.now rows.now }
    {
        RowLinks {
            nodes,
            rows,
            words: words_for::<WORDS>(nodes.len()),
            lower: 0,
            next: 1,
        }
    }
}

impl Iterator for RowLinks<'_> {
    type Item = (NodeId, NodeId);

    ghost next_gives = { YieldsFirst (λ l. l) };

    ghost remaining = { item_count (λ l. l) };

    fn next(&mut self) -> Option<(NodeId, NodeId)> {
        while self.lower < self.nodes.len() {
            if let Some(higher) = first_from(&self.rows[self.lower], self.next, self.words) {
                self.next = higher + 1;
                return Some((self.nodes[self.lower], self.nodes[higher]));
            }
            self.lower += 1;
            self.next = self.lower + 1;
        }
        None
    }
}
