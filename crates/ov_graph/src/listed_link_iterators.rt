ghost use Rattle.std.specs.Prelude.{◌≡◌, ℕ, ◌<◌, length};
ghost use Rattle.std.specs.Iterator.{YieldsFirst, item_count};
ghost use Rattle.ov_ids.specs.Members.{Has};
ghost use Rattle.ov_graph.specs.Code.Listed.{nodes_at};

use ov_ids::NodeId;
use std::marker::Model;

/// The nodes at places, in their order. Contracts see those that are still to come.
#[derive(Drop)]
pub(crate) struct ListedNeighbours<'a> {
    nodes: &'a [NodeId],
    places: &'a [u16],
}

impl<'a> Model for ListedNeighbours<'a> {
    ghost use Rattle.std.specs.Prelude.{List, ℕ, ◌<◌, length};
    ghost use Rattle.ov_ids.specs.Members.{Has};
    ghost use Rattle.ov_graph.specs.Code.Listed.{nodes_at};

    ghost Value = { List ℕ };

    ghost view = { λ n. nodes_at n.nodes.now n.places.now };

    ghost invariant = { λ n. (p : ℕ) → Has n.places.now p → p < length n.nodes.now };
}

impl<'a> ListedNeighbours<'a> {
    pub(crate) fn new(nodes: &'a [NodeId], places: &'a [u16]) -> ListedNeighbours<'a>
        requires { (p : ℕ) → Has places.now p → p < length nodes.now }
        ensures { result ≡ nodes_at nodes.now places.now }
    {
        ListedNeighbours { nodes, places }
    }
}

impl Iterator for ListedNeighbours<'_> {
    type Item = NodeId;

    ghost next_gives = { YieldsFirst (λ n. n) };

    ghost remaining = { item_count (λ n. n) };

    fn next(&mut self) -> Option<NodeId> {
        let place = *self.places.first()?;
        self.places = &self.places[1..];
        Some(self.nodes[place as usize])
    }
}

/// Links as they are listed. Contracts see those that are still to come.
#[derive(Drop)]
pub(crate) struct ListedLinks<'a> {
    links: &'a [(NodeId, NodeId)],
}

impl<'a> Model for ListedLinks<'a> {
    ghost use Rattle.std.specs.Prelude.{List, ℕ};

    ghost Value = { List (ℕ × ℕ) };

    ghost view = { λ l. l.links.now };
}

impl<'a> ListedLinks<'a> {
    pub(crate) fn new(links: &'a [(NodeId, NodeId)]) -> ListedLinks<'a>
        ensures { result ≡ links.now }
    {
        ListedLinks { links }
    }
}

impl Iterator for ListedLinks<'_> {
    type Item = (NodeId, NodeId);

    ghost next_gives = { YieldsFirst (λ l. l) };

    ghost remaining = { item_count (λ l. l) };

    fn next(&mut self) -> Option<(NodeId, NodeId)> {
        let (first, rest) = self.links.split_first()?;
        self.links = rest;
        Some(*first)
    }
}
