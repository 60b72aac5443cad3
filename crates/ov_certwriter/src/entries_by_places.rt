//! Entries whose paths are lists of places of nodes in the graph, as they were found. Their texts have the ids, which
//! are looked up as they are put: nothing is allocated.
ghost use Rattle.std.specs.Prelude.{◌≡◌, ◌≤◌, ◌+◌, length, Some, None};
ghost use Rattle.serde_json.specs.Written.{compact_text};
ghost use Rattle.ov_flow.specs.Flow.{ArePlaces};
ghost use Rattle.ov_certfile.specs.DataOf.{pair_data, fan_data};
ghost use Rattle.ov_certwriter.specs.Code.Blocks.{Puts, entry_room};
ghost use Rattle.ov_certwriter.specs.Code.Placed.{pair_of, fan_of, by_ids};

use crate::byte_putting::{put_byte, put_text, put_whole};
use crate::entry_texts::Entry;
use crate::path_texts::{put_paths, room_of};
use ov_flow::PlacePaths;
use ov_graph::Graph;
use ov_ids::NodeId;
use std::marker::Model;

/// How many bytes more than for its places a path of a fan needs: two brackets and a comma.
const MORE_FOR_FAN: usize = 3;

/// How many bytes more than for its places a path of a pair needs: two brackets, a comma and its last id.
const MORE_FOR_PAIR: usize = 14;

/// Two members that are not linked, and paths from `i` to `j`, without their last node, which is `j`. Contracts see the
/// entry by ids.
#[derive(Drop)]
pub(crate) struct PlacedPair<'a> {
    i: NodeId,
    j: NodeId,
    graph: &'a Graph,
    paths: &'a PlacePaths,
}

impl<'a> Model for PlacedPair<'a> {
    ghost use Rattle.ov_flow.specs.Flow.{ArePlaces};
    ghost use Rattle.ov_cert.specs.declared.cert.PairPaths.{PairPaths};
    ghost use Rattle.ov_certwriter.specs.Code.Placed.{pair_of};

    ghost Value = { PairPaths };

    ghost view = { λ p. pair_of p.graph.now p.i p.j p.paths.now };

    ghost invariant = { λ p. ArePlaces p.graph.now p.paths.now };
}

impl<'a> PlacedPair<'a> {
    /// The entry of these two members.
    pub(crate) fn new(
        i: NodeId,
        j: NodeId,
        graph: &'a Graph,
        paths: &'a PlacePaths,
    ) -> PlacedPair<'a>
        requires { ArePlaces graph.now paths.now }
        ensures { result ≡ pair_of graph.now i j paths.now }
    {
        PlacedPair { i, j, graph, paths }
    }
}

impl<'a> Entry for PlacedPair<'a> {
    ghost use Rattle.ov_certfile.specs.DataOf.{pair_data};

    ghost as_data = { pair_data };

    ghost paths_of = { λ e. e.paths };

    fn room(&self) -> usize {
        room_of(self.paths, MORE_FOR_PAIR)
    }

    fn ids(&self, paths: u64) -> u64 {
        (self.paths.places() as u64).saturating_add(paths)
    }

    fn put_into(&self, out: &mut [u8], at: usize) -> usize {
        put_pair(out, at, self.i, self.j, self.graph, self.paths)
    }
}

/// A member, and paths from it to members below it. Contracts see the entry by ids.
#[derive(Drop)]
pub(crate) struct PlacedFan<'a> {
    j: NodeId,
    graph: &'a Graph,
    paths: &'a PlacePaths,
}

impl<'a> Model for PlacedFan<'a> {
    ghost use Rattle.ov_flow.specs.Flow.{ArePlaces};
    ghost use Rattle.ov_cert.specs.declared.cert.FanPaths.{FanPaths};
    ghost use Rattle.ov_certwriter.specs.Code.Placed.{fan_of};

    ghost Value = { FanPaths };

    ghost view = { λ p. fan_of p.graph.now p.j p.paths.now };

    ghost invariant = { λ p. ArePlaces p.graph.now p.paths.now };
}

impl<'a> PlacedFan<'a> {
    /// The entry of this member.
    pub(crate) fn new(j: NodeId, graph: &'a Graph, paths: &'a PlacePaths) -> PlacedFan<'a>
        requires { ArePlaces graph.now paths.now }
        ensures { result ≡ fan_of graph.now j paths.now }
    {
        PlacedFan { j, graph, paths }
    }
}

impl<'a> Entry for PlacedFan<'a> {
    ghost use Rattle.ov_certfile.specs.DataOf.{fan_data};

    ghost as_data = { fan_data };

    ghost paths_of = { λ e. e.paths };

    fn room(&self) -> usize {
        room_of(self.paths, MORE_FOR_FAN)
    }

    fn ids(&self, _paths: u64) -> u64 {
        self.paths.places() as u64
    }

    fn put_into(&self, out: &mut [u8], at: usize) -> usize {
        put_fan(out, at, self.j, self.graph, self.paths)
    }
}

/// Puts the entry of a pair.
fn put_pair(
    out: &mut [u8],
    at: usize,
    i: NodeId,
    j: NodeId,
    graph: &Graph,
    paths: &PlacePaths,
) -> usize
    requires { ArePlaces graph.now paths.now }
    ensures text { Puts (compact_text (pair_data (pair_of graph.now i j paths.now))) out.old at out.new result }
    ensures short { length (compact_text (pair_data (pair_of graph.now i j paths.now))) + 1
        ≤ entry_room (by_ids graph.now (Some j) paths.now) }
{
    let i_at = put_text(out, at, "{\"i\":");
    let behind_i = put_whole(out, i_at, i.number());
    let j_at = put_text(out, behind_i, ",\"j\":");
    let behind_j = put_whole(out, j_at, j.number());
    let paths_at = put_text(out, behind_j, ",\"paths\":");
    let behind_paths = put_paths(out, paths_at, graph, paths, &Some(j));
    put_byte(out, behind_paths, b'}')
}

/// Puts the entry of a fan.
fn put_fan(out: &mut [u8], at: usize, j: NodeId, graph: &Graph, paths: &PlacePaths) -> usize
    requires { ArePlaces graph.now paths.now }
    ensures text { Puts (compact_text (fan_data (fan_of graph.now j paths.now))) out.old at out.new result }
    ensures short { length (compact_text (fan_data (fan_of graph.now j paths.now))) + 1
        ≤ entry_room (by_ids graph.now None paths.now) }
{
    let j_at = put_text(out, at, "{\"j\":");
    let behind_j = put_whole(out, j_at, j.number());
    let paths_at = put_text(out, behind_j, ",\"paths\":");
    let behind_paths = put_paths(out, paths_at, graph, paths, &None);
    put_byte(out, behind_paths, b'}')
}
