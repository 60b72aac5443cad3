//! The texts of paths that are lists of places of nodes in the graph, put into memory that is there already, as
//! `byte_putting` does it. The id of each place is looked up as it is put. The paths of a certificate may be
//! millions, so what is called for each stands in its caller when it is compiled.
ghost use Rattle.std.specs.Prelude.{◌<◌, ◌≤◌, ◌+◌, ◌*◌, ℕ, [], length, Option};
ghost use Rattle.serde_json.specs.Written.{compact_text};
ghost use Rattle.ov_ids.specs.Members.{Has};
ghost use Rattle.ov_graph.specs.Links.{LinkGraph};
ghost use Rattle.ov_flow.specs.Flow.{ArePlaces, ended_by};
ghost use Rattle.ov_certfile.specs.DataOf.{whole_data, ids_data, paths_data};
ghost use Rattle.ov_certwriter.specs.Code.Blocks.{Puts, items_after, texts_room, entry_room};
ghost use Rattle.ov_certwriter.specs.Code.Placed.{by_ids, ids_back};

use crate::byte_putting::{put_byte, put_comma, put_whole};
use ov_flow::PlacePaths;
use ov_graph::Graph;
use ov_ids::NodeId;

/// A number that the room of an entry with these paths is not above, if each needs no more than so many bytes more than
/// for its places; the largest number, if the room is so large.
pub(crate) fn room_of(paths: &PlacePaths, more: usize) -> usize
    ensures { (g : LinkGraph) (last : Option ℕ) → 3 + 11 * length (ended_by last []) ≤ more → result < usize.MAX
        → entry_room (by_ids g last paths.now) ≤ result }
{
    let ids = paths.places().saturating_mul(11);
    let rest = paths.count().saturating_mul(more);
    ids.saturating_add(rest).saturating_add(43)
}

/// Puts the array of these paths by ids, each with `last` at its end if one is given.
pub(crate) fn put_paths(
    out: &mut [u8],
    at: usize,
    graph: &Graph,
    paths: &PlacePaths,
    last: &Option<NodeId>,
) -> usize
    requires { ArePlaces graph.now paths.now }
    ensures text { Puts (compact_text (paths_data (by_ids graph.now last.now paths.now))) out.old at out.new result }
    ensures short { length (compact_text (paths_data (by_ids graph.now last.now paths.now)))
        ≤ 2 + texts_room (by_ids graph.now last.now paths.now) }
{
    let nodes = graph.nodes();
    let mut end = put_byte(out, at, b'[');
    let mut later = false;
    for path in paths.backwards() {
        let path_at = put_comma(out, end, later);
        end = put_path(out, path_at, nodes, path, last);
        later = true;
    }
    put_byte(out, end, b']')
}

/// Puts the array of the ids of the nodes at these places, from the last place to the first, and then of `last` if one
/// is given.
#[inline(always)]
fn put_path(
    out: &mut [u8],
    at: usize,
    nodes: &[NodeId],
    path: &[u16],
    last: &Option<NodeId>,
) -> usize
    requires { (p : ℕ) → Has path.now p → p < length nodes.now }
    ensures text { Puts (compact_text (ids_data (ended_by last.now (ids_back nodes.now path.now)))) out.old at out.new
        result }
    ensures short { length (compact_text (ids_data (ended_by last.now (ids_back nodes.now path.now))))
        ≤ 11 * length (ended_by last.now (ids_back nodes.now path.now)) + 2 }
{
    let mut end = put_byte(out, at, b'[');
    let mut later = false;
    let mut left = path;
    while let Some((place, before)) = left.split_last() {
        let id_at = put_comma(out, end, later);
        end = put_whole(out, id_at, nodes[*place as usize].number());
        later = true;
        left = before;
    }
    let behind = put_last(out, end, later, last);
    put_byte(out, behind, b']')
}

/// Puts the last id of a path, if one is given, with a comma before it if others stand before.
#[inline(always)]
fn put_last(out: &mut [u8], at: usize, later: bool, last: &Option<NodeId>) -> usize
    ensures text { Puts (items_after whole_data later (ended_by last.now [])) out.old at out.new result }
    ensures short { length (items_after whole_data later (ended_by last.now [])) ≤ 11 * length (ended_by last.now []) }
{
    let Some(id) = last else { return at };
    let id_at = put_comma(out, at, later);
    put_whole(out, id_at, id.number())
}
