//! The buffers of a search, and the paths that are held.
ghost use Rattle.std.specs.Prelude.{◌≡◌, ◌<◌, [], length, false, IfOk, MatchBool};
ghost use Rattle.ov_split.specs.SplitNetState.{SplitNetState};
ghost use Rattle.ov_split.specs.Places.{net_by_place};
ghost use Rattle.ov_flow.specs.Code.Reached.{IsTreeOf};
ghost use Rattle.ov_flow.specs.Code.Held.{IsReady, HasWorkRoom, IsFreshRoom, IsWorkOf, IsSame, IsLonger, IsAtEnd};

use crate::layered_walks::take_more;
use crate::layers::{LayerRoom, Layers, layers_in, new_layer_room};
use crate::one_link_paths::take_direct;
use crate::path_search::search;
use crate::path_table::replace_paths;
use crate::place_table::PlaceTable;
use crate::search_tree::{Tree, TreeRoom, new_tree_room, tree_in};
use crate::two_link_paths::take_two_links;
use crate::walk_augmentation::{Hop, walk_back};
use ov_split::SplitNet;
use std::alloc::{AllocError, Global};

/// The tree and the walk of the last search, and the paths that are held: in `from` the place before each place on its
/// path, and their ends. `next` is a buffer for `from`. `layers` are those of the last search.
#[derive(Drop)]
pub(crate) struct Work<const W: usize> {
    pub tree: Tree<W>,
    pub hops: Vec<Hop>,
    pub from: PlaceTable,
    pub next: PlaceTable,
    pub ends: Vec<u16>,
    pub layers: Layers<W>,
}

/// What the buffers allocate. It is small, whatever `W` is, so that it may be the value of a `Result`.
#[derive(Drop)]
pub(crate) struct WorkRoom<const W: usize> {
    pub tree: TreeRoom,
    pub hops: Vec<Hop>,
    pub from: PlaceTable,
    pub next: PlaceTable,
    pub ends: Vec<u16>,
    pub layers: LayerRoom<W>,
}

/// Allocates the room of the buffers for nets with this many places.
pub(crate) fn new_work_room<const W: usize>(
    alloc: Global,
    places: usize,
) -> Result<WorkRoom<W>, AllocError>
    ensures { IfOk result (IsFreshRoom places) }
{
    Ok(WorkRoom {
        tree: new_tree_room(alloc, places)?,
        hops: Vec::with_capacity(alloc, places)?,
        from: PlaceTable::new(alloc, places)?,
        next: PlaceTable::new(alloc, places)?,
        ends: Vec::with_capacity(alloc, places)?,
        layers: new_layer_room(alloc, places)?,
    })
}

/// Buffers in this room. No path is held.
pub(crate) fn work_in<const W: usize>(room: WorkRoom<W>) -> Work<W>
    ensures work { (n : SplitNetState) → IsFreshRoom (length n.graph.nodes) room.entry → IsWorkOf n result }
    ensures empty { room.entry.ends.items ≡ [] → result.ends.items ≡ [] }
{
    Work {
        tree: tree_in(room.tree),
        hops: room.hops,
        from: room.from,
        next: room.next,
        ends: room.ends,
        layers: layers_in(room.layers),
    }
}

/// Drops all paths that are held.
fn start<const W: usize>(net: &SplitNet<'_, W>, work: &mut Work<W>)
    requires { HasWorkRoom (length net.now.graph.nodes) work.old }
    ensures work { IsWorkOf net.now work.new }
    ensures empty { work.new.ends.items ≡ [] }
{
    work.from.clear();
    work.ends.clear();
}

/// Searches for one more path. True: it was found, and is held.
pub(crate) fn augment<const W: usize>(net: &SplitNet<'_, W>, work: &mut Work<W>) -> bool
    requires ready { IsReady W net.now }
    requires work { IsWorkOf net.now work.old }
    ensures work { IsWorkOf net.now work.new }
    ensures longer { MatchBool result (IsLonger work.old work.new) (IsSame work.old work.new) }
    ensures end { result ≡ false → IsAtEnd net.now work.new }
    ensures grown { IsTreeOf (net_by_place net.now) work.new.tree }
{
    if !search(net, &work.from, &mut work.tree) {
        return false;
    }
    walk_back(&work.tree, &mut work.hops);
    let target = work.tree.order[work.tree.order.len() - 1];
    work.ends.push_reserved(target);
    replace_paths(
        net,
        &mut work.from,
        &mut work.next,
        &work.ends,
        &work.hops,
        target,
    );
    true
}

/// Starts again, and searches for `level` paths. After each search that finds one, more walks are taken through its
/// layers. True: this many are held.
pub(crate) fn settle<const W: usize>(
    net: &SplitNet<'_, W>,
    level: usize,
    work: &mut Work<W>,
) -> bool
    requires ready { IsReady W net.now }
    requires room { HasWorkRoom (length net.now.graph.nodes) work.old }
    ensures work { IsWorkOf net.now work.new }
    ensures held { MatchBool result (length work.new.ends.items ≡ level) (length work.new.ends.items < level) }
    ensures end { result ≡ false → IsAtEnd net.now work.new }
{
    start(net, work);
    let mut far = take_direct(net, level, work);
    if work.ends.len() >= level {
        return true;
    }
    take_two_links(net, level, &mut far, work);
    while work.ends.len() < level {
        if !augment(net, work) {
            return false;
        }
        take_more(net, level, work);
    }
    true
}
