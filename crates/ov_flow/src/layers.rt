//! The layers of a search: which steps lead from its nodes to nodes that are one step farther from the source.
ghost use Rattle.std.specs.Prelude.{◌≡◌, ℕ, ◌<◌, length};
ghost use Rattle.ov_ids.specs.Members.{Has};
ghost use Rattle.ov_graph.specs.Row.{HasBit};
ghost use Rattle.ov_split.specs.Places.{net_by_place};
ghost use Rattle.ov_flow.specs.Code.Reached.{IsTreeOf};
ghost use Rattle.ov_flow.specs.Code.Held.{IsReady};

use crate::place_table::PlaceTable;
use crate::search_tree::{Tree, no_places};
use ov_graph::bit_rows::{clear, has, put, without};
use ov_split::SplitNet;
use std::alloc::{AllocError, Global};

/// How many layers there may be. If a search has more, it is left without layers.
const MOST_LAYERS: usize = 64;

/// The steps that no walk has taken yet. `links[d]` has the nodes to which a link may be taken from a node at depth
/// `d`, which is `d` steps from the source. `backs` has the nodes from which the step back may be taken. `visited` has
/// the source, and the nodes that walks came to. `onward` has for a node the last link that was tried from it: none
/// before it is left, so that a node with many links is gone through once and not again after each dead end.
#[derive(Drop)]
pub(crate) struct Layers<const W: usize> {
    pub links: Vec<[u64; W]>,
    pub backs: [u64; W],
    pub visited: [u64; W],
    pub onward: PlaceTable,
}

/// What layers allocate.
#[derive(Drop)]
pub(crate) struct LayerRoom<const W: usize> {
    pub links: Vec<[u64; W]>,
    pub onward: PlaceTable,
}

/// Room for `MOST_LAYERS` layers, for nets with this many places.
pub(crate) fn new_layer_room<const W: usize>(
    alloc: Global,
    places: usize,
) -> Result<LayerRoom<W>, AllocError> {
    Ok(LayerRoom {
        links: Vec::with_capacity(alloc, MOST_LAYERS)?,
        onward: PlaceTable::new(alloc, places)?,
    })
}

/// No layers, in this room.
pub(crate) fn layers_in<const W: usize>(room: LayerRoom<W>) -> Layers<W> {
    Layers {
        links: room.links,
        backs: [0; W],
        visited: [0; W],
        onward: room.onward,
    }
}

/// Writes the layers of a search that found a target. The walk to this target is taken already, so its nodes are
/// visited. False: there are more layers than may be.
pub(crate) fn set_layers<const W: usize>(
    net: &SplitNet<'_, W>,
    tree: &Tree<W>,
    ends: &[u16],
    layers: &mut Layers<W>,
) -> bool
    requires ready { IsReady W net.now }
    requires grown { IsTreeOf (net_by_place net.now) tree.now }
    requires ends { (e : ℕ) → Has ends.now e → Has (net_by_place net.now).targets e }
    ensures source { HasBit layers.new.visited (net_by_place net.now).source }
{
    layers.links.clear();
    layers.onward.clear();
    layers.backs = no_places();
    layers.visited = walked(net, tree);
    if !part(net, tree, layers) {
        return false;
    }
    add_targets(net, ends, layers)
}

/// The nodes on the way from the last node of the tree back to the source.
fn walked<const W: usize>(net: &SplitNet<'_, W>, tree: &Tree<W>) -> [u64; W]
    requires ready { IsReady W net.now }
    requires grown { IsTreeOf (net_by_place net.now) tree.now }
    ensures source { HasBit result (net_by_place net.now).source }
{
    let mut nodes = [0; W];
    put(&mut nodes, net.source());
    let mut at = tree.order.len() - 1;
    while at > 0 {
        put(&mut nodes, tree.order[at] as usize);
        at = tree.parents[at] as usize;
    }
    nodes
}

/// Writes all layers but the last, which is incomplete. A node is in the next layer if its parent is in this one.
/// False: there are more layers than may be.
fn part<const W: usize>(net: &SplitNet<'_, W>, tree: &Tree<W>, layers: &mut Layers<W>) -> bool
    requires ready { IsReady W net.now }
    requires grown { IsTreeOf (net_by_place net.now) tree.now }
    ensures visited { layers.new.visited ≡ layers.old.visited }
{
    let mut row = [0; W];
    let mut start = 1;
    for k in 1..tree.order.len() {
        let parent = tree.parents[k] as usize;
        if parent >= start {
            if !add_layer(row, layers) {
                return false;
            }
            row = no_places();
            start = k;
        }
        add_way(net, tree, k, &mut row, layers);
    }
    true
}

/// Adds the step to the node at place `k` of the order, unless the node is visited.
fn add_way<const W: usize>(
    net: &SplitNet<'_, W>,
    tree: &Tree<W>,
    k: usize,
    row: &mut [u64; W],
    layers: &mut Layers<W>,
)
    requires ready { IsReady W net.now }
    requires grown { IsTreeOf (net_by_place net.now) tree.now }
    requires later { 0 < k }
    requires within { k < length tree.now.order.items }
    ensures visited { layers.new.visited ≡ layers.old.visited }
{
    if has(&layers.visited, tree.order[k] as usize) {
        return;
    }
    match tree.ways[k] {
        Some(w) => put(row, w as usize),
        None => put(
            &mut layers.backs,
            tree.order[tree.parents[k] as usize] as usize,
        ),
    }
}

/// Writes the last layer: links to the targets that no path comes to. False: there are more layers than may be.
fn add_targets<const W: usize>(net: &SplitNet<'_, W>, ends: &[u16], layers: &mut Layers<W>) -> bool
    requires ready { IsReady W net.now }
    requires ends { (e : ℕ) → Has ends.now e → Has (net_by_place net.now).targets e }
    ensures visited { layers.new.visited ≡ layers.old.visited }
{
    let mut free = without(net.targets(), net.avoided(), net.words());
    for end in ends.iter() {
        clear(&mut free, *end as usize);
    }
    add_layer(free, layers)
}

/// Adds the layer at the next depth. False: there are as many as may be.
fn add_layer<const W: usize>(row: [u64; W], layers: &mut Layers<W>) -> bool
    ensures visited { layers.new.visited ≡ layers.old.visited }
{
    if layers.links.len() == layers.links.capacity() {
        return false;
    }
    layers.links.push_reserved(row);
    true
}
